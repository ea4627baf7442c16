// Items in groups.
ghost use Rattle.std.specs.Prelude.{◌≡◌, ℕ, ◌∷◌, ◌+◌, ◌-◌, ◌<◌, ◌≤◌, [], length, IfOk, MatchOption, vec_capacity, slice_index_or};
ghost use Rattle.std.specs.List.{All, AllZip};
ghost use denote.Param.Send.{IsSync, IsSend};
ghost use Rattle.workers.specs.Dealt.{Dealt, dealt, IsWorkedOn};

use crate::crew::Crew;
use ports::NoMemory;
use std::alloc::{AllocError, Global};
use std::cmp::min;
use std::marker::Model;
use std::thread::{Threads, for_each_mut};

/// Items in groups, that of number i in group i modulo the number of groups. They are put in from
/// the last number down, and come out from the first one on.
///
/// To a contract they are one list, in the order of their numbers, and a count of the items for
/// which there is room before them.
#[derive(Drop)]
pub struct Groups<I> {
    groups: Vec<Vec<I>>,
    first: usize,
    count: usize,
}

impl<I> Model for Groups<I> {
    ghost use Rattle.workers.specs.Dealt.{Dealt, in_order, items_in, AreGroups};

    ghost Value = { Dealt I };

    ghost view = { λ s. record {
      room = s.first;
      items = in_order s.count s.first (items_in s.groups.items);
    } };

    ghost invariant = { λ s. AreGroups s.count s.first s.groups.items };
}

// So many empty groups, each with room for so many items.
fn empty_groups<I: Drop>(
    alloc: Global,
    groups: usize,
    count: usize,
) -> Result<Vec<Vec<I>>, AllocError>
    ensures count { IfOk result (λ gs. length gs.items ≡ groups) }
    ensures empty { IfOk result (λ gs. All (λ g. g.items ≡ []) gs.items) }
    ensures room { IfOk result (λ gs. All (λ g. count ≤ vec_capacity g) gs.items) }
{
    let mut all = Vec::with_capacity(alloc, groups)?;
    for _ in 0..groups {
        let group = Vec::with_capacity(alloc, count)?;
        all.push(group)?;
    }
    Ok(all)
}

impl<I: Drop> Groups<I> {
    /// Groups for so many workers, with room for so many items, and none yet. There are no more
    /// groups than items. No later call asks for memory.
    pub fn with_room(alloc: Global, count: usize, workers: usize) -> Result<Groups<I>, NoMemory>
        requires { (1 ≤ count) × (1 ≤ workers) }
        ensures { IfOk result (λ s. s ≡ dealt count []) }
    {
        let groups = empty_groups(alloc, min(workers, count), count)?;
        Ok(Groups {
            groups,
            first: count,
            count: 0,
        })
    }
}

impl<I> Groups<I> {
    /// Puts an item in before the others.
    pub fn put(&mut self, item: I)
        requires { 1 ≤ self.old.room }
        ensures { self.new ≡ dealt (self.old.room - 1) (item ∷ self.old.items) }
    {
        self.first -= 1;
        self.count += 1;
        let home = self.first % self.groups.len();
        let group = &mut self.groups[home];
        group.push_reserved(item);
    }

    /// Takes the first item out.
    pub fn take(&mut self) -> Option<I>
        ensures { MatchOption result ((self.old.items ≡ []) × (self.new ≡ self.old))
            (λ item. (self.old.items ≡ item ∷ self.new.items)
            × (self.new.room ≡ self.old.room + 1)) }
    {
        if self.count == 0 {
            return None;
        }
        let home = self.first % self.groups.len();
        self.first += 1;
        self.count -= 1;
        let group = &mut self.groups[home];
        group.pop()
    }
}

impl<I: Send> Groups<I> {
    /// Has the crew work on all groups at the same time, on each in a thread of its own where one
    /// can be made. Each item keeps its place.
    pub fn run<T: Threads + Sync, C: Crew<I> + Sync>(&mut self, rt: &T, crew: &C)
        requires { All (C.is_ready crew.now) self.old.items }
        ensures made { AllZip (C.makes crew.now) self.old.items self.new.items }
        ensures room { self.new.room ≡ self.old.room }
    {
        work_on_all(rt, crew, self.groups.as_mut_slice());
    }
}

// Has the crew work on these groups, of which there are some.
fn work_on_all<T: Threads + Sync, I: Send, C: Crew<I> + Sync>(
    rt: &T,
    crew: &C,
    groups: &mut [Vec<I>],
)
    requires some { 0 < length groups.old }
    requires ready { All (λ g. All (C.is_ready crew.now) g.items) groups.old }
    ensures { (i : ℕ) (d : _) → i < length groups.old
        → IsWorkedOn (C.makes crew.now) (slice_index_or groups.old i d)
        (slice_index_or groups.new i d) }
{
    let wide = groups.len();
    for_each_mut(rt, groups, wide, &|_, group| work_on(crew, group));
}

// Has the crew work on one group.
fn work_on<I, C: Crew<I>>(crew: &C, group: &mut Vec<I>)
    requires { All (C.is_ready crew.now) group.old.items }
    ensures { IsWorkedOn (C.makes crew.now) group.old group.new }
{
    crew.work(group.as_mut_slice());
}
