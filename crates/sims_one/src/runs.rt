// Runs of all parts of a work, over threads.
ghost use Rattle.std.specs.Prelude.{◌≡◌, ◌≤◌, All, [], true, length, map, OnOk, vec_capacity};
ghost use Rattle.workers.specs.Dealt.{dealt};
ghost use Rattle.sims_one.specs.Parts.{part_of, HasRun, IsFresh};

use crate::groups::{InTurn, Numbered};
use crate::parts::Part;
use ports::{Gate, NoMemory};
use std::alloc::Global;
use std::thread::Threads;
use workers::Groups;

// The parts go to groups.
fn deal<P: Part>(parts: &mut Vec<P>, groups: &mut Groups<Numbered<P>>)
    requires { groups.old ≡ dealt (length parts.old.items) [] }
    ensures groups { map part_of groups.new.items ≡ parts.old.items }
    ensures fresh { All IsFresh groups.new.items }
    ensures parts { (parts.new.items ≡ []) × (vec_capacity parts.new ≡ vec_capacity parts.old) }
{
    while let Some(part) = parts.pop() {
        let number = parts.len();
        groups.put(Numbered {
            number,
            part,
            ran: false,
        });
    }
}

// The parts come back in order. Whether each has run.
fn gather<P: Part>(groups: &mut Groups<Numbered<P>>, parts: &mut Vec<P>) -> bool
    requires { (parts.old.items ≡ []) × (length groups.old.items ≤ vec_capacity parts.old) }
    ensures parts { parts.new.items ≡ map part_of groups.old.items }
    ensures ran { result ≡ true → All HasRun groups.old.items }
{
    let mut all_ran = true;
    while let Some(numbered) = groups.take() {
        all_ran &= numbered.ran;
        parts.push_reserved(numbered.part);
    }
    all_ran
}

/// Runs all parts. With one worker they run in order, and the gate is not passed. With more, part i
/// goes to group i modulo the number of workers, and the groups run at the same time; each runs its
/// parts one after another, and each part passes the gate with its number before it runs. The parts
/// keep their places and their tasks, also where memory is wanting, for the groups or in the run of
/// a part; then any of them may have run.
pub fn run_parts<T: Threads + Sync, P: Part + Send, G: Gate + Sync>(
    rt: &T,
    alloc: Global,
    parts: &mut Vec<P>,
    workers: usize,
    gate: &G,
) -> Result<(), NoMemory>
    requires { 1 ≤ workers }
    ensures tasks { map P.task parts.new.items ≡ map P.task parts.old.items }
    ensures done { OnOk result (All P.is_done parts.new.items) }
{
    if workers == 1 {
        return run_in_order(parts.as_mut_slice());
    }
    if parts.is_empty() {
        return Ok(());
    }
    let count = parts.len();
    let mut groups = Groups::with_room(alloc, count, workers)?;
    deal(parts, &mut groups);
    groups.run(rt, &InTurn { gate });
    if gather(&mut groups, parts) {
        Ok(())
    } else {
        Err(NoMemory)
    }
}

// Runs the parts one after another.
fn run_in_order<P: Part>(parts: &mut [P]) -> Result<(), NoMemory>
    ensures tasks { map P.task parts.new ≡ map P.task parts.old }
    ensures done { OnOk result (All P.is_done parts.new) }
{
    for i in 0..parts.len() {
        let part = &mut parts[i];
        part.run()?;
    }
    Ok(())
}
