// Strongly connected components by one search in depth, without recursion (Purdom and Munro 1970;
// Gabow 2000). The path from the first number is a stack of numbers, cut into components that are
// known to be connected. An edge back to the path joins all components from there on; numbers that
// are new stand ahead, on a stack of their own, until it is their turn.
ghost use Rattle.std.specs.Prelude.{◌≡◌, ◌≢◌, ℕ, ◌+◌, ◌<◌, ◌-◌, ◌≤◌, [], length, slice_index, take, IfOk, OnOk};
ghost use Rattle.cayley.specs.Tables.{AreEdges, edge};
ghost use Rattle.green.specs.Touring.{ArePlaced, DoesLeadTo, HasClosed, HaveJoined, IsEdgeFrom, IsEdgeTo, IsLedTo, IsOnTop, IsTour, IsTourBut, KeepsSeen, entered, left_over, start_at, state_at, with_ahead, without_start};
ghost use Rattle.green.specs.declared.states.State.TheVariants.{Unseen, Done};

use crate::states::{Packed, State, in_four_bytes};
use froidure_pin::Rows;
use ports::NoMemory;
use std::alloc::Global;
use std::marker::Model;

// Where a component begins: in the path, and among the numbers ahead.
#[derive(Clone, Copy)]
pub struct Start {
    pub place: usize,
    pub ahead: usize,
}

// The state of each number, the path, the numbers that are yet to be visited since an edge of the
// path leads to them, and where the components of the path start. Each row is read once, when its
// number is entered, and only numbers that are new then stand ahead.
#[derive(Drop)]
pub struct DepthFirst {
    states: Vec<Packed>,
    path: Vec<u32>,
    ahead: Vec<u32>,
    starts: Vec<Start>,
}

impl Model for DepthFirst {
    ghost use Rattle.green.specs.Touring.{Tour};

    ghost Value = { Tour };

    ghost view = { λ d. record {
      states = d.states.items;
      path = d.path.items;
      ahead = d.ahead.items;
      starts = d.starts.items;
    } };
}

impl DepthFirst {
    // No number is seen.
    pub(crate) fn new(alloc: Global, count: usize) -> Result<DepthFirst, NoMemory>
        ensures tour { IfOk result (λ new. (w : ℕ) (next : ℕ → ℕ → ℕ) → IsTour count w next new) }
        ensures rest { IfOk result (λ new. new.starts ≡ []) }
    {
        Ok(DepthFirst {
            states: vec![in alloc; Packed::new(State::Unseen)?; count]?,
            path: Vec::new(alloc),
            ahead: Vec::new(alloc),
            starts: Vec::new(alloc),
        })
    }

    // Where a number stands.
    fn state(&self, number: usize) -> State
        requires { number < length self.now.states }
        ensures { result ≡ state_at self.now.states number }
    {
        self.states[number].state()
    }

    // The start of the last component.
    fn top(&self) -> Start
        requires { 0 < length self.now.starts }
        ensures { result ≡ start_at self.now.starts (length self.now.starts - 1) }
    {
        self.starts[self.starts.len() - 1]
    }

    // A number that is new becomes the last component of the path.
    fn begin(&mut self, number: usize) -> Result<(), NoMemory>
        requires { number < length self.old.states }
        ensures { OnOk result (self.new ≡ entered self.old number) }
    {
        let place = self.path.len();
        self.states[number] = Packed::new(State::OnPath(place))?;
        self.starts.push(Start {
            place,
            ahead: self.ahead.len(),
        })?;
        self.path.push(in_four_bytes(number)?)?;
        Ok(())
    }

    // A number is yet to be visited.
    fn put_ahead(&mut self, number: usize) -> Result<(), NoMemory>
        ensures ok { OnOk result (self.new ≡ with_ahead self.old number) }
        ensures states { self.new.states ≡ self.old.states }
    {
        self.ahead.push(in_four_bytes(number)?)?;
        Ok(())
    }

    // The last component has no start of its own.
    fn drop_start(&mut self)
        ensures { self.new ≡ without_start self.old }
    {
        let _start = self.starts.pop();
    }

    // The components from that of a place on become one.
    fn join(&mut self, place: usize)
        requires some { 0 < length self.old.starts }
        requires first { (start_at self.old.starts 0).place ≡ 0 }
        ensures joined { HaveJoined place self.old.starts self.new.starts }
        ensures states { self.new.states ≡ self.old.states }
        ensures path { self.new.path ≡ self.old.path }
        ensures ahead { self.new.ahead ≡ self.old.ahead }
    {
        while place < self.top().place {
            self.drop_start();
        }
    }

    // The numbers of the path from a place on are done, in a component that goes by the first.
    fn finish(&mut self, place: usize) -> Result<(), NoMemory>
        requires placed { ArePlaced self.old.states self.old.path }
        requires place { place < length self.old.path }
        ensures closed { OnOk result (HasClosed place (length self.old.path)
            (slice_index self.old.path place) self.old.states self.new.states) }
        ensures path { OnOk result (self.new.path ≡ take place self.old.path) }
        ensures ahead { self.new.ahead ≡ self.old.ahead }
        ensures starts { self.new.starts ≡ self.old.starts }
    {
        let name = self.path[place] as usize;
        for later in place..self.path.len() {
            self.states[self.path[later] as usize] = Packed::new(State::Done(name))?;
        }
        self.path.truncate(place);
        Ok(())
    }

    // Looks where an edge of the last component leads: to a number that is new, and stands ahead
    // from now on, back to the path, or to what is done.
    fn look(
        &mut self,
        rows: &Rows,
        letters: usize,
        number: usize,
        letter: usize,
    ) -> Result<(), NoMemory>
        requires edges { AreEdges letters (length rows.now) rows.now }
        requires letter { letter < letters }
        requires tour { IsTourBut (length rows.now) letters (edge rows.now)
            (IsEdgeFrom number letter) self.old }
        requires top { IsOnTop self.old number }
        ensures tour { OnOk result (IsTourBut (length rows.now) letters (edge rows.now)
            (IsEdgeFrom number (letter + 1)) self.new) }
        ensures top { OnOk result (IsOnTop self.new number) }
        ensures states { self.new.states ≡ self.old.states }
        ensures left { OnOk result (left_over letters self.new
            ≤ left_over letters self.old + 1) }
    {
        let next = rows.at(number, letter);
        match self.state(next) {
            State::Unseen => self.put_ahead(next),
            State::OnPath(back) => {
                self.join(back);
                Ok(())
            }
            State::Done(_) => Ok(()),
        }
    }

    // Enters a number that is new, and looks along all its edges.
    fn enter(&mut self, rows: &Rows, letters: usize, number: usize) -> Result<(), NoMemory>
        requires edges { AreEdges letters (length rows.now) rows.now }
        requires tour { IsTourBut (length rows.now) letters (edge rows.now)
            (IsEdgeTo (edge rows.now) number) self.old }
        requires number { number < length rows.now }
        requires unseen { state_at self.old.states number ≡ Unseen }
        requires led { DoesLeadTo letters (edge rows.now) self.old number }
        ensures tour { OnOk result (IsTour (length rows.now) letters (edge rows.now) self.new) }
        ensures kept { OnOk result (KeepsSeen self.old self.new) }
        ensures seen { OnOk result (state_at self.new.states number ≢ Unseen) }
        ensures left { OnOk result (left_over letters self.new
            ≤ left_over letters self.old) }
    {
        self.begin(number)?;
        for letter in 0..letters {
            self.look(rows, letters, number, letter)?;
        }
        Ok(())
    }

    // Comes to a number where edges of the last component lead: enters it, if it is new.
    fn arrive(&mut self, rows: &Rows, letters: usize, number: usize) -> Result<(), NoMemory>
        requires edges { AreEdges letters (length rows.now) rows.now }
        requires tour { IsTourBut (length rows.now) letters (edge rows.now)
            (IsEdgeTo (edge rows.now) number) self.old }
        requires led { IsLedTo letters (edge rows.now) self.old number }
        ensures tour { OnOk result (IsTour (length rows.now) letters (edge rows.now) self.new) }
        ensures kept { OnOk result (KeepsSeen self.old self.new) }
        ensures left { OnOk result (left_over letters self.new
            ≤ left_over letters self.old) }
    {
        match self.state(number) {
            State::Unseen => self.enter(rows, letters, number),
            State::OnPath(place) => {
                self.join(place);
                Ok(())
            }
            State::Done(_) => Ok(()),
        }
    }

    // Comes to the last number ahead of the last component, or ends the component where none is.
    fn step(&mut self, rows: &Rows, letters: usize) -> Result<(), NoMemory>
        requires edges { AreEdges letters (length rows.now) rows.now }
        requires tour { IsTour (length rows.now) letters (edge rows.now) self.old }
        requires some { 0 < length self.old.starts }
        ensures tour { OnOk result (IsTour (length rows.now) letters (edge rows.now) self.new) }
        ensures kept { OnOk result (KeepsSeen self.old self.new) }
        ensures falls { OnOk result (left_over letters self.new
            < left_over letters self.old) }
    {
        let start = self.top();
        if self.ahead.len() == start.ahead {
            self.finish(start.place)?;
            self.drop_start();
            return Ok(());
        }
        let Some(number) = self.ahead.pop() else {
            return Ok(());
        };
        self.arrive(rows, letters, number as usize)
    }

    // Visits all that is reached from a number, unless it is seen already.
    pub(crate) fn visit(
        &mut self,
        rows: &Rows,
        letters: usize,
        number: usize,
    ) -> Result<(), NoMemory>
        requires edges { AreEdges letters (length rows.now) rows.now }
        requires tour { IsTour (length rows.now) letters (edge rows.now) self.old }
        requires rest { self.old.starts ≡ [] }
        requires number { number < length rows.now }
        ensures tour { OnOk result (IsTour (length rows.now) letters (edge rows.now) self.new) }
        ensures rest { OnOk result (self.new.starts ≡ []) }
        ensures kept { OnOk result (KeepsSeen self.old self.new) }
        ensures seen { OnOk result (state_at self.new.states number ≢ Unseen) }
    {
        if let State::Unseen = self.state(number) {
            self.enter(rows, letters, number)?;
        }
        while !self.starts.is_empty() {
            self.step(rows, letters)?;
        }
        Ok(())
    }

    // The name of the component of a number that is done.
    fn name(&self, number: usize) -> usize
        requires { number < length self.now.states }
        ensures { (name : ℕ) → state_at self.now.states number ≡ Done name → result ≡ name }
    {
        match self.state(number) {
            State::Done(name) => name,
            _ => number,
        }
    }

    // The name of the component of each number that is done.
    pub(crate) fn names(&self, alloc: Global) -> Result<Vec<u32>, NoMemory>
        ensures count { IfOk result (λ names. length names.items ≡ length self.now.states) }
        ensures at { IfOk result (λ names. (i name : ℕ) → i < length self.now.states
            → state_at self.now.states i ≡ Done name → slice_index names.items i ≡ name) }
    {
        let mut names = Vec::with_capacity(alloc, self.states.len())?;
        for number in 0..self.states.len() {
            names.push(in_four_bytes(self.name(number))?)?;
        }
        Ok(names)
    }
}
