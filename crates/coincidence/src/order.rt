// Nodes in the order of their least words, kept as the graph changes.
ghost use Rattle.std.specs.Prelude.{◌≡◌, ◌≢◌, ℕ, suc, ◌+◌, ◌<◌, ◌≤◌, List, [], ◌∷◌, ◌++◌, length, replicate, Bool, true, false, Option, None, Some, IfOk, OnOk, IfSome, IfNone, slice_index_or, slice_set, MatchOption};
ghost use Rattle.theory.specs.Facts.{AllDefined};
ghost use Rattle.theory.specs.Graph.{Graph, target as target_of, IsGraph, SameEnd};
ghost use Rattle.word_graph.specs.Walk.{IsFirstMissing};
ghost use Rattle.coincidence.specs.Kept.{IsKept, IsAhead, IsPlaced, IsOfGraph, LeadsToPlaced, step_at};
ghost use Rattle.coincidence.specs.Live.{IsOn};
ghost use Rattle.coincidence.specs.Marks.{AllMarked, IsFirstUnmarked};

use crate::copies::word_graph;
use crate::edges::Edges;
use crate::marks::first_unmarked;
use ports::NoMemory;
use std::alloc::Global;
use words::Letter;

// A node that was found, and the place and letter by which it was.
#[derive(Clone, Copy)]
pub struct Step {
    pub node: usize,
    pub parent: usize,
    pub letter: usize,
}

// The nodes found so far, in the order of their least words, the place of each, the row and letter
// at which the walk over the edges stands, and a count of nodes at the front that are marked. No
// edge is missing before the place where the walk stands.
#[derive(Drop)]
pub struct Order {
    pub steps: Vec<Step>,
    pub places: Vec<Option<usize>>,
    pub row: usize,
    pub letter: usize,
    pub done: usize,
}

// What the walk has come to: it went on, an edge is missing, or all nodes are found.
#[derive(Clone, Copy)]
pub enum Ahead {
    More,
    Missing(usize, Letter),
    Whole,
}

// The node of the least word whose node has no mark. Refused only where memory is wanting.
fn unprocessed(alloc: Global, edges: &Edges, marked: &Vec<bool>) -> Result<Option<usize>, NoMemory>
    requires { length marked.now.items ≡ length edges.now.graph }
    ensures { IfOk result (λ found. MatchOption found (AllMarked edges.now.graph marked.now.items)
        (IsFirstUnmarked edges.now.graph marked.now.items)) }
{
    let graph = word_graph(edges, alloc)?;
    first_unmarked(alloc, &graph, marked)
}

impl Order {
    /// The root alone. Refused only where memory is wanting.
    pub fn new(alloc: Global) -> Result<Order, NoMemory>
        ensures { IfOk result (λ o. (k : ℕ) → IsKept k (replicate k None ∷ []) (false ∷ []) o) }
    {
        let mut steps = Vec::new(alloc);
        steps.push(Step {
            node: 0,
            parent: 0,
            letter: 0,
        })?;
        let mut places = Vec::new(alloc);
        places.push(Some(0))?;
        Ok(Order {
            steps,
            places,
            row: 0,
            letter: 0,
            done: 0,
        })
    }

    /// A node without a place is there. Only want of memory refuses it.
    pub fn add_node(&mut self) -> Result<(), NoMemory>
        ensures places { OnOk result (self.new.places.items ≡ self.old.places.items ++ None ∷ []) }
        ensures steps { self.new.steps.items ≡ self.old.steps.items }
        ensures row { self.new.row ≡ self.old.row }
        ensures letter { self.new.letter ≡ self.old.letter }
        ensures done { self.new.done ≡ self.old.done }
    {
        self.places.push(None)?;
        Ok(())
    }

    // Takes the last node off the order.
    fn pop(&mut self)
        requires some { 1 < length self.old.steps.items }
        requires kept { IsOfGraph self.old }
        ensures kept { (k : ℕ) (g : Graph) (marked : List Bool) → IsKept k g marked self.old
            → IsKept k g marked self.new }
        ensures steps { length self.new.steps.items + 1 ≡ length self.old.steps.items }
        ensures shape { length self.new.places.items ≡ length self.old.places.items }
        ensures places { (n : ℕ) → IsPlaced self.new n → IsPlaced self.old n }
    {
        let Some(step) = self.steps.pop() else {
            return;
        };
        self.places[step.node] = None;
        self.row = step.parent;
        self.letter = step.letter;
        self.done = self.done.min(self.steps.len());
    }

    /// Takes nodes off the end of the order until the node that is lost has no place. It is not the
    /// root.
    pub fn cut(&mut self, lost: usize)
        requires lost { 0 < lost }
        requires kept { IsOfGraph self.old }
        ensures kept { (k : ℕ) (g : Graph) (marked : List Bool) → IsKept k g marked self.old
            → IsKept k g marked self.new }
        ensures places { (n : ℕ) → IsPlaced self.new n → IsPlaced self.old n × (n ≢ lost) }
    {
        if self.places.len() <= lost {
            return;
        }
        while 1 < self.steps.len() {
            if self.places[lost].is_none() {
                return;
            }
            self.pop();
        }
    }

    // The node stands last, if it has no place. Only want of memory refuses it.
    fn found(&mut self, node: usize) -> Result<(), NoMemory>
        requires node { node < length self.old.places.items }
        ensures known { OnOk result (IsPlaced self.old node
            → (self.new.steps.items ≡ self.old.steps.items)
            × (self.new.places.items ≡ self.old.places.items)) }
        ensures new { OnOk result (slice_index_or self.old.places.items node None ≡ None
            → (self.new.steps.items ≡ self.old.steps.items
            ++ record { node = node; parent = self.old.row; letter = self.old.letter } ∷ [])
            × (self.new.places.items ≡ slice_set self.old.places.items node
            (Some (length self.old.steps.items)))) }
        ensures row { OnOk result (self.new.row ≡ self.old.row) }
        ensures letter { OnOk result (self.new.letter ≡ self.old.letter) }
        ensures done { OnOk result (self.new.done ≡ self.old.done) }
    {
        if self.places[node].is_some() {
            return Ok(());
        }
        let place = self.steps.len();
        self.steps.push(Step {
            node,
            parent: self.row,
            letter: self.letter,
        })?;
        self.places[node] = Some(place);
        Ok(())
    }

    // The first letter, from where the walk stands on, whose edge from the node leads to none that
    // has a place.
    fn next_unplaced(&self, edges: &Edges, letters: usize, node: usize) -> usize
        requires few { letters ≤ 256 }
        requires stand { self.now.letter ≤ letters }
        requires nodes { (a m : ℕ) → target_of edges.now.graph node a ≡ Some m
            → m < length self.now.places.items }
        ensures from { self.now.letter ≤ result }
        ensures within { result ≤ letters }
        ensures placed { (a : ℕ) → self.now.letter ≤ a → a < result
            → LeadsToPlaced edges.now.graph self.now node a }
    {
        for number in self.letter..letters {
            let Some(next) = edges.target(node, Letter::new(number as u8)) else {
                return number;
            };
            if self.places[next].is_none() {
                return number;
            }
        }
        letters
    }

    // The walk goes on to the next edge that leads to a node without a place, or to the next row.
    // Only want of memory refuses it.
    fn step(&mut self, edges: &Edges, letters: usize) -> Result<Ahead, NoMemory>
        requires few { letters ≤ 256 }
        requires graph { IsGraph letters edges.now.graph }
        requires kept { (marked : List Bool) × IsKept letters edges.now.graph marked self.old }
        ensures kept { OnOk result ((marked : List Bool)
            → IsKept letters edges.now.graph marked self.old
            → IsKept letters edges.now.graph marked self.new) }
        ensures ahead { IfOk result (IsAhead letters edges.now.graph self.old self.new) }
        ensures same { IfOk result (λ ahead. ahead ≡ Ahead.Whole → self.new ≡ self.old) }
    {
        if self.steps.len() <= self.row {
            return Ok(Ahead::Whole);
        }
        let node = self.steps[self.row].node;
        self.letter = self.next_unplaced(edges, letters, node);
        if letters <= self.letter {
            self.row += 1;
            self.letter = 0;
            return Ok(Ahead::More);
        }
        let letter = Letter::new(self.letter as u8);
        let Some(next) = edges.target(node, letter) else {
            return Ok(Ahead::Missing(node, letter));
        };
        self.found(next)?;
        self.letter += 1;
        Ok(Ahead::More)
    }

    /// The least word without a path, as the node that all but its last letter lead to, and that
    /// letter. `None` exactly where each word has one. Only want of memory refuses it.
    pub fn first_missing(
        &mut self,
        edges: &Edges,
        letters: usize,
    ) -> Result<Option<(usize, Letter)>, NoMemory>
        requires few { letters ≤ 256 }
        requires graph { IsGraph letters edges.now.graph }
        requires kept { (marked : List Bool) × IsKept letters edges.now.graph marked self.old }
        ensures kept { OnOk result ((marked : List Bool)
            → IsKept letters edges.now.graph marked self.old
            → IsKept letters edges.now.graph marked self.new) }
        ensures first { IfOk result (λ found. MatchOption found
            (AllDefined letters (SameEnd edges.now.graph))
            (λ p. IsFirstMissing letters edges.now.graph p.0 p.1)) }
    {
        loop {
            match self.step(edges, letters)? {
                Ahead::More => {}
                Ahead::Missing(node, letter) => return Ok(Some((node, letter))),
                Ahead::Whole => return Ok(None),
            }
        }
    }

    // The first node in the order that has no mark, of those found so far.
    fn unmarked(&mut self, marked: &Vec<bool>) -> Option<usize>
        requires shape { length marked.now.items ≡ length self.old.places.items }
        requires kept { (k : ℕ) × (g : Graph) × IsKept k g marked.now.items self.old }
        ensures kept { (k : ℕ) (g : Graph) → IsKept k g marked.now.items self.old
            → IsKept k g marked.now.items self.new }
        ensures none { IfNone result (self.new.done ≡ length self.new.steps.items) }
        ensures some { IfSome result (λ n. (self.new.done < length self.new.steps.items)
            × (n ≡ (step_at self.new.steps.items self.new.done).node)
            × (IsOn marked.now.items n → ⊥)) }
        ensures same { (self.new.steps.items ≡ self.old.steps.items)
            × (self.new.places.items ≡ self.old.places.items) }
        ensures stands { (self.new.row ≡ self.old.row) × (self.new.letter ≡ self.old.letter) }
    {
        while self.done < self.steps.len() {
            let node = self.steps[self.done].node;
            if marked[node] {
                self.done += 1;
            } else {
                return Some(node);
            }
        }
        None
    }

    /// The node of the least word whose node has no mark. `None` exactly where each has one. Only
    /// want of memory refuses it.
    pub fn first_unmarked(
        &mut self,
        alloc: Global,
        edges: &Edges,
        letters: usize,
        marked: &Vec<bool>,
    ) -> Result<Option<usize>, NoMemory>
        requires few { letters ≤ 256 }
        requires graph { IsGraph letters edges.now.graph }
        requires shape { length marked.now.items ≡ length edges.now.graph }
        requires kept { IsKept letters edges.now.graph marked.now.items self.old }
        ensures kept { OnOk result (IsKept letters edges.now.graph marked.now.items self.new) }
        ensures first { IfOk result (λ found. MatchOption found
            (AllMarked edges.now.graph marked.now.items)
            (IsFirstUnmarked edges.now.graph marked.now.items)) }
    {
        loop {
            if let Some(node) = self.unmarked(marked) {
                return Ok(Some(node));
            }
            match self.step(edges, letters)? {
                Ahead::More => {}
                Ahead::Missing(..) => return unprocessed(alloc, edges, marked),
                Ahead::Whole => return Ok(None),
            }
        }
    }
}
