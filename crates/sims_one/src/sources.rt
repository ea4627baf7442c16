// From where known edges come.
ghost use Rattle.std.specs.Prelude.{◌<◌, IfSome};
ghost use Rattle.sims_one.specs.Edges.{IsEdge};

use crate::paths::MOST_NODES;
use crate::trail::Edge;
use ports::NoMemory;
use std::alloc::Global;

/// A set of nodes, a bit for each.
#[derive(Clone, Copy)]
pub struct NodeSet {
    bits: u32,
}

impl NodeSet {
    // Puts the node in.
    fn insert(&mut self, node: usize)
        requires { node < MOST_NODES }
    {
        self.bits |= 1 << node;
    }

    // Takes the node out.
    fn remove(&mut self, node: usize)
        requires { node < MOST_NODES }
    {
        self.bits &= !(1 << node);
    }

    /// No node.
    pub fn empty() -> NodeSet {
        NodeSet { bits: 0 }
    }

    /// The node that it has, where it has one alone.
    pub fn only(&self) -> Option<usize> {
        if self.bits == 0 || self.bits & (self.bits - 1) != 0 {
            return None;
        }
        Some(self.bits.trailing_zeros() as usize)
    }

    /// Takes the least node out.
    pub fn pop(&mut self) -> Option<usize>
        ensures { IfSome result (λ _. self.new.bits < self.old.bits) }
    {
        if self.bits == 0 {
            return None;
        }
        let least = self.bits.trailing_zeros();
        self.bits &= self.bits - 1;
        Some(least as usize)
    }
}

/// For each node and letter, the nodes from which known edges of the letter lead to the node. They
/// say where to read, and no contract says which they are.
#[derive(Drop)]
pub struct Sources {
    letters: usize,
    sets: Vec<NodeSet>,
}

impl Sources {
    /// No edge is known, in tables of so many letters. Refused only where memory is wanting.
    pub fn new(alloc: Global, letters: usize) -> Result<Sources, NoMemory> {
        let count = MOST_NODES.saturating_mul(letters);
        let sets = vec![in alloc; NodeSet::empty(); count]?;
        Ok(Sources { letters, sets })
    }

    // The place of the set of the letter at the node.
    fn place(&self, node: usize, letter: usize) -> usize {
        node.wrapping_mul(self.letters).wrapping_add(letter)
    }

    /// From where edges of the letter lead to the node.
    pub fn of(&self, node: usize, letter: usize) -> NodeSet {
        let place = self.place(node, letter);
        if place < self.sets.len() {
            self.sets[place]
        } else {
            NodeSet::empty()
        }
    }

    /// The edge leads to the target from now on.
    pub fn add(&mut self, edge: Edge, target: usize)
        requires { IsEdge edge }
    {
        let place = self.place(target, edge.letter);
        if place < self.sets.len() {
            self.sets[place].insert(edge.node);
        }
    }

    /// The edge does not lead to the target any more.
    pub fn remove(&mut self, edge: Edge, target: usize)
        requires { IsEdge edge }
    {
        let place = self.place(target, edge.letter);
        if place < self.sets.len() {
            self.sets[place].remove(edge.node);
        }
    }
}
