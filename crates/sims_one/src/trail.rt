// Edges in the order in which they became known.
ghost use Rattle.std.specs.Prelude.{◌≡◌, ◌+◌, ◌*◌, ◌<◌, ◌≤◌, ◌++◌, ◌∷◌, [], length, option_to_list, IfNone, IfSome, OnOk};
ghost use Rattle.sims_one.specs.Edges.{IsEdge};

use crate::paths::MOST_NODES;
use ports::NoMemory;
use std::alloc::Global;
use std::marker::Model;

/// The most letters.
pub const MOST_LETTERS: usize = 53;

/// The most edges of a table: so many for each node.
pub const MOST_EDGES: usize = 901;

/// An edge: the node that it leaves, the number of its letter, and the place of its target.
#[derive(Clone, Copy)]
pub struct Edge {
    /// The node.
    pub node: usize,
    /// The number of the letter.
    pub letter: usize,
    /// The place.
    pub place: usize,
}

impl Edge {
    /// The edge of the letter at the node, in tables of so many letters.
    pub fn new(letters: usize, node: usize, letter: usize) -> Edge
        requires letters { letters ≤ MOST_LETTERS }
        requires node { node < MOST_NODES }
        requires letter { letter < letters }
        ensures edge { IsEdge result }
        ensures place { result.place ≡ node * letters + letter }
    {
        Edge {
            node,
            letter,
            place: node * letters + letter,
        }
    }

    /// The edge whose target is at the place, in tables of so many letters.
    pub fn at(letters: usize, place: usize) -> Edge
        requires letters { letters ≤ MOST_LETTERS }
        requires place { place < letters * MOST_NODES }
        ensures edge { IsEdge result }
        ensures place { result.place ≡ place }
    {
        Edge {
            node: place / letters,
            letter: place % letters,
            place,
        }
    }
}

/// Edges of a table, in order.
#[derive(Drop)]
pub struct Trail {
    edges: Vec<Edge>,
}

impl Model for Trail {
    ghost use Rattle.std.specs.Prelude.{List, All};
    ghost use Rattle.sims_one.specs.declared.trail.Edge.{Edge};
    ghost use Rattle.sims_one.specs.Edges.{IsEdge};

    ghost Value = { List Edge };

    ghost view = { λ t. t.edges.items };

    ghost invariant = { λ t. All IsEdge t.edges.items };
}

impl Trail {
    /// No edge.
    pub fn new(alloc: Global) -> Trail
        ensures { result ≡ [] }
    {
        Trail {
            edges: Vec::new(alloc),
        }
    }

    /// How many edges there are.
    pub fn len(&self) -> usize
        ensures { result ≡ length self.now }
    {
        self.edges.len()
    }

    /// The edge of this number, if there is one.
    pub fn edge(&self, number: usize) -> Option<Edge>
        ensures { IfSome result IsEdge }
    {
        if number < self.edges.len() {
            Some(self.edges[number])
        } else {
            None
        }
    }

    /// Puts the edge behind the others. Refused only where memory is wanting.
    pub fn push(&mut self, edge: Edge) -> Result<(), NoMemory>
        requires { IsEdge edge }
        ensures { OnOk result (self.new ≡ self.old ++ edge ∷ []) }
    {
        self.edges.push(edge)?;
        Ok(())
    }

    /// Takes the last edge away.
    pub fn pop(&mut self) -> Option<Edge>
        ensures trail { self.old ≡ self.new ++ option_to_list result }
        ensures edge { IfSome result IsEdge }
        ensures none { IfNone result (length self.old ≡ 0) }
    {
        self.edges.pop()
    }
}
