// Edges that each table behind a front part has.
ghost use Rattle.std.specs.Prelude.{◌≡◌, ℕ, ◌+◌, ◌*◌, ◌<◌, ◌≤◌, ◌++◌, ◌∷◌, [], List, length, take, drop, replicate, slice_get, slice_index_or, slice_set, None, Some, IfOk, IfSome, OnOk};
ghost use Rattle.theory.specs.Word.{IsOver};
ghost use Rattle.sims_one.specs.Targets.{path_in};
ghost use Rattle.sims_one.specs.Edges.{IsEdge, without};
ghost use Rattle.sims_one.specs.Known.{HasEdges};

use crate::paths::MOST_NODES;
use crate::sources::{NodeSet, Sources};
use crate::trail::{Edge, MOST_EDGES, Trail};
use ports::NoMemory;
use std::alloc::Global;
use std::marker::Model;
use words::Word;

// Stands for a target that is not known.
const UNKNOWN: u8 = 17;

// A node or none for each place.
#[derive(Drop)]
struct Targets {
    codes: [u8; MOST_EDGES],
}

impl Model for Targets {
    ghost use Rattle.std.specs.Prelude.{◌≡◌, ℕ, List, Option, map};
    ghost use Rattle.sims_one.specs.Codes.{node_of, code_of};

    ghost Value = { List (Option ℕ) };

    ghost view = { λ t. map node_of t.codes };

    ghost invariant = { λ t. map code_of (map node_of t.codes) ≡ t.codes };

    ghost inverse = { λ targets. record { codes = map code_of targets } };

    ghost inverse_ok = { λ t h i. record { codes = h i } };
}

impl Targets {
    // None at each place.
    fn none() -> Targets
        ensures { result ≡ replicate MOST_EDGES None }
    {
        Targets {
            codes: [UNKNOWN; MOST_EDGES],
        }
    }

    // The node at the place, if there is one.
    fn get(&self, place: usize) -> Option<usize>
        requires { place < MOST_EDGES }
        ensures node { result ≡ slice_index_or self.now place None }
        ensures small { IfSome result (λ m. m < MOST_NODES) }
    {
        let code = self.codes[place];
        if code < UNKNOWN {
            Some(usize::from(code))
        } else {
            None
        }
    }

    // Puts a node at the place.
    fn put(&mut self, place: usize, node: usize)
        requires place { place < MOST_EDGES }
        requires node { node < MOST_NODES }
        ensures { self.new ≡ slice_set self.old place (Some node) }
    {
        self.codes[place] = node as u8;
    }

    // Puts none at the place.
    fn clear(&mut self, place: usize)
        requires { place < MOST_EDGES }
        ensures { self.new ≡ slice_set self.old place None }
    {
        self.codes[place] = UNKNOWN;
    }
}

/// The nodes seen and the edges known of all tables behind a front part: those of the front part,
/// and those that follow from them by relations.
#[derive(Drop)]
pub struct Known {
    /// How many nodes have been seen.
    pub nodes: usize,
    targets: Targets,
    sources: Sources,
    trail: Trail,
}

/// How much is known: so many nodes, and so many edges.
#[derive(Clone, Copy)]
pub struct Mark {
    /// How many nodes.
    pub nodes: usize,
    /// How many edges.
    pub edges: usize,
}

/// Where the known edges end on the path of a word.
#[derive(Clone, Copy)]
pub struct End {
    /// How many letters have been read.
    pub length: usize,
    /// The node that they lead to.
    pub node: usize,
}

/// How far back a way goes.
#[derive(Clone, Copy)]
pub struct Back {
    /// How many letters are left.
    pub length: usize,
    /// The node at which it ends.
    pub node: usize,
    /// The nodes from which the next edges lead there: none or several.
    pub starts: NodeSet,
}

impl Known {
    /// The root alone, and no edge, in tables of so many letters. Refused only where memory is
    /// wanting.
    pub fn new(alloc: Global, letters: usize) -> Result<Known, NoMemory>
        ensures nodes { IfOk result (λ known. known.nodes ≡ 1) }
        ensures edges { IfOk result (λ known. (u : List ℕ) → HasEdges known.targets u) }
    {
        let sources = Sources::new(alloc, letters)?;
        Ok(Known {
            nodes: 1,
            targets: Targets::none(),
            sources,
            trail: Trail::new(alloc),
        })
    }

    /// The target at a place, where it is known.
    pub fn target(&self, place: usize) -> Option<usize>
        requires { place < MOST_EDGES }
        ensures target { result ≡ slice_index_or self.now.targets place None }
        ensures small { IfSome result (λ m. m < MOST_NODES) }
    {
        self.targets.get(place)
    }

    /// How much is known.
    pub fn mark(&self) -> Mark
        ensures nodes { result.nodes ≡ self.now.nodes }
        ensures edges { result.edges ≡ length self.now.trail }
    {
        Mark {
            nodes: self.nodes,
            edges: self.trail.len(),
        }
    }

    /// The edge that became known after so many others.
    pub fn edge(&self, number: usize) -> Option<Edge>
        ensures { IfSome result IsEdge }
    {
        self.trail.edge(number)
    }

    /// The edge, which is not known yet, leads to the target from now on. Refused only where memory
    /// is wanting.
    pub fn learn(&mut self, edge: Edge, target: usize) -> Result<(), NoMemory>
        requires edge { IsEdge edge }
        requires target { target < MOST_NODES }
        ensures nodes { self.new.nodes ≡ self.old.nodes }
        ensures targets { OnOk result (self.new.targets
            ≡ slice_set self.old.targets edge.place (Some target)) }
        ensures trail { OnOk result (self.new.trail ≡ self.old.trail ++ edge ∷ []) }
    {
        self.trail.push(edge)?;
        self.targets.put(edge.place, target);
        self.sources.add(edge, target);
        Ok(())
    }

    // The edge is not known any more.
    fn forget_edge(&mut self, edge: Edge)
        requires { IsEdge edge }
        ensures nodes { self.new.nodes ≡ self.old.nodes }
        ensures targets { self.new.targets ≡ slice_set self.old.targets edge.place None }
        ensures trail { self.new.trail ≡ self.old.trail }
    {
        if let Some(target) = self.targets.get(edge.place) {
            self.sources.remove(edge, target);
        }
        self.targets.clear(edge.place);
    }

    // The edges that became known after so many others are not known any more.
    fn forget_edges(&mut self, count: usize)
        ensures nodes { self.new.nodes ≡ self.old.nodes }
        ensures targets { self.new.targets
            ≡ without self.old.targets (drop count self.old.trail) }
        ensures trail { self.new.trail ≡ take count self.old.trail }
    {
        while self.trail.len() > count {
            let Some(edge) = self.trail.pop() else {
                return;
            };
            self.forget_edge(edge);
        }
    }

    /// What became known after the mark is not known any more.
    pub fn forget(&mut self, mark: Mark)
        ensures nodes { self.new.nodes ≡ mark.nodes }
        ensures targets { self.new.targets
            ≡ without self.old.targets (drop mark.edges self.old.trail) }
        ensures trail { self.new.trail ≡ take mark.edges self.old.trail }
    {
        self.nodes = mark.nodes;
        self.forget_edges(mark.edges);
    }

    /// How far the word leads from the node by known edges.
    pub fn follow(&self, letters: usize, node: usize, word: &Word) -> End
        requires node { node < MOST_NODES }
        requires letters { letters ≤ 53 }
        requires word { IsOver letters word.now }
        ensures length { result.length ≤ length word.now }
        ensures node { result.node < MOST_NODES }
        ensures path { (u : List ℕ) → HasEdges self.now.targets u
            → path_in letters u node (take result.length word.now) ≡ Some result.node }
        ensures stopped { (letter : ℕ) → slice_get word.now result.length ≡ Some letter
            → slice_index_or self.now.targets (result.node * letters + letter) None ≡ None }
    {
        let mut at = node;
        for i in 0..word.len() {
            match self.target(at * letters + word.letter(i).number()) {
                None => return End {
                    length: i,
                    node: at,
                },
                Some(next) => at = next,
            }
        }
        End {
            length: word.len(),
            node: at,
        }
    }

    /// How far known edges lead along the letters of the word from this one on, behind others that
    /// lead to the end. Their number is told for speed alone.
    pub fn go_on(&self, letters: usize, end: End, word: &Word, first: usize) -> End
        requires node { end.node < MOST_NODES }
        requires letters { letters ≤ 53 }
        requires word { IsOver letters word.now }
        ensures { result.node < MOST_NODES }
    {
        let mut at = end.node;
        for i in first..word.len() {
            match self.target(at * letters + word.letter(i).number()) {
                None => return End {
                    length: end.length.saturating_add(i.saturating_sub(first)),
                    node: at,
                },
                Some(next) => at = next,
            }
        }
        End {
            length: end.length.saturating_add(word.len().saturating_sub(first)),
            node: at,
        }
    }

    /// How far back so many first letters of the word lead to the node, as long as one known edge
    /// alone leads on. The node and the nodes before it are told for speed alone.
    pub fn go_back(&self, word: &Word, count: usize, node: usize) -> Back
        requires { count ≤ length word.now }
        ensures { result.length ≤ count }
    {
        let mut at = node;
        let mut length = count;
        while 0 < length {
            let starts = self.sources.of(at, word.letter(length - 1).number());
            let Some(start) = starts.only() else {
                return Back {
                    length,
                    node: at,
                    starts,
                };
            };
            at = start;
            length -= 1;
        }
        Back {
            length,
            node: at,
            starts: NodeSet::empty(),
        }
    }
}
