// Word graphs, their nodes and edges.
ghost use Rattle.std.specs.Prelude.{◌≡◌, ◌≢◌, ℕ, ◌*◌, ◌<◌, ◌≤◌, ◌↔◌, List, [], ◌∷◌, ◌++◌, length, replicate, take, Option, None, Some, slice_get, slice_set, slice_index_or, unwrap_or, IfOk, MatchOption, OnErr, IfSome, IfNone, IsTrue};
ghost use Rattle.theory.specs.Graph.{target as target_of, path as path_of, IsGraph, IsComplete, SameEnd, Shows};
ghost use Rattle.theory.specs.Facts.{AllDefined};
ghost use Rattle.cells.specs.Rows.{rows_of};
ghost use Rattle.word_graph.specs.Edges.{with_edge, with_node};
ghost use Rattle.theory.specs.LowIndex.{Rows, graph_of, IsNumberedFrom, IsStandard};
ghost use Rattle.word_graph.specs.Numbered.{max_from, seen_at};
ghost use Rattle.word_graph.specs.Standard.{IsStandardGraph};

use crate::rows::push_renumbered;
use crate::walks::Walk;
use cells::{Cells, Entry, NUMBERS_AT_MOST};
use ports::NoMemory;
use std::alloc::Global;
use std::marker::Model;
use words::{Letter, Word};

/// The most letters of a word graph: as many as there are [`Letter`]s.
pub const MOST_LETTERS: usize = 256;

/// A rooted word graph, complete or not: nodes 0, 1, .. with root 0, and for each node and letter
/// at most one edge (libsemigroups, `WordGraph`). It has at least one node and at most
/// [`MOST_LETTERS`] letters.
#[derive(Drop)]
pub struct WordGraph {
    letters: usize,
    rows: Cells,
}

impl Model for WordGraph {
    ghost use Rattle.std.specs.Prelude.{◌≤◌};
    ghost use Rattle.theory.specs.Graph.{Graph, IsGraph};

    ghost Value = { Graph };

    ghost view = { λ g. g.rows };

    ghost invariant = { λ g. record {
      graph : IsGraph g.letters g.rows;
      few : g.letters ≤ 256;
    } };
}

// The greatest node seen after an entry, unless it is more than one greater than all before.
fn seen_at(target: Option<usize>, seen: usize) -> Option<usize>
    ensures { result ≡ seen_at target seen }
{
    match target {
        None => Some(seen),
        Some(node) => {
            if seen.saturating_add(1) < node {
                return None;
            }
            Some(seen.max(node))
        }
    }
}

impl WordGraph {
    /// So many nodes, the root among them, and no edge. Refused only where memory is wanting.
    pub fn new(alloc: Global, letters: usize, nodes: usize) -> Result<WordGraph, NoMemory>
        requires letters { letters ≤ MOST_LETTERS }
        requires nodes { 0 < nodes }
        ensures { IfOk result (λ g. g ≡ replicate nodes (replicate letters None)) }
    {
        let rows = Cells::of(alloc, nodes, letters)?;
        Ok(WordGraph { letters, rows })
    }

    /// The graph whose rows stand one behind another in these entries.
    pub fn of_entries(nodes: usize, letters: usize, entries: Vec<Entry>) -> WordGraph
        requires few { letters ≤ MOST_LETTERS }
        requires room { nodes ≤ NUMBERS_AT_MOST }
        requires whole { length entries.items ≡ nodes * letters }
        requires graph { IsGraph letters (rows_of letters nodes entries.items) }
        ensures { result ≡ rows_of letters nodes entries.items }
    {
        let rows = Cells::of_entries(nodes, letters, entries);
        WordGraph { letters, rows }
    }

    /// The rows: for each node and letter, where the edge leads.
    pub fn rows(&self) -> &Cells
        ensures { result.now ≡ self.now }
    {
        let _letters = &self.letters;
        &self.rows
    }

    /// How many nodes there are: at least one.
    pub fn nodes(&self) -> usize
        ensures nodes { result ≡ length self.now }
        ensures rooted { 0 < result }
    {
        let _letters = &self.letters;
        self.rows.nodes()
    }

    /// How many letters there are. What holds of every word graph is told here: each row has as
    /// many entries, and each edge leads to a node.
    pub fn letters(&self) -> usize
        ensures graph { IsGraph result self.now }
        ensures few { result ≤ MOST_LETTERS }
    {
        self.letters
    }

    /// Where the edge of the letter leads from the node. `None` exactly where there is no such
    /// edge.
    pub fn target(&self, node: usize, letter: Letter) -> Option<usize>
        ensures { result ≡ target_of self.now node letter }
    {
        self.rows.get(node, letter)
    }

    /// Where the word leads from the node. `None` exactly where an edge is missing on the way.
    pub fn path(&self, node: usize, word: &Word) -> Option<usize>
        ensures { result ≡ path_of self.now node word.now }
    {
        self.prefix_path(node, word, word.len())
    }

    /// Where the first `count` letters of the word lead from the node. `None` exactly where an edge
    /// is missing on the way.
    pub fn prefix_path(&self, node: usize, word: &Word, count: usize) -> Option<usize>
        requires { count ≤ length word.now }
        ensures { result ≡ path_of self.now node (take count word.now) }
    {
        let mut at = node;
        for i in 0..count {
            match self.target(at, word.letter(i)) {
                None => return None,
                Some(next) => at = next,
            }
        }
        Some(at)
    }

    /// Whether both words lead from each node to one node, or from it to none (Sims 1994, ch. 5:
    /// the graph is compatible with the relation).
    pub fn meets_relation(&self, left: &Word, right: &Word) -> bool
        ensures { IsTrue result ↔ ((node : ℕ) → node < length self.now
            → path_of self.now node left.now ≡ path_of self.now node right.now) }
    {
        for node in 0..self.rows.nodes() {
            if self.path(node, left) != self.path(node, right) {
                return false;
            }
        }
        true
    }

    /// Adds a node without edges, and tells its number. Refused only where memory is wanting, and
    /// then the graph stays as it was.
    pub fn add_node(&mut self) -> Result<usize, NoMemory>
        ensures ok { IfOk result (λ node. (node ≡ length self.old)
            × ((k : ℕ) → IsGraph k self.old → self.new ≡ with_node k self.old)) }
        ensures err { OnErr result (self.new ≡ self.old) }
    {
        let node = self.rows.nodes();
        self.rows.add_row()?;
        Ok(node)
    }

    /// Makes the edge of the letter lead from the one node to the other, in the place of the edge
    /// that was there.
    pub fn set_target(&mut self, node: usize, letter: Letter, to: usize)
        requires node { node < length self.old }
        requires letter { letter < length (slice_index_or self.old node []) }
        requires to { to < length self.old }
        ensures { self.new ≡ with_edge self.old node letter to }
    {
        let _letters = &self.letters;
        self.rows.put(node, letter, Some(to));
    }

    /// The least letter without an edge at the node. `None` exactly where the node has every edge.
    pub fn missing_letter(&self, node: usize) -> Option<Letter>
        ensures some { IfSome result (λ a. (k : ℕ) → IsGraph k self.now
            → (a < k) × (target_of self.now node a ≡ None)) }
        ensures least { IfSome result (λ a. (b : ℕ) → b < a → target_of self.now node b ≢ None) }
        ensures none { IfNone result ((k b : ℕ) → IsGraph k self.now → b < k
            → target_of self.now node b ≢ None) }
    {
        for number in 0..self.letters {
            let letter = Letter::new(number as u8);
            if self.target(node, letter).is_none() {
                return Some(letter);
            }
        }
        None
    }

    /// Whether each node has an edge for each letter.
    pub fn is_complete(&self) -> bool
        ensures { (k : ℕ) → IsGraph k self.now → IsTrue result ↔ IsComplete k self.now }
    {
        let _letters = &self.letters;
        for node in 0..self.rows.nodes() {
            if self.missing_letter(node).is_some() {
                return false;
            }
        }
        true
    }

    /// Whether the graph is standard: complete, and its nodes numbered by first appearance when the
    /// rows are read in order (Sims 1994, 4.7; libsemigroups, `is_standardized`).
    pub fn is_standard(&self) -> bool
        ensures { (k : ℕ) → IsGraph k self.now → IsTrue result ↔ IsStandardGraph k self.now }
    {
        self.is_complete() && self.is_numbered()
    }

    // Whether the nodes of a complete graph are numbered by first appearance.
    fn is_numbered(&self) -> bool
        ensures { (k : ℕ) (rows : Rows) → IsGraph k self.now → self.now ≡ graph_of rows
            → IsTrue result ↔ IsStandard k rows }
    {
        let _letters = &self.letters;
        let mut seen = 0;
        for node in 0..self.rows.nodes() {
            if seen < node {
                return false;
            }
            match self.seen_in(node, seen) {
                None => return false,
                Some(next) => seen = next,
            }
        }
        true
    }

    // The greatest node seen after the row of a node; none where an entry is more than one greater
    // than all before.
    fn seen_in(&self, node: usize, seen: usize) -> Option<usize>
        ensures { (rows : Rows) → self.now ≡ graph_of rows
            → MatchOption result (IsNumberedFrom seen (slice_index_or rows node []) → ⊥)
            (λ next. IsNumberedFrom seen (slice_index_or rows node [])
            × (next ≡ max_from seen (slice_index_or rows node []))) }
    {
        let letters = self.letters();
        let mut greatest = seen;
        for number in 0..letters {
            let target = self.target(node, Letter::new(number as u8));
            greatest = seen_at(target, greatest)?;
        }
        Some(greatest)
    }

    /// The same graph in memory of its own. Refused only where memory is wanting.
    pub fn copy(&self, alloc: Global) -> Result<WordGraph, NoMemory>
        ensures { IfOk result (λ g. g ≡ self.now) }
    {
        let rows = self.rows.copy(alloc)?;
        Ok(WordGraph {
            letters: self.letters,
            rows,
        })
    }

    /// The part of the graph that is reached from the root, its nodes numbered by first appearance
    /// when the rows are read in order (Sims 1994, 4.7; libsemigroups, `standardize`): each of its
    /// nodes is reached, and its equal paths are those of this graph. It is standard where this
    /// graph is complete, or has a path for each word. Refused only where memory is wanting.
    pub fn standardise(&self, alloc: Global) -> Result<WordGraph, NoMemory>
        ensures shows { IfOk result (λ g. Shows g (SameEnd self.now)) }
        ensures graph { IfOk result (λ g. (k : ℕ) → IsGraph k self.now → IsGraph k g) }
        ensures standard { IfOk result (λ g. (k : ℕ) → IsGraph k self.now
            → AllDefined k (SameEnd self.now) → IsStandardGraph k g) }
    {
        let letters = self.rows.letters();
        let Walk { steps, places } = Walk::over(alloc, self)?;
        let mut entries = Vec::new(alloc);
        for step in &steps {
            push_renumbered(&mut entries, self.rows.row(step.node), places.as_slice())?;
        }
        Ok(WordGraph::of_entries(steps.len(), letters, entries))
    }
}
