// Complete word graphs as tables: their order and their targets.
ghost use Rattle.std.specs.Prelude.{◌≡◌, ℕ, ◌*◌, ◌<◌, ◌≤◌, List, length, All, IfOk};
ghost use Rattle.std.specs.Ordering.{nat_cmp};
ghost use Rattle.std.specs.Cmp.Lexicographic.{slice_cmp};
ghost use Rattle.theory.specs.LowIndex.{Rows, graph_of, entries};
ghost use Rattle.word_graph.specs.Table.{targets_of, cut, HasWidth};

use crate::graphs::{MOST_LETTERS, WordGraph};
use crate::rows::{compare, push_edges, push_targets};
use cells::NUMBERS_AT_MOST;
use ports::NoMemory;
use std::alloc::Global;
use std::cmp::Ordering;

impl WordGraph {
    /// The order of complete graphs of one number of letters, at least one: that of dictionaries,
    /// of their targets written row after row.
    pub fn compare(&self, other: &WordGraph) -> Ordering
        ensures { (k : ℕ) (s t : Rows) → 0 < k → HasWidth k s → HasWidth k t → self.now ≡ graph_of s
            → other.now ≡ graph_of t → result ≡ slice_cmp nat_cmp (entries s) (entries t) }
    {
        compare(self.rows().entries(), other.rows().entries())
    }

    /// The nodes that edges lead to, row after row, letter by letter. Refused only where memory is
    /// wanting.
    pub fn targets(&self, alloc: Global) -> Result<Vec<usize>, NoMemory>
        ensures { IfOk result (λ targets. targets.items ≡ targets_of self.now) }
    {
        let entries = self.rows().entries();
        let mut targets = Vec::with_capacity(alloc, entries.len())?;
        push_targets(&mut targets, entries)?;
        Ok(targets)
    }

    /// The complete graph of so many nodes whose edges lead to these nodes, row after row, letter
    /// by letter. Refused only where memory is wanting.
    pub fn of_targets(
        alloc: Global,
        letters: usize,
        nodes: usize,
        targets: &[usize],
    ) -> Result<WordGraph, NoMemory>
        requires few { letters ≤ MOST_LETTERS }
        requires rooted { 0 < nodes }
        requires full { length targets.now ≡ nodes * letters }
        requires nodes { All (λ m. m < nodes) targets.now }
        ensures { IfOk result (λ g. g ≡ graph_of (cut letters nodes targets.now)) }
    {
        if NUMBERS_AT_MOST < nodes {
            return Err(NoMemory);
        }
        let mut entries = Vec::with_capacity(alloc, targets.len())?;
        push_edges(&mut entries, targets)?;
        Ok(WordGraph::of_entries(nodes, letters, entries))
    }
}
