// Tables of two-sided congruences.
ghost use Rattle.std.specs.Prelude.{◌≡◌, ℕ, ◌<◌, ◌↔◌, length, slice_index_or, Option, None, option_and_then, IfOk, IsTrue};
ghost use Rattle.theory.specs.Graph.{target as target_of, IsGraph, IsCompleteTable};
ghost use Rattle.theory.specs.TwoSidedTable.{IsTwoSidedTable};
ghost use Rattle.word_graph.specs.Steps.{IsWalkedTo};
ghost use Rattle.word_graph.specs.TwoSided.{AreImages, KeepsRow, KeepsEdges, word_of, AgreesBehind};

use crate::graphs::WordGraph;
use crate::rows::renumber;
use crate::walks::{Walk, no_places};
use ports::NoMemory;
use std::alloc::Global;
use words::Letter;

impl Walk {
    // For each node, where the word by which it was found leads with the letter in front.
    fn images(
        &self,
        alloc: Global,
        graph: &WordGraph,
        first: Letter,
    ) -> Result<Vec<Option<usize>>, NoMemory>
        requires walk { (k : ℕ) → IsGraph k graph.now
            → IsWalkedTo k graph.now self.now.steps.items self.now.places.items
            (length self.now.steps.items) 0 }
        ensures images { IfOk result (λ v. (k : ℕ) (walk : IsWalkedTo k graph.now
            self.now.steps.items self.now.places.items (length self.now.steps.items) 0)
            → AreImages graph.now self.now.steps.items walk.word first v.items) }
        ensures shape { IfOk result (λ v. length v.items ≡ length graph.now) }
    {
        let _letters = graph.letters();
        let mut images = no_places(alloc, graph.nodes())?;
        images[0] = graph.target(0, first);
        for place in 1..self.steps.len() {
            let step = self.steps[place];
            let parent = self.steps[step.parent].node;
            images[step.node] = graph.further(images[parent], step.letter);
        }
        Ok(images)
    }
}

impl WordGraph {
    // Where the edge of the letter leads from the node, if there is one.
    fn further(&self, from: Option<usize>, letter: Letter) -> Option<usize>
        ensures { result ≡ option_and_then (λ node. target_of self.now node letter) from }
    {
        self.target(from?, letter)
    }

    // Whether each letter leads from the image of the node to the image of the node's target.
    fn keeps_row(&self, images: &[Option<usize>], node: usize) -> bool
        requires { node < length images.now }
        ensures { (k : ℕ) → IsGraph k self.now
            → IsTrue result ↔ KeepsRow k self.now images.now node }
    {
        let letters = self.letters();
        for number in 0..letters {
            let letter = Letter::new(number as u8);
            let image = renumber(images, self.target(node, letter));
            if self.further(images[node], letter) != image {
                return false;
            }
        }
        true
    }

    // The same for each node.
    fn keeps_edges(&self, images: &[Option<usize>]) -> bool
        requires { length images.now ≡ length self.now }
        ensures { (k : ℕ) → IsGraph k self.now
            → IsTrue result ↔ KeepsEdges k self.now images.now }
    {
        for node in 0..self.nodes() {
            if !self.keeps_row(images, node) {
                return false;
            }
        }
        true
    }

    // Whether words that lead to one node still do so with the letter in front, tried at the edges.
    fn keeps_in_front(&self, alloc: Global, walk: &Walk, first: Letter) -> Result<bool, NoMemory>
        requires walk { (k : ℕ) → IsGraph k self.now
            → IsWalkedTo k self.now walk.now.steps.items walk.now.places.items
            (length walk.now.steps.items) 0 }
        ensures { IfOk result (λ answer. (k : ℕ) (over : IsWalkedTo k self.now
            walk.now.steps.items walk.now.places.items (length walk.now.steps.items) 0)
            → IsCompleteTable k self.now
            → IsTrue answer ↔ AgreesBehind k self.now
            (word_of walk.now.places.items over.word) first) }
    {
        let images = walk.images(alloc, self, first)?;
        Ok(self.keeps_edges(images.as_slice()))
    }

    /// Whether a table is that of a two-sided congruence: any two words that lead from the root to
    /// one node lead from every node to one node (Sims 1994, ch. 5; libsemigroups, `Sims2`).
    ///
    /// It takes time in letters times edges, and memory in nodes: for each letter it maps the nodes
    /// so that the root goes where the letter leads, along the edges by which they were found, and
    /// then tries all edges. Refused only where memory is wanting.
    pub fn is_two_sided(&self, alloc: Global) -> Result<bool, NoMemory>
        requires { (k : ℕ) → IsGraph k self.now → IsCompleteTable k self.now }
        ensures { IfOk result (λ answer. IsTrue answer ↔ IsTwoSidedTable self.now) }
    {
        let letters = self.letters();
        let walk = Walk::over(alloc, self)?;
        for number in 0..letters {
            if !self.keeps_in_front(alloc, &walk, Letter::new(number as u8))? {
                return Ok(false);
            }
        }
        Ok(true)
    }
}
