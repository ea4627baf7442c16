// Walks over the nodes level by level, in the order of words that are read backwards.
ghost use Rattle.std.specs.Prelude.{◌≡◌, ℕ, ◌+◌, ◌<◌, ◌≤◌, length, IfOk, OnOk};
ghost use Rattle.theory.specs.Graph.{IsGraph};
ghost use Rattle.word_graph.specs.Levels.{frontier_at, IsLevelledTo, IsLevelledBefore};
ghost use Rattle.word_graph.specs.Backwards.{AreAllReached, AreLeastBackwards};

use crate::graphs::WordGraph;
use crate::walks::Walk;
use ports::NoMemory;
use std::alloc::Global;
use words::{Letter, Word};

impl Walk {
    // Follows the edge of the letter from each node of a level.
    fn follow_letter(
        &mut self,
        graph: &WordGraph,
        from: usize,
        to: usize,
        letter: Letter,
    ) -> Result<(), NoMemory>
        requires level { from ≤ to }
        requires within { to ≤ length self.old.steps.items }
        requires places { length self.old.places.items ≡ length graph.now }
        ensures walk { OnOk result ((k : ℕ) → IsGraph k graph.now → letter < k
            → IsLevelledTo k graph.now self.old.steps.items self.old.places.items
            (frontier_at from to letter from)
            → IsLevelledTo k graph.now self.new.steps.items self.new.places.items
            (frontier_at from to (letter + 1) from)) }
        ensures steps { length self.old.steps.items ≤ length self.new.steps.items }
        ensures places { length self.new.places.items ≡ length self.old.places.items }
    {
        for place in from..to {
            self.follow(graph, place, letter)?;
        }
        Ok(())
    }

    // Follows each edge from the nodes of a level, which are the last that were found.
    fn follow_level(&mut self, graph: &WordGraph, from: usize, to: usize) -> Result<(), NoMemory>
        requires level { from ≤ to }
        requires last { to ≡ length self.old.steps.items }
        requires places { length self.old.places.items ≡ length graph.now }
        ensures walk { OnOk result ((k : ℕ) → IsGraph k graph.now
            → IsLevelledBefore k graph.now self.old.steps.items self.old.places.items from
            → IsLevelledBefore k graph.now self.new.steps.items self.new.places.items to) }
        ensures steps { to ≤ length self.new.steps.items }
        ensures places { length self.new.places.items ≡ length self.old.places.items }
    {
        let letters = graph.letters();
        for number in 0..letters {
            self.follow_letter(graph, from, to, Letter::new(number as u8))?;
        }
        Ok(())
    }

    // Finds all nodes that are reached, by their least words that are read backwards.
    fn by_levels(alloc: Global, graph: &WordGraph) -> Result<Walk, NoMemory>
        ensures { IfOk result (λ w. (k : ℕ) → IsGraph k graph.now
            → IsLevelledBefore k graph.now w.steps.items w.places.items (length w.steps.items)) }
    {
        let _letters = graph.letters();
        let mut walk = Walk::at_root(alloc, graph.nodes())?;
        let mut from = 0;
        while from < walk.steps.len() {
            let to = walk.steps.len();
            walk.follow_level(graph, from, to)?;
            from = to;
        }
        Ok(walk)
    }
}

impl WordGraph {
    /// For each node, in ascending order, the least word in short-lex order that, read backwards,
    /// leads to it from the root. Refused only where memory is wanting.
    pub fn least_reversed(&self, alloc: Global) -> Result<Vec<Word>, NoMemory>
        requires { AreAllReached self.now }
        ensures { IfOk result (λ words. AreLeastBackwards self.now words.items) }
    {
        let _letters = self.letters();
        let walk = Walk::by_levels(alloc, self)?;
        let words = walk.words(alloc)?;
        let mut least = Vec::new(alloc);
        for node in 0..self.nodes() {
            let Some(place) = walk.place(node) else {
                unreachable!()
            };
            let word = words[place].reversed(alloc)?;
            least.push(word)?;
        }
        Ok(least)
    }
}
