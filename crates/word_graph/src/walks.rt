// Walks over the nodes that are reached, in the order of their least words.
ghost use Rattle.std.specs.Prelude.{◌≡◌, ℕ, ◌+◌, ◌<◌, ◌≤◌, List, length, slice_index_or, slice_get, Option, None, Some, IfOk, OnOk, MatchOption, replicate, ◌∷◌, []};
ghost use Rattle.theory.specs.Facts.{AllDefined};
ghost use Rattle.theory.specs.Graph.{Graph, IsGraph, SameEnd};
ghost use Rattle.word_graph.specs.Walk.{IsFirstMissing, AreLeastWords};
ghost use Rattle.word_graph.specs.Steps.{IsWalkedTo, next_word, words_of};
ghost use Rattle.word_graph.specs.Levels.{frontier_at, IsLevelledTo, IsLevelledBefore};

use crate::graphs::WordGraph;
use ports::NoMemory;
use std::alloc::Global;
use words::{Letter, Word};

// A node that is reached, and the place and letter by which it was found.
#[derive(Clone, Copy)]
pub struct Step {
    pub node: usize,
    pub parent: usize,
    pub letter: Letter,
}

// The nodes that were found, in order, and the place of each node in it.
#[derive(Drop)]
pub struct Walk {
    pub steps: Vec<Step>,
    pub places: Vec<Option<usize>>,
}

// No node has a place.
pub(crate) fn no_places(alloc: Global, nodes: usize) -> Result<Vec<Option<usize>>, NoMemory>
    ensures { IfOk result (λ v. v.items ≡ replicate nodes None) }
{
    let mut places = Vec::new(alloc);
    for _ in 0..nodes {
        places.push(None)?;
    }
    Ok(places)
}

// The word of a step behind the words of the steps before it. The root, which is first, has no word
// before it.
fn next_word(alloc: Global, words: &[Word], step: &Step) -> Result<Word, NoMemory>
    ensures { IfOk result (λ w. w ≡ next_word words.now step.now) }
{
    match words.get(step.parent) {
        None => Ok(Word::new(alloc)),
        Some(parent) => {
            let mut word = parent.copy(alloc)?;
            word.push(step.letter)?;
            Ok(word)
        }
    }
}

impl Walk {
    // The root is found.
    pub(crate) fn at_root(alloc: Global, nodes: usize) -> Result<Walk, NoMemory>
        requires { 0 < nodes }
        ensures walk { IfOk result (λ w. (k : ℕ) (g : Graph) → length g ≡ nodes
            → IsWalkedTo k g w.steps.items w.places.items 0 0) }
        ensures levels { IfOk result (λ w. (k : ℕ) (g : Graph) → length g ≡ nodes
            → IsLevelledBefore k g w.steps.items w.places.items 0) }
        ensures steps { IfOk result (λ w. length w.steps.items ≡ 1) }
        ensures places { IfOk result (λ w. length w.places.items ≡ nodes) }
    {
        let mut places = no_places(alloc, nodes)?;
        places[0] = Some(0);
        let mut steps = Vec::new(alloc);
        steps.push(Step {
            node: 0,
            parent: 0,
            letter: Letter::new(0),
        })?;
        Ok(Walk { steps, places })
    }

    // Follows an edge, if it is there, and finds the node that it leads to, if it is new.
    pub(crate) fn follow(
        &mut self,
        graph: &WordGraph,
        place: usize,
        letter: Letter,
    ) -> Result<(), NoMemory>
        requires place { place < length self.old.steps.items }
        requires places { length self.old.places.items ≡ length graph.now }
        ensures walk { OnOk result ((k : ℕ) → IsGraph k graph.now → letter < k
            → IsWalkedTo k graph.now self.old.steps.items self.old.places.items place letter
            → IsWalkedTo k graph.now self.new.steps.items self.new.places.items
            place (letter + 1)) }
        ensures levels { OnOk result ((k from to : ℕ) → IsGraph k graph.now → letter < k
            → from ≤ place → place < to
            → IsLevelledTo k graph.now self.old.steps.items self.old.places.items
            (frontier_at from to letter place)
            → IsLevelledTo k graph.now self.new.steps.items self.new.places.items
            (frontier_at from to letter (place + 1))) }
        ensures steps { length self.old.steps.items ≤ length self.new.steps.items }
        ensures places { length self.new.places.items ≡ length self.old.places.items }
    {
        let _letters = graph.letters();
        let Some(next) = graph.target(self.steps[place].node, letter) else {
            return Ok(());
        };
        if self.places[next].is_some() {
            return Ok(());
        }
        let found = self.steps.len();
        self.steps.push(Step {
            node: next,
            parent: place,
            letter,
        })?;
        self.places[next] = Some(found);
        Ok(())
    }

    // Follows each edge from the node of a place.
    fn follow_row(&mut self, graph: &WordGraph, place: usize) -> Result<(), NoMemory>
        requires place { place < length self.old.steps.items }
        requires places { length self.old.places.items ≡ length graph.now }
        ensures walk { OnOk result ((k : ℕ) → IsGraph k graph.now
            → IsWalkedTo k graph.now self.old.steps.items self.old.places.items place 0
            → IsWalkedTo k graph.now self.new.steps.items self.new.places.items (place + 1) 0) }
        ensures steps { length self.old.steps.items ≤ length self.new.steps.items }
        ensures places { length self.new.places.items ≡ length self.old.places.items }
    {
        let letters = graph.letters();
        for number in 0..letters {
            self.follow(graph, place, Letter::new(number as u8))?;
        }
        Ok(())
    }

    /// Finds all nodes that are reached. Refused only where memory is wanting.
    pub fn over(alloc: Global, graph: &WordGraph) -> Result<Walk, NoMemory>
        ensures { IfOk result (λ w. (k : ℕ) → IsGraph k graph.now
            → IsWalkedTo k graph.now w.steps.items w.places.items (length w.steps.items) 0) }
    {
        let _letters = graph.letters();
        let mut walk = Walk::at_root(alloc, graph.nodes())?;
        let mut place = 0;
        while place < walk.steps.len() {
            walk.follow_row(graph, place)?;
            place += 1;
        }
        Ok(walk)
    }

    // The words by which the nodes were found.
    pub(crate) fn words(&self, alloc: Global) -> Result<Vec<Word>, NoMemory>
        ensures { IfOk result (λ v. v.items ≡ words_of self.now.steps.items) }
    {
        let mut words = Vec::new(alloc);
        for step in &self.steps {
            let word = next_word(alloc, words.as_slice(), step)?;
            words.push(word)?;
        }
        Ok(words)
    }

    /// Where a node stands in the walk; `None` where it is not reached.
    pub fn place(&self, node: usize) -> Option<usize>
        ensures { result ≡ slice_index_or self.now.places.items node None }
    {
        if node < self.places.len() {
            self.places[node]
        } else {
            None
        }
    }
}

impl WordGraph {
    /// The least word in short-lex order that has no path from the root, as the node that all but
    /// its last letter lead to, and that letter. `None` exactly where each word has a path. Refused
    /// only where memory is wanting.
    pub fn first_missing(&self, alloc: Global) -> Result<Option<(usize, Letter)>, NoMemory>
        ensures { IfOk result (λ found. (k : ℕ) → IsGraph k self.now
            → MatchOption found (AllDefined k (SameEnd self.now))
            (λ p. IsFirstMissing k self.now p.0 p.1)) }
    {
        let walk = Walk::over(alloc, self)?;
        for step in &walk.steps {
            if let Some(letter) = self.missing_letter(step.node) {
                return Ok(Some((step.node, letter)));
            }
        }
        Ok(None)
    }

    /// For each node that is reached, in ascending order, the least word in short-lex order that
    /// leads to it. Refused only where memory is wanting.
    pub fn least_words(&self, alloc: Global) -> Result<Vec<(usize, Word)>, NoMemory>
        ensures { IfOk result (λ v. AreLeastWords self.now v.items) }
    {
        let _letters = self.letters();
        let walk = Walk::over(alloc, self)?;
        let words = walk.words(alloc)?;
        let mut least = Vec::new(alloc);
        for node in 0..self.nodes() {
            if let Some(place) = walk.place(node) {
                let word = words[place].copy(alloc)?;
                least.push((node, word))?;
            }
        }
        Ok(least)
    }
}
