// Words that are reached from one word, the lightest first (Dijkstra 1959).
ghost use Rattle.std.specs.Prelude.{◌<◌, length, IfSome};

use crate::steps::ChainStep;
use indexmap::IndexMap;
use ports::NoMemory;
use std::alloc::Global;
use std::cmp::Reverse;
use std::collections::BinaryHeap;
use words::Word;

// What the steps to a word weigh, and the last one with the place of the word from which it leads.
#[derive(Clone, Copy)]
struct Reached {
    weight: u64,
    last: Option<(usize, ChainStep)>,
}

/// The words that are reached from one end, at the places at which they came, and those that are
/// still to be looked along.
#[derive(Drop)]
pub struct Front {
    alloc: Global,
    reached: IndexMap<Word, Reached>,
    waiting: BinaryHeap<Reverse<(u64, usize)>>,
}

impl Front {
    /// The word alone. Refused only where memory is wanting.
    pub fn new(alloc: Global, word: &Word) -> Result<Front, NoMemory> {
        let mut front = Front {
            alloc,
            reached: IndexMap::new(alloc),
            waiting: BinaryHeap::new(alloc),
        };
        let _place = front.enter(word, 0, None)?;
        Ok(front)
    }

    // Puts in a word that is new, and gives its place.
    fn enter(
        &mut self,
        word: &Word,
        weight: u64,
        last: Option<(usize, ChainStep)>,
    ) -> Result<usize, NoMemory> {
        let word = word.copy(self.alloc)?;
        let (place, _none) = self.reached.insert_full(word, Reached { weight, last })?;
        self.waiting.push(Reverse((weight, place)))?;
        Ok(place)
    }

    /// The place of the word, where it is reached.
    pub fn place_of(&self, word: &Word) -> Option<usize> {
        self.reached.get_index_of(word)
    }

    /// What the steps to the word of this place weigh.
    pub fn weight_at(&self, place: usize) -> u64 {
        match self.reached.get_index(place) {
            Some((_, reached)) => reached.weight,
            None => u64::MAX,
        }
    }

    /// What the steps to the lightest word that waits weigh.
    pub fn least(&self) -> Option<u64> {
        match self.waiting.peek() {
            Some(least) => Some((least.0).0),
            None => None,
        }
    }

    /// The word is reached from the word of a place, by a step and with such a weight. Where it is
    /// new, or lighter than it was, its place. Refused only where memory is wanting.
    pub fn reach(
        &mut self,
        word: &Word,
        weight: u64,
        from: usize,
        step: ChainStep,
    ) -> Result<Option<usize>, NoMemory> {
        let Some(place) = self.place_of(word) else {
            return Ok(Some(self.enter(word, weight, Some((from, step)))?));
        };
        let Some(reached) = self.reached.get_index_mut(place) else {
            return Ok(None);
        };
        if reached.weight <= weight {
            return Ok(None);
        }
        reached.weight = weight;
        reached.last = Some((from, step));
        self.waiting.push(Reverse((weight, place)))?;
        Ok(Some(place))
    }

    /// The lightest word that waits, with its place, and it waits no more. None, where since it began
    /// to wait it was reached by lighter steps. Refused only where memory is wanting.
    pub fn take(&mut self) -> Result<Option<(usize, Word)>, NoMemory> {
        let Some(least) = self.waiting.pop() else {
            return Ok(None);
        };
        let (weight, place) = least.0;
        let Some((word, reached)) = self.reached.get_index(place) else {
            return Ok(None);
        };
        if reached.weight < weight {
            return Ok(None);
        }
        Ok(Some((place, word.copy(self.alloc)?)))
    }

    /// The steps that lead to the word of the place, the last one first. Refused only where memory
    /// is wanting.
    pub fn steps_to(&self, place: usize) -> Result<Vec<ChainStep>, NoMemory> {
        let mut steps = Vec::new(self.alloc);
        let mut at = place;
        for _ in 0..self.reached.len() {
            let Some((from, step)) = self.last_to(at) else {
                return Ok(steps);
            };
            steps.push(step)?;
            at = from;
        }
        Ok(steps)
    }

    // The last step to the word of the place, and the place from which it leads.
    fn last_to(&self, place: usize) -> Option<(usize, ChainStep)> {
        match self.reached.get_index(place) {
            Some((_, reached)) => reached.last,
            None => None,
        }
    }
}
