// A search for steps that weigh little, from both ends (Pohl 1971).
use crate::fronts::Front;
use crate::guide::{Exchange, Guide};
use crate::pending::reversed;
use crate::steps::ChainStep;
use ports::NoMemory;
use std::alloc::Global;
use std::mem::swap;
use words::{Letter, Word};

// A search looks along so many words at least, and at most; in between, along one word for so much
// that the steps weigh which it is to undercut.
const LEAST_WORDS: u64 = 200;

const MOST_WORDS: u64 = 20_000;

const WEIGHT_OF_A_WORD: u64 = 300;

// How many words are looked along for steps that weigh less than the limit.
fn words_for(limit: u64) -> u64 {
    (limit / WEIGHT_OF_A_WORD).max(LEAST_WORDS).min(MOST_WORDS)
}

// A factor of a word: the place of the word, and what stands before the factor and behind it.
#[derive(Clone, Copy)]
struct Factor<'a> {
    place: usize,
    head: &'a [Letter],
    tail: &'a [Letter],
}

// The words that are reached from both ends, by steps that weigh less than the limit, and with no
// more letters than these. What is looked along is the end that is near; it is where the steps begin
// unless the ends have changed places. Where words of both ends are one, the least weight is the
// limit from then on, and the places of the word are kept.
#[derive(Drop)]
struct Search {
    near: Front,
    far: Front,
    turned: bool,
    letters: usize,
    limit: u64,
    meeting: Option<(usize, usize)>,
    word: Word,
}

impl Search {
    // A search between the two words, before its first look.
    fn new(
        alloc: Global,
        from: &Word,
        to: &Word,
        letters: usize,
        limit: u64,
    ) -> Result<Search, NoMemory> {
        Ok(Search {
            near: Front::new(alloc, from)?,
            far: Front::new(alloc, to)?,
            turned: false,
            letters,
            limit,
            meeting: None,
            word: Word::new(alloc),
        })
    }

    // The two ends change places.
    fn turn(&mut self) {
        swap(&mut self.near, &mut self.far);
        self.turned = !self.turned;
        if let Some((near, far)) = self.meeting {
            self.meeting = Some((far, near));
        }
    }

    // The word with the factor exchanged.
    fn make(&mut self, factor: &Factor, by: &[Letter]) -> Result<(), NoMemory> {
        self.word.clear();
        self.word.append(factor.head)?;
        self.word.append(by)?;
        self.word.append(factor.tail)?;
        Ok(())
    }

    // Makes one exchange.
    fn exchange(&mut self, factor: &Factor, exchange: &Exchange) -> Result<(), NoMemory> {
        let weight = self
            .near
            .weight_at(factor.place)
            .saturating_add(exchange.weight);
        let around = factor.head.len().saturating_add(factor.tail.len());
        if self.limit <= weight || self.letters < around.saturating_add(exchange.by.len()) {
            return Ok(());
        }
        self.make(factor, exchange.by.letters())?;
        let step = ChainStep {
            place: factor.head.len(),
            relation: exchange.relation,
            forward: exchange.forward,
        };
        let Some(near) = self.near.reach(&self.word, weight, factor.place, step)? else {
            return Ok(());
        };
        let Some(far) = self.far.place_of(&self.word) else {
            return Ok(());
        };
        let all = weight.saturating_add(self.far.weight_at(far));
        if all < self.limit {
            self.limit = all;
            self.meeting = Some((near, far));
        }
        Ok(())
    }

    // Makes all exchanges of a factor.
    fn exchange_all(&mut self, factor: &Factor, exchanges: &[Exchange]) -> Result<(), NoMemory> {
        for exchange in exchanges {
            self.exchange(factor, exchange)?;
        }
        Ok(())
    }

    // Makes the exchanges of the factors that stand in the word of a place, behind its head.
    fn exchange_at(
        &mut self,
        guide: &Guide,
        place: usize,
        head: &[Letter],
        rest: &[Letter],
    ) -> Result<(), NoMemory> {
        let mut side = 0;
        for letters in 0..rest.len() {
            let factor = Factor {
                place,
                head,
                tail: &rest[letters..],
            };
            self.exchange_all(&factor, guide.exchanges(side))?;
            let Some(longer) = guide.longer(side, rest[letters]) else {
                return Ok(());
            };
            side = longer;
        }
        let factor = Factor {
            place,
            head,
            tail: &[],
        };
        self.exchange_all(&factor, guide.exchanges(side))
    }

    // Looks along the lightest word of the end that is near, at each factor of it.
    fn look_along(&mut self, guide: &Guide) -> Result<(), NoMemory> {
        let Some((place, word)) = self.near.take()? else {
            return Ok(());
        };
        for letters in 0..word.len() {
            let (head, rest) = word.letters().split_at(letters);
            self.exchange_at(guide, place, head, rest)?;
        }
        Ok(())
    }

    // Looks along the lightest word of either end. False where no steps can be lighter than those
    // that are found, or than the limit.
    fn go_on(&mut self, guide: &Guide) -> Result<bool, NoMemory> {
        let (Some(near), Some(far)) = (self.near.least(), self.far.least()) else {
            return Ok(false);
        };
        if self.limit <= near.saturating_add(far) {
            return Ok(false);
        }
        if far < near {
            self.turn();
        }
        self.look_along(guide)?;
        Ok(true)
    }

    // Looks along so many words, or fewer where no steps can be lighter.
    fn go_through(&mut self, guide: &Guide, words: u64) -> Result<(), NoMemory> {
        for _ in 0..words {
            if !self.go_on(guide)? {
                return Ok(());
            }
        }
        Ok(())
    }

    // The steps that are found.
    fn steps(&mut self, alloc: Global) -> Result<Option<Vec<ChainStep>>, NoMemory> {
        if self.turned {
            self.turn();
        }
        let Some((near, far)) = self.meeting else {
            return Ok(None);
        };
        let mut steps = reversed(alloc, self.near.steps_to(near)?.as_slice())?;
        for step in self.far.steps_to(far)? {
            steps.push(step.turned())?;
        }
        Ok(Some(steps))
    }
}

/// Steps from the one word to the other, over words with at most so many letters, that weigh less
/// than the limit, where a search finds some. That they lead there is to be checked. Refused only
/// where memory is wanting.
pub fn find(
    alloc: Global,
    guide: &Guide,
    from: &Word,
    to: &Word,
    letters: usize,
    limit: u64,
) -> Result<Option<Vec<ChainStep>>, NoMemory> {
    let mut search = Search::new(alloc, from, to, letters, limit)?;
    search.go_through(guide, words_for(limit))?;
    search.steps(alloc)
}
