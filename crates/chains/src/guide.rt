// What a search for light steps goes by.
ghost use Rattle.std.specs.Prelude.{◌<◌, length, IfSome};

use crate::steps::ChainStep;
use ports::NoMemory;
use std::alloc::Global;
use words::{Letter, Word};

// A side that may take the place of another: by which relation or fact, in which direction, and how
// much a step by it weighs.
#[derive(Drop)]
pub struct Exchange {
    pub by: Word,
    pub relation: usize,
    pub forward: bool,
    pub weight: u64,
}

/// How much each relation and fact weighs, by its number. A relation weighs one, and a fact as much
/// as the steps by which it follows: so many steps by relations does it stand for.
#[derive(Drop)]
pub struct Weights {
    weights: Vec<u64>,
}

impl Weights {
    /// Those of so many relations. Refused only where memory is wanting.
    pub fn of_relations(alloc: Global, count: usize) -> Result<Weights, NoMemory> {
        let weights = vec![in alloc; 1; count]?;
        Ok(Weights { weights })
    }

    /// What the steps weigh together, or the greatest number.
    pub fn of(&self, steps: &[ChainStep]) -> u64 {
        let mut weight = 0u64;
        for step in steps {
            let more = match self.weights.get(step.relation) {
                Some(more) => *more,
                None => u64::MAX,
            };
            weight = weight.saturating_add(more);
        }
        weight
    }

    /// Puts in that of the next fact, which follows by the steps. Refused only where memory is
    /// wanting.
    pub fn push(&mut self, steps: &[ChainStep]) -> Result<(), NoMemory> {
        let weight = self.of(steps);
        self.weights.push(weight)?;
        Ok(())
    }
}

// The beginning of a side, or a side: the places of those with a letter more, by this letter, and by
// what the side may be exchanged.
#[derive(Drop)]
struct Beginning {
    longer: Vec<(Letter, usize)>,
    exchanges: Vec<Exchange>,
}

/// By what each side of a relation or fact may be exchanged: a tree of the sides, letter by letter.
#[derive(Drop)]
pub struct Guide {
    alloc: Global,
    beginnings: Vec<Beginning>,
}

// The place of the exchange by the side.
fn place_of(exchanges: &Vec<Exchange>, by: &[Letter]) -> Option<usize>
    ensures { IfSome result (λ place. place < length exchanges.now.items) }
{
    for place in 0..exchanges.len() {
        if exchanges[place].by.letters() == by {
            return Some(place);
        }
    }
    None
}

// Puts the exchange in, unless there is one by the same side that weighs no more.
fn put(exchanges: &mut Vec<Exchange>, exchange: Exchange) -> Result<(), NoMemory> {
    let Some(place) = place_of(exchanges, exchange.by.letters()) else {
        exchanges.push(exchange)?;
        return Ok(());
    };
    if exchange.weight < exchanges[place].weight {
        exchanges[place] = exchange;
    }
    Ok(())
}

impl Guide {
    /// No relation and no fact. Refused only where memory is wanting.
    pub fn new(alloc: Global) -> Result<Guide, NoMemory> {
        let mut guide = Guide {
            alloc,
            beginnings: Vec::new(alloc),
        };
        let _root = guide.begin()?;
        Ok(guide)
    }

    // A beginning that nothing is known of, and its place.
    fn begin(&mut self) -> Result<usize, NoMemory> {
        let place = self.beginnings.len();
        self.beginnings.push(Beginning {
            longer: Vec::new(self.alloc),
            exchanges: Vec::new(self.alloc),
        })?;
        Ok(place)
    }

    /// The place of the beginning with this letter more. That of no letters is 0.
    pub fn longer(&self, place: usize, letter: Letter) -> Option<usize> {
        let beginning = self.beginnings.get(place)?;
        for (next, longer) in &beginning.longer {
            if *next == letter {
                return Some(*longer);
            }
        }
        None
    }

    /// What may take the place of the side of this place.
    pub fn exchanges(&self, place: usize) -> &[Exchange] {
        match self.beginnings.get(place) {
            Some(beginning) => beginning.exchanges.as_slice(),
            None => &[],
        }
    }

    // The place of the beginning with this letter more, which is put in where there is none.
    fn go_on(&mut self, place: usize, letter: Letter) -> Result<usize, NoMemory> {
        if let Some(longer) = self.longer(place, letter) {
            return Ok(longer);
        }
        let longer = self.begin()?;
        if let Some(beginning) = self.beginnings.get_mut(place) {
            beginning.longer.push((letter, longer))?;
        }
        Ok(longer)
    }

    // Puts in that the side may be exchanged.
    fn put(&mut self, side: &[Letter], exchange: Exchange) -> Result<(), NoMemory> {
        let mut place = 0;
        for letter in side {
            place = self.go_on(place, *letter)?;
        }
        match self.beginnings.get_mut(place) {
            Some(beginning) => put(&mut beginning.exchanges, exchange),
            None => Ok(()),
        }
    }

    /// Puts in the relation or fact of the two words, of such a number and weight. Refused only where
    /// memory is wanting.
    pub fn add(
        &mut self,
        left: &Word,
        right: &Word,
        relation: usize,
        weight: u64,
    ) -> Result<(), NoMemory> {
        let forward = Exchange {
            by: right.copy(self.alloc)?,
            relation,
            forward: true,
            weight,
        };
        self.put(left.letters(), forward)?;
        let back = Exchange {
            by: left.copy(self.alloc)?,
            relation,
            forward: false,
            weight,
        };
        self.put(right.letters(), back)
    }
}
