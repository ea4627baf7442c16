// Pairs by the letters with which their sides begin.
ghost use Rattle.std.specs.Prelude.{◌≡◌, ◌+◌, IfOk};
ghost use Rattle.coincidence.specs.Starts.{AreStarts, list_for, start_in};
ghost use Rattle.coincidence.specs.Uses.{list_at};

use crate::uses::note;
use ports::NoMemory;
use presentation::Pairs;
use std::alloc::Global;
use std::marker::Model;
use words::{Letter, Word};

// Lists of the numbers of pairs, by the first letter of a side that has more letters. A pair asks
// for nothing at a node from which no edge of this letter leads.
#[derive(Drop)]
pub struct Starts {
    lists: Vec<Vec<(usize, usize)>>,
}

impl Model for Starts {
    ghost use Rattle.std.specs.Prelude.{List, map};
    ghost use Rattle.coincidence.specs.Places.{Places};

    ghost Value = { List Places };

    ghost view = { λ s. map (λ v. v.items) s.lists.items };
}

/// The first letter of the side, if it has more.
pub fn start_in(side: &Word) -> Option<Letter>
    ensures { result ≡ start_in side.now }
{
    if side.len() < 2 {
        None
    } else {
        Some(side.letter(0))
    }
}

// The number of the list of a letter, or of none.
fn list_for(first: Option<Letter>, second: Option<Letter>) -> usize
    ensures { result ≡ list_for first second }
{
    match first.or(second) {
        Some(letter) => letter.number() + 1,
        None => 0,
    }
}

impl Starts {
    /// The pairs by their starts. Refused only where memory is wanting.
    pub fn new(alloc: Global, pairs: &Pairs) -> Result<Starts, NoMemory>
        ensures { IfOk result (AreStarts pairs.now) }
    {
        let mut lists = Vec::new(alloc);
        for number in 0..pairs.len() {
            let pair = pairs.pair(number);
            let list = list_for(start_in(&pair.0), start_in(&pair.1));
            note(alloc, &mut lists, list, (number, 0))?;
        }
        Ok(Starts { lists })
    }

    // The list of this number.
    fn list(&self, number: usize) -> &[(usize, usize)]
        ensures { result.now ≡ list_at self.now number }
    {
        if number < self.lists.len() {
            self.lists[number].as_slice()
        } else {
            &[]
        }
    }

    /// The pairs neither of whose sides has more than a letter.
    pub fn short(&self) -> &[(usize, usize)]
        ensures { result.now ≡ list_at self.now 0 }
    {
        self.list(0)
    }

    /// The pairs with the letter in front of a side that has more.
    pub fn of(&self, letter: Letter) -> &[(usize, usize)]
        ensures { result.now ≡ list_at self.now (letter + 1) }
    {
        self.list(letter.number() + 1)
    }
}
