// Pairs by the letters with which their sides begin, as bits.
ghost use Rattle.std.specs.Prelude.{◌≡◌, ◌<◌, ◌⊎◌, ℕ, None, length, slice_index_or, IfOk, IfSome, OnOk};
ghost use Rattle.theory.specs.Graph.{target as target_of};
ghost use Rattle.coincidence.specs.Places.{HasBit};
ghost use Rattle.coincidence.specs.Starts.{AreFirstLetters, Begins, IsShutAt};

use crate::edges::Edges;
use crate::seen::{make_room, with_bit, without};
use crate::starts::start_in;
use ports::NoMemory;
use presentation::Pairs;
use std::alloc::Global;
use words::{Letter, Word};

/// The bits of the pairs, and for each letter those of which a side begins with it and has more. At
/// a node from which no edge of the letter leads these ask for nothing.
#[derive(Drop)]
pub struct FirstLetters {
    pub every: u64,
    pub letters: Vec<u64>,
}

// The number of the letter has the bit of the pair, if there is a letter. Refused only where memory
// is wanting.
fn note_first(letters: &mut Vec<u64>, first: Option<Letter>, pair: usize) -> Result<(), NoMemory>
    ensures { OnOk result ((x i : ℕ) → HasBit (slice_index_or letters.new.items x 0) i
        → HasBit (slice_index_or letters.old.items x 0) i ⊎ ((first ≡ Some x) × (i ≡ pair))) }
{
    let Some(letter) = first else {
        return Ok(());
    };
    let number = letter.number();
    make_room(letters, number)?;
    if let Some(mask) = with_bit(letters[number], pair) {
        letters[number] = mask;
    }
    Ok(())
}

impl FirstLetters {
    /// The bits of the pairs, if there is one for each. Refused only where memory is wanting.
    pub fn new(alloc: Global, pairs: &Pairs) -> Result<Option<FirstLetters>, NoMemory>
        ensures { IfOk result (λ first. IfSome first (λ f.
            AreFirstLetters pairs.now f.every f.letters.items)) }
    {
        let mut every = 0;
        let mut letters = Vec::new(alloc);
        for number in 0..pairs.len() {
            let Some(mask) = with_bit(every, number) else {
                return Ok(None);
            };
            every = mask;
            let pair = pairs.pair(number);
            note_first(&mut letters, start_in(&pair.0), number)?;
            note_first(&mut letters, start_in(&pair.1), number)?;
        }
        Ok(Some(FirstLetters { every, letters }))
    }

    // The bits of the pairs of which a side begins with the letter and has more.
    fn of(&self, letter: Letter) -> u64
        ensures { result ≡ slice_index_or self.now.letters.items letter 0 }
    {
        let number = letter.number();
        if number < self.letters.len() {
            self.letters[number]
        } else {
            0
        }
    }

    /// The bits of the pairs but for those of which a side begins with a letter, and has more, by
    /// which no edge leads on from the node.
    pub fn open(&self, edges: &Edges, node: usize) -> u64
        ensures { (i : ℕ) → HasBit self.now.every i
            → HasBit result i ⊎ IsShutAt edges.now.graph node self.now.letters.items i }
    {
        let mut open = self.every;
        for number in 0..edges.letters() {
            let letter = Letter::new(number as u8);
            if edges.target(node, letter).is_none() {
                open = without(open, self.of(letter));
            }
        }
        open
    }
}
