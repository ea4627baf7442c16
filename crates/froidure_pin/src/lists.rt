// Lists that a table is read out in.
ghost use Rattle.std.specs.Prelude.{◌≡◌, ℕ, ◌+◌, ◌<◌, [], ◌∷◌, ◌++◌, length, slice_index, slice_index_or, IfOk, IfSome};
ghost use Rattle.froidure_pin.specs.Found.{AreFactors, entry, word_or_none, words_of};
ghost use Rattle.froidure_pin.specs.Numbering.{AreRows, AreRowsBy};

use super::parts::Factor;
use super::rows::entry;
use super::spell::spell;
use ports::NoMemory;
use std::marker::Model;
use words::{Letter, Word};

/// Numbers. Contracts see their list.
#[derive(Drop)]
pub struct Numbers {
    numbers: Vec<usize>,
}

impl Model for Numbers {
    ghost use Rattle.std.specs.Prelude.{List, ℕ};

    ghost Value = { List ℕ };

    ghost view = { λ n. n.numbers.items };
}

impl Numbers {
    /// These numbers.
    pub fn from_vec(numbers: Vec<usize>) -> Numbers
        ensures { result ≡ numbers.items }
    {
        Numbers { numbers }
    }

    /// The numbers, in order. It takes no memory.
    pub fn into_vec(self) -> Vec<usize>
        ensures { result.items ≡ self }
    {
        self.numbers
    }

    /// The numbers, in order, lent.
    pub fn as_slice(&self) -> &[usize]
        ensures { result.now ≡ self.now }
    {
        self.numbers.as_slice()
    }
}

/// Rows of numbers of one length, one row behind the other in one list. Contracts see a list of
/// rows, each row a list.
#[derive(Drop)]
pub struct Rows {
    letters: usize,
    count: usize,

    // behind a row of the empty word
    numbers: Vec<u32>,
}

impl Model for Rows {
    ghost use Rattle.std.specs.Prelude.{List, ℕ, drop};
    ghost use Rattle.froidure_pin.specs.Numbering.{AreRows, rows_in};

    ghost Value = { List (List ℕ) };

    ghost view = { λ r. rows_in r.letters r.count (drop r.letters r.numbers.items) };

    ghost invariant = { λ r. AreRows r.letters r.count r.numbers.items };
}

impl Rows {
    // The rows of so many elements, of which the numbers stand behind a row of the empty word.
    pub(crate) fn new(letters: usize, count: usize, numbers: Vec<u32>) -> Rows
        requires { AreRows letters count numbers.items }
        ensures { AreRowsBy count letters (λ i. entry letters numbers.items (i + 1)) result }
    {
        Rows {
            letters,
            count,
            numbers,
        }
    }

    /// How many rows there are.
    pub fn len(&self) -> usize
        ensures { result ≡ length self.now }
    {
        self.count
    }

    /// How many numbers each row has: one for each letter.
    pub fn width(&self) -> usize
        ensures { (row : ℕ) → row < length self.now
            → length (slice_index_or self.now row []) ≡ result }
    {
        self.letters
    }

    /// The number in a row at a letter.
    pub fn at(&self, row: usize, letter: usize) -> usize
        requires row { row < length self.now }
        requires letter { letter < length (slice_index_or self.now row []) }
        ensures { result ≡ slice_index (slice_index_or self.now row []) letter }
    {
        entry(&self.numbers, self.letters, row + 1, letter)
    }
}

/// Words, each kept as the number of the word without its last letter, and this letter. Contracts
/// see the list of the words.
#[derive(Drop)]
pub struct Words {
    factors: Vec<Factor>,
}

impl Model for Words {
    ghost use Rattle.std.specs.Prelude.{List, ℕ};
    ghost use Rattle.froidure_pin.specs.Found.{AreFactors, words_of};

    ghost Value = { List (List ℕ) };

    ghost view = { λ w. words_of w.factors.items };

    ghost invariant = { λ w. AreFactors 256 w.factors.items };
}

impl Words {
    // The words that these factors make.
    pub(crate) fn new(factors: Vec<Factor>) -> Words
        requires { AreFactors 256 factors.items }
        ensures { result ≡ words_of factors.items }
    {
        Words { factors }
    }

    /// How many words there are.
    pub fn len(&self) -> usize
        ensures { result ≡ length self.now }
    {
        self.factors.len()
    }

    /// The word of this number. Only want of memory refuses it.
    pub fn word(&self, number: usize) -> Result<Word, NoMemory>
        requires { number < length self.now }
        ensures { IfOk result (λ word. word ≡ slice_index_or self.now number []) }
    {
        let alloc = *self.factors.allocator();
        spell(alloc, &self.factors, number)
    }

    /// What the word of this number is made of: the number of the word without its last letter, or
    /// `None` where nothing is left, and the last letter. It takes no memory.
    pub fn factors(&self, number: usize) -> (Option<usize>, Letter)
        requires { number < length self.now }
        ensures earlier { IfSome result.0 (λ prefix. prefix < number) }
        ensures word { slice_index_or self.now number []
            ≡ word_or_none self.now result.0 ++ result.1 ∷ [] }
    {
        let factor = self.factors[number];
        let prefix = (factor.prefix as usize).checked_sub(1);
        (prefix, Letter::new(factor.last as u8))
    }
}
