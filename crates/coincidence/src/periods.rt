// Periods of words: a word is a power of its first letters, as many as its period.
ghost use Rattle.std.specs.Prelude.{◌≡◌, ◌+◌, ◌<◌, ◌≤◌, true, length, slice_index_or, take, drop, IfOk};
ghost use Rattle.coincidence.specs.Rings.{turned};
ghost use Rattle.coincidence.specs.Uses.{ArePeriods};

use crate::uses::side;
use ports::NoMemory;
use presentation::Pairs;
use std::alloc::Global;
use std::marker::Model;
use words::Word;

// Whether as many letters of the word behind the one place are those behind the other.
fn repeats(word: &Word, from: usize, to: usize, count: usize) -> bool
    requires from { from + count ≤ length word.now }
    requires to { to + count ≤ length word.now }
    ensures { result ≡ true → take count (drop from word.now) ≡ take count (drop to word.now) }
{
    let _len = word.len();
    for i in 0..count {
        if word.letter(from + i) != word.letter(to + i) {
            return false;
        }
    }
    true
}

// Whether the word stays as it is where so many letters go from its front to its end.
fn is_period(word: &Word, count: usize) -> bool
    requires { count ≤ length word.now }
    ensures { result ≡ true → turned count word.now ≡ word.now }
{
    let rest = word.len() - count;
    repeats(word, count, 0, rest) && repeats(word, 0, rest, count)
}

/// The length of the shortest word of which the word is a power, or of the empty word 0.
pub fn period(word: &Word) -> usize
    ensures within { result ≤ length word.now }
    ensures some { 0 < length word.now → 0 < result }
    ensures turned { turned result word.now ≡ word.now }
{
    let len = word.len();
    for count in 1..len {
        if is_period(word, count) {
            return count;
        }
    }
    len
}

// For each pair the period of its first side, or for each that of its second.
#[derive(Drop)]
pub struct Periods {
    counts: Vec<usize>,
}

impl Model for Periods {
    ghost use Rattle.std.specs.Prelude.{List, ℕ};

    ghost Value = { List ℕ };

    ghost view = { λ p. p.counts.items };
}

impl Periods {
    /// The periods of the first sides of the pairs, or of the second. Refused only where memory is
    /// wanting.
    pub fn new(alloc: Global, pairs: &Pairs, second: bool) -> Result<Periods, NoMemory>
        ensures { IfOk result (ArePeriods second pairs.now) }
    {
        let mut counts = Vec::new(alloc);
        for number in 0..pairs.len() {
            counts.push(period(side(pairs.pair(number), second)))?;
        }
        Ok(Periods { counts })
    }

    /// The period of the side of the pair of this number.
    pub fn of(&self, number: usize) -> usize
        requires { number < length self.now }
        ensures { result ≡ slice_index_or self.now number 0 }
    {
        self.counts[number]
    }
}
