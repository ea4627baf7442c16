// What is looked at of words before they are compared.
ghost use Rattle.std.specs.Prelude.{◌≡◌, ℕ, length, reverse, slice_index_or};
ghost use Rattle.knuth_bendix.specs.Marks.{bit, key_of, marks_of, sign};

use words::Word;

/// Marks of a left side: the key of its first two letters, and that of its last two from the end
/// on; how many letters it has, and its sign.
#[derive(Clone, Copy)]
pub struct Marks {
    pub first: u8,
    pub last: u8,
    pub letters: usize,
    pub sign: u64,
}

// The number of a letter of the word, and 0 where there is none.
fn letter_at(word: &Word, place: usize) -> usize
    ensures { result ≡ slice_index_or word.now place 0 }
{
    if place < word.len() {
        word.letter(place).number()
    } else {
        0
    }
}

// The same, counted from the end.
fn letter_before(word: &Word, place: usize) -> usize
    ensures { result ≡ slice_index_or (reverse word.now) place 0 }
{
    if place < word.len() {
        word.letter(word.len() - 1 - place).number()
    } else {
        0
    }
}

/// The key of two letters.
pub fn key_of(first: usize, second: usize) -> u8
    ensures { result ≡ key_of first second }
{
    (first % 32 * 8 + second % 8) as u8
}

// The bit of two letters.
fn bit(first: usize, second: usize) -> u64
    ensures { result ≡ bit first second }
{
    1 << (first % 8 * 8 + second % 8)
}

/// The sign of a word: a bit for each two letters of which one follows the other.
pub fn sign(word: &Word) -> u64
    ensures { result ≡ sign word.now }
{
    let mut bits = 0;
    for place in 0..word.len().saturating_sub(1) {
        bits |= bit(letter_at(word, place), letter_at(word, place + 1));
    }
    bits
}

impl Marks {
    /// The marks of a word.
    pub fn of(word: &Word) -> Marks
        ensures { result ≡ marks_of word.now }
    {
        Marks {
            first: key_of(letter_at(word, 0), letter_at(word, 1)),
            last: key_of(letter_before(word, 0), letter_before(word, 1)),
            letters: word.len(),
            sign: sign(word),
        }
    }
}
