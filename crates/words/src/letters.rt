// Letters and words.
ghost use Rattle.std.specs.Prelude.{◌≡◌, ℕ, ◌<◌, ◌≤◌, List, [], ◌∷◌, ◌++◌, fold, length, nat_eq, reverse, slice_get, slice_range, take, IfOk, OnOk, OnErr, IsTrue, ◌↔◌};
ghost use Rattle.std.specs.Cmp as Cmp;
ghost use Rattle.std.specs.Cmp.Lexicographic.{pointwise, nat_list_eq_equiv};
ghost use Rattle.words.specs.Pieces.{letters_hash, same_letters_hash};

use ports::NoMemory;
use std::alloc::Global;
use std::hash::{Hash, Hasher};
use std::marker::Model;

// So many letters are hashed in one piece.
const PIECE: usize = 32;

/// A letter: the number of its place in its alphabet, from 0 (libsemigroups, `letter_type`).
#[derive(Clone, Copy, Debug, PartialEq, Eq, PartialOrd, Ord)]
pub struct Letter {
    number: u8,
}

impl Model for Letter {
    ghost use Rattle.std.specs.Prelude.{ℕ};

    ghost Value = { ℕ };

    ghost view = { λ l. l.number };

    ghost inverse = { λ n. record { number = n } };
}

impl Letter {
    /// The letter of this number.
    pub fn new(number: u8) -> Letter
        ensures { result ≡ number }
    {
        Letter { number }
    }

    /// The number of the letter.
    pub fn number(self) -> usize
        ensures { result ≡ self }
    {
        usize::from(self.number)
    }
}

/// A word: a list of letters, a byte each (libsemigroups, `word_type`).
#[derive(Drop)]
pub struct Word {
    letters: Vec<Letter>,
}

impl Model for Word {
    ghost use Rattle.std.specs.Prelude.{List, ℕ};

    ghost Value = { List ℕ };

    ghost view = { λ w. w.letters.items };
}

impl Word {
    /// The empty word.
    pub fn new(alloc: Global) -> Word
        ensures { result ≡ [] }
    {
        Word {
            letters: Vec::new(alloc),
        }
    }

    /// The empty word, with room for so many letters. Refused only where memory is wanting.
    pub fn with_capacity(alloc: Global, letters: usize) -> Result<Word, NoMemory>
        ensures { IfOk result (λ w. w ≡ []) }
    {
        Ok(Word {
            letters: Vec::with_capacity(alloc, letters)?,
        })
    }

    /// How many letters the word has.
    pub fn len(&self) -> usize
        ensures { result ≡ length self.now }
    {
        self.letters.len()
    }

    /// Whether the word has no letter.
    pub fn is_empty(&self) -> bool
        ensures { IsTrue result ↔ (self.now ≡ []) }
    {
        self.letters.is_empty()
    }

    /// The letter at a place of the word, from 0.
    pub fn letter(&self, place: usize) -> Letter
        requires { place < length self.now }
        ensures { slice_get self.now place ≡ Some result }
    {
        self.letters[place]
    }

    /// Puts a letter at the end. Refused only where memory is wanting, and then the word stays as
    /// it was.
    pub fn push(&mut self, letter: Letter) -> Result<(), NoMemory>
        ensures ok { OnOk result (self.new ≡ self.old ++ letter ∷ []) }
        ensures err { OnErr result (self.new ≡ self.old) }
    {
        self.letters.push(letter)?;
        Ok(())
    }

    /// Puts letters at the end, in order. Refused only where memory is wanting, and then the word
    /// stays as it was.
    pub fn append(&mut self, letters: &[Letter]) -> Result<(), NoMemory>
        ensures ok { OnOk result (self.new ≡ self.old ++ letters.now) }
        ensures err { OnErr result (self.new ≡ self.old) }
    {
        self.letters.extend_from_slice(letters)?;
        Ok(())
    }

    /// Takes all letters out, and keeps the room that they had.
    pub fn clear(&mut self)
        ensures { self.new ≡ [] }
    {
        self.letters.clear();
    }

    /// The letters, in order.
    pub fn letters(&self) -> &[Letter]
        ensures { result.now ≡ self.now }
    {
        self.letters.as_slice()
    }

    /// Puts the letters from one place up to another at the end. Refused only where memory is
    /// wanting.
    pub fn append_within(&mut self, start: usize, end: usize) -> Result<(), NoMemory>
        requires ordered { start ≤ end }
        requires within { end ≤ length self.old }
        ensures { OnOk result (self.new ≡ self.old ++ slice_range self.old start end) }
    {
        self.letters.extend_from_within(start..end)?;
        Ok(())
    }

    /// The same word in memory of its own. Refused only where memory is wanting.
    pub fn copy(&self, alloc: Global) -> Result<Word, NoMemory>
        ensures { IfOk result (λ w. w ≡ self.now) }
    {
        let letters = Vec::from_slice(alloc, self.letters.as_slice())?;
        Ok(Word { letters })
    }

    /// The word read from right to left (libsemigroups, `reverse`). Refused only where memory is
    /// wanting.
    pub fn reversed(&self, alloc: Global) -> Result<Word, NoMemory>
        ensures { IfOk result (λ w. w ≡ reverse self.now) }
    {
        let mut letters = Vec::from_slice(alloc, self.letters.as_slice())?;
        letters.reverse();
        Ok(Word { letters })
    }

    /// The letters of this word and then those of the other: their product in the free monoid.
    /// Refused only where memory is wanting.
    pub fn concat(&self, alloc: Global, other: &Word) -> Result<Word, NoMemory>
        ensures { IfOk result (λ w. w ≡ self.now ++ other.now) }
    {
        let mut letters = Vec::from_slice(alloc, self.letters.as_slice())?;
        letters.extend_from_slice(other.letters.as_slice())?;
        Ok(Word { letters })
    }
}

impl PartialEq for Word {
    ghost eq = { pointwise nat_eq };

    ghost laws = { Cmp.partial_equiv_from_equiv nat_list_eq_equiv };

    fn eq(&self, other: &Word) -> bool {
        self.letters == other.letters
    }
}

impl Eq for Word {
    ghost laws = { nat_list_eq_equiv };
}

// Hashes the first letters, as many as a piece has, as bytes.
fn hash_piece<H: Hasher>(letters: &[Letter], state: &mut H)
    ensures { state.new ≡ H.write state.old (take 32 letters.now) }
{
    let mut bytes = [0; PIECE];
    let count = letters.len().min(PIECE);
    for place in 0..count {
        let letter = letters[place];
        bytes[place] = letter.number;
    }
    state.write(&bytes[..count]);
}

// Hashes the letters, piece by piece.
fn hash_letters<H: Hasher>(letters: &[Letter], state: &mut H)
    ensures { state.new ≡ fold H.write state.old (letters_hash letters.now) }
{
    for piece in 0..letters.len() / PIECE + 1 {
        hash_piece(&letters[piece * PIECE..], state);
    }
}

impl Hash for Word {
    ghost hash_input = { letters_hash };

    ghost respects_eq = { same_letters_hash };

    fn hash<H: Hasher>(&self, state: &mut H) {
        hash_letters(self.letters.as_slice(), state);
    }
}
