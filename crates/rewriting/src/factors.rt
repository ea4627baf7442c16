// The word of letters, and factors of words.
ghost use Rattle.std.specs.Prelude.{◌≡◌, ◌+◌, ◌<◌, ◌≤◌, drop, eqb, length, IfOk, IsTrue, ◌↔◌};
ghost use Rattle.std.specs.List.{starts_with};
ghost use Rattle.theory.specs.Word.{IsFactor};

use ports::NoMemory;
use std::alloc::Global;
use words::{Letter, Word};

// The word of the letters.
pub(crate) fn word_of(alloc: Global, letters: &[Letter]) -> Result<Word, NoMemory>
    ensures { IfOk result (λ w. w ≡ letters.now) }
{
    let mut word = Word::with_capacity(alloc, letters.len())?;
    word.append(letters)?;
    Ok(word)
}

// Whether the word stands in the letters at the place.
fn stands_at(letters: &[Letter], place: usize, word: &[Letter]) -> bool
    requires some { 0 < length word.now }
    requires within { place + length word.now ≤ length letters.now }
    ensures { result ≡ starts_with eqb (drop place letters.now) word.now }
{
    letters[place] == word[0] && letters[place..].starts_with(word)
}

/// Whether the factor stands somewhere in the word. It takes no memory.
pub fn has_factor(word: &Word, factor: &Word) -> bool
    ensures { IsTrue result ↔ IsFactor factor.now word.now }
{
    if factor.is_empty() {
        return true;
    }
    let letters = word.letters();
    let sought = factor.letters();
    if letters.len() < sought.len() {
        return false;
    }
    for place in 0..letters.len() - sought.len() + 1 {
        if stands_at(letters, place, sought) {
            return true;
        }
    }
    false
}
