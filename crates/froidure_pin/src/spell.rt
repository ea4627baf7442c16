// Words from factors.
ghost use Rattle.std.specs.Prelude.{◌≡◌, ◌<◌, [], IfOk, length, reverse, slice_index_or};
ghost use Rattle.froidure_pin.specs.Found.{AreFactors, words_of};

use super::parts::Factor;
use ports::NoMemory;
use std::alloc::Global;
use words::{Letter, Word};

// The letters of the word of a number, the last first.
fn letters_back(
    alloc: Global,
    factors: &Vec<Factor>,
    number: usize,
) -> Result<Vec<Letter>, NoMemory>
    requires factors { AreFactors 256 factors.now.items }
    requires within { number < length factors.now.items }
    ensures { IfOk result (λ back. reverse back.items
        ≡ slice_index_or (words_of factors.now.items) number []) }
{
    let mut back = Vec::new(alloc);
    let mut at = number + 1;
    while at > 0 {
        let factor = factors[at - 1];
        back.push(Letter::new(factor.last as u8))?;
        at = factor.prefix as usize;
    }
    Ok(back)
}

// The word of letters, of which the last comes first.
fn turned_round(alloc: Global, mut back: Vec<Letter>) -> Result<Word, NoMemory>
    ensures { IfOk result (λ word. word ≡ reverse back.items) }
{
    let mut word = Word::new(alloc);
    while let Some(letter) = back.pop() {
        word.push(letter)?;
    }
    Ok(word)
}

// The word of a number.
pub(crate) fn spell(alloc: Global, factors: &Vec<Factor>, number: usize) -> Result<Word, NoMemory>
    requires factors { AreFactors 256 factors.now.items }
    requires within { number < length factors.now.items }
    ensures { IfOk result (λ word. word ≡ slice_index_or (words_of factors.now.items) number []) }
{
    let back = letters_back(alloc, factors, number)?;
    turned_round(alloc, back)
}
