// Relations by which a letter is an identity or a zero, or letters are inverse.
ghost use Rattle.std.specs.Prelude.{◌≡◌, ◌≢◌, ℕ, ◌<◌, ◌≤◌, ◌+◌, ◌↔◌, Bool, false, List, [], ◌∷◌, ◌++◌, length, Option, None, option_to_list, IfOk, IfSome, OnOk, OnErr, IsTrue};
ghost use Rattle.theory.specs.Congruence.{AreElements};
ghost use Rattle.presentation.specs.Presented.{with_more};
ghost use Rattle.presentation.specs.Added.{both_products, identity_relations, zero_relations, inverse_relations};

use crate::fault::AddFault;
use crate::pair_lists::Pairs;
use crate::presentations::{MOST_RELATIONS, Presentation};
use ports::NoMemory;
use std::alloc::Global;
use words::{Letter, Word};

// The product of two letters.
fn product(alloc: Global, x: Letter, y: Letter) -> Result<Word, NoMemory>
    ensures { IfOk result (λ word. word ≡ x ∷ y ∷ []) }
{
    let mut word = Word::new(alloc);
    word.push(x)?;
    word.push(y)?;
    Ok(word)
}

// The word of the letter, or the empty word.
fn short_word(alloc: Global, letter: Option<Letter>) -> Result<Word, NoMemory>
    ensures { IfOk result (λ word. word ≡ option_to_list letter) }
{
    let mut word = Word::new(alloc);
    if let Some(letter) = letter {
        word.push(letter)?;
    }
    Ok(word)
}

// Puts the relation at the end by which the product of two letters is a word.
fn push_product(pairs: &mut Pairs, x: Letter, y: Letter, word: &Word) -> Result<(), NoMemory>
    ensures { OnOk result (pairs.new ≡ pairs.old ++ (x ∷ y ∷ [], word.now) ∷ []) }
{
    let alloc = pairs.allocator();
    let left = product(alloc, x, y)?;
    let right = word.copy(alloc)?;
    pairs.push(left, right)?;
    Ok(())
}

// Puts the relations at the end by which both products of two letters are a word.
fn push_both(pairs: &mut Pairs, x: Letter, y: Letter, word: &Word) -> Result<(), NoMemory>
    ensures { OnOk result (pairs.new ≡ pairs.old ++ both_products x y word.now) }
{
    push_product(pairs, x, y, word)?;
    if x.number() != y.number() {
        push_product(pairs, y, x, word)?;
    }
    Ok(())
}

// How many relations make one of the letters an identity, or a zero.
fn relations_with(letters: usize, letter: Letter) -> usize
    requires within { letter < letters }
    requires few { letters ≤ 256 }
    ensures identity { result ≡ length (identity_relations letters letter) }
    ensures zero { result ≡ length (zero_relations letters letter) }
    ensures at_most { result ≤ 511 }
{
    2 * letters - 1
}

// The relations of an identity.
fn identity_relations(alloc: Global, letters: usize, e: Letter) -> Result<Pairs, NoMemory>
    requires { letters ≤ 256 }
    ensures { IfOk result (λ pairs. pairs ≡ identity_relations letters e) }
{
    let mut pairs = Pairs::new(alloc);
    for number in 0..letters {
        let x = Letter::new(number as u8);
        let word = short_word(alloc, Some(x))?;
        push_both(&mut pairs, x, e, &word)?;
    }
    Ok(pairs)
}

// The relations of a zero.
fn zero_relations(alloc: Global, letters: usize, z: Letter) -> Result<Pairs, NoMemory>
    requires { letters ≤ 256 }
    ensures { IfOk result (λ pairs. pairs ≡ zero_relations letters z) }
{
    let zero = short_word(alloc, Some(z))?;
    let mut pairs = Pairs::new(alloc);
    for number in 0..letters {
        push_both(&mut pairs, Letter::new(number as u8), z, &zero)?;
    }
    Ok(pairs)
}

// The relations of inverse letters.
fn inverse_relations(
    alloc: Global,
    x: Letter,
    y: Letter,
    e: Option<Letter>,
) -> Result<Pairs, NoMemory>
    ensures { IfOk result (λ pairs. pairs ≡ inverse_relations x y e) }
{
    let unit = short_word(alloc, e)?;
    let mut pairs = Pairs::new(alloc);
    push_both(&mut pairs, x, y, &unit)?;
    Ok(pairs)
}

impl Presentation {
    /// Puts the relations at the end by which the letter `e` is an identity: for each letter `x` in
    /// order `xe = x` and, for `x` other than `e`, `ex = x`. Refused with `TooMany` exactly where
    /// there would be more than [`MOST_RELATIONS`] relations; with `NoMemory` only where that is
    /// not so. After a refusal the presentation is as it was.
    pub fn add_identity(&mut self, e: Letter) -> Result<(), AddFault>
        requires { e < self.old.presentation.letters }
        ensures ok { OnOk result (self.new
            ≡ with_more self.old (identity_relations self.old.presentation.letters e)) }
        ensures too_many { (result ≡ Err AddFault.TooMany)
            ↔ (MOST_RELATIONS < length self.old.presentation.relations
            + length (identity_relations self.old.presentation.letters e)) }
        ensures empty_word { result ≢ Err AddFault.EmptyWord }
        ensures err { OnErr result (self.new ≡ self.old) }
    {
        let letters = self.letters();
        if !self.has_room(relations_with(letters, e)) {
            return Err(AddFault::TooMany);
        }
        let more = identity_relations(self.relations().allocator(), letters, e)?;
        self.append(more)?;
        Ok(())
    }

    /// Puts the relations at the end by which the letter `z` is a zero: for each letter `x` in
    /// order `xz = z` and, for `x` other than `z`, `zx = z`. Refused with `TooMany` exactly where
    /// there would be more than [`MOST_RELATIONS`] relations; with `NoMemory` only where that is
    /// not so. After a refusal the presentation is as it was.
    pub fn add_zero(&mut self, z: Letter) -> Result<(), AddFault>
        requires { z < self.old.presentation.letters }
        ensures ok { OnOk result (self.new
            ≡ with_more self.old (zero_relations self.old.presentation.letters z)) }
        ensures too_many { (result ≡ Err AddFault.TooMany)
            ↔ (MOST_RELATIONS < length self.old.presentation.relations
            + length (zero_relations self.old.presentation.letters z)) }
        ensures empty_word { result ≢ Err AddFault.EmptyWord }
        ensures err { OnErr result (self.new ≡ self.old) }
    {
        let letters = self.letters();
        if !self.has_room(relations_with(letters, z)) {
            return Err(AddFault::TooMany);
        }
        let more = zero_relations(self.relations().allocator(), letters, z)?;
        self.append(more)?;
        Ok(())
    }

    /// Puts the relations at the end by which the letters `x` and `y` are inverse: `xy = 1` and,
    /// where they differ, `yx = 1`, with the letter `e` for the empty word 1 if it is given.
    /// Refused with `EmptyWord` exactly where it is not given and this is no monoid, and else with
    /// `TooMany` exactly where there would be more than [`MOST_RELATIONS`] relations; with
    /// `NoMemory` only where neither is so. After a refusal the presentation is as it was.
    pub fn add_inverse(&mut self, x: Letter, y: Letter, e: Option<Letter>) -> Result<(), AddFault>
        requires left { x < self.old.presentation.letters }
        requires right { y < self.old.presentation.letters }
        requires unit { IfSome e (λ e. e < self.old.presentation.letters) }
        ensures ok { OnOk result (self.new ≡ with_more self.old (inverse_relations x y e)) }
        ensures empty_word { (result ≡ Err AddFault.EmptyWord)
            ↔ ((e ≡ None) × (self.old.presentation.is_monoid ≡ false)) }
        ensures too_many { (result ≡ Err AddFault.TooMany)
            ↔ (¬ ((e ≡ None) × (self.old.presentation.is_monoid ≡ false))
            × (MOST_RELATIONS < length self.old.presentation.relations
            + length (inverse_relations x y e))) }
        ensures err { OnErr result (self.new ≡ self.old) }
    {
        if e.is_none() && !self.is_monoid() {
            return Err(AddFault::EmptyWord);
        }
        let count = if x.number() == y.number() { 1 } else { 2 };
        if !self.has_room(count) {
            return Err(AddFault::TooMany);
        }
        let more = inverse_relations(self.relations().allocator(), x, y, e)?;
        self.append(more)?;
        Ok(())
    }
}
