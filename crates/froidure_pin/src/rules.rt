// Reduced rules.
ghost use Rattle.std.specs.Prelude.{◌≡◌, ◌+◌, ◌*◌, ◌/◌, ◌%◌, ◌<◌, ◌≤◌, [], ◌∷◌, ◌++◌, length, List, ℕ, slice_index, if◌then◌else◌, ◌==◌, OnOk, IfOk};
ghost use Rattle.froidure_pin.specs.Found.{AreFactors, entry, parent, words_of};
ghost use Rattle.froidure_pin.specs.Rules.{AreProducts, AreSuffixes, is_product, is_rule, rules_at, rules_to};

use super::parts::Factor;
use super::rows::entry;
use super::spell::spell;
use ports::NoMemory;
use std::alloc::Global;
use words::{Letter, Word};

// The words of a table, and the numbers of their products by each letter on the right.
#[derive(Clone, Copy)]
pub(crate) struct Products<'a> {
    pub(crate) letters: usize,
    pub(crate) factors: &'a Vec<Factor>,
    pub(crate) right: &'a Vec<u32>,
}

// Whether the word of a number is a parent with a letter.
pub(crate) fn is_product(factors: &Vec<Factor>, number: usize, parent: usize, letter: usize) -> bool
    requires { number < length factors.now.items }
    ensures { result ≡ is_product factors.now.items number parent letter }
{
    let factor = factors[number];
    factor.prefix as usize == parent && factor.last as usize == letter
}

// The word of a parent.
fn parent_word(alloc: Global, factors: &Vec<Factor>, before: usize) -> Result<Word, NoMemory>
    requires factors { AreFactors 256 factors.now.items }
    requires within { before ≤ length factors.now.items }
    ensures { IfOk result (λ word. word ≡ parent (words_of factors.now.items) before) }
{
    if before == 0 {
        return Ok(Word::new(alloc));
    }
    spell(alloc, factors, before - 1)
}

// The word of a parent with a letter.
fn product_word(
    alloc: Global,
    factors: &Vec<Factor>,
    before: usize,
    letter: usize,
) -> Result<Word, NoMemory>
    requires factors { AreFactors 256 factors.now.items }
    requires within { before ≤ length factors.now.items }
    requires few { letter < 256 }
    ensures { IfOk result (λ word.
        word ≡ parent (words_of factors.now.items) before ++ letter ∷ []) }
{
    let mut word = parent_word(alloc, factors, before)?;
    word.push(Letter::new(letter as u8))?;
    Ok(word)
}

impl<'a> Products<'a> {
    // The parent that is left of a word without its first letter.
    fn suffix_of(&self, suffixes: &Vec<usize>, factor: Factor) -> usize
        requires letter { factor.last < self.now.letters }
        requires parent { factor.prefix < length suffixes.now.items }
        requires product { slice_index suffixes.now.items factor.prefix * self.now.letters
            + factor.last < length self.now.right.now.items }
        requires few { entry self.now.letters self.now.right.now.items
            (slice_index suffixes.now.items factor.prefix) factor.last
            < length self.now.right.now.items }
        ensures { result ≡ (if factor.prefix == 0 then 0 else entry self.now.letters
            self.now.right.now.items (slice_index suffixes.now.items factor.prefix)
            factor.last + 1) }
    {
        if factor.prefix == 0 {
            return 0;
        }
        let suffix = suffixes[factor.prefix as usize];
        entry(self.right, self.letters, suffix, factor.last as usize) + 1
    }

    // The parents that are left of the words without their first letters.
    fn suffixes(&self, alloc: Global) -> Result<Vec<usize>, NoMemory>
        requires { AreProducts self.now.letters self.now.factors.now.items
            self.now.right.now.items }
        ensures { IfOk result (λ suffixes. AreSuffixes self.now.letters self.now.factors.now.items
            self.now.right.now.items suffixes.items (length self.now.factors.now.items)) }
    {
        let mut suffixes = Vec::new(alloc);
        suffixes.push(0)?;
        for number in 0..self.factors.len() {
            let suffix = self.suffix_of(&suffixes, self.factors[number]);
            suffixes.push(suffix)?;
        }
        Ok(suffixes)
    }

    // Whether a product is the left side of a rule: no word, while it is one without its first
    // letter.
    fn is_rule(&self, suffixes: &Vec<usize>, place: usize) -> bool
        requires products { AreProducts self.now.letters self.now.factors.now.items
            self.now.right.now.items }
        requires suffixes { AreSuffixes self.now.letters self.now.factors.now.items
            self.now.right.now.items suffixes.now.items (length self.now.factors.now.items) }
        requires within { place < length self.now.right.now.items }
        ensures { result ≡ is_rule self.now.letters self.now.factors.now.items
            self.now.right.now.items suffixes.now.items place }
    {
        let parent = place / self.letters;
        let letter = place % self.letters;
        if is_product(self.factors, self.right[place] as usize, parent, letter) {
            return false;
        }
        if parent == 0 {
            return true;
        }
        let suffix = suffixes[parent];
        let rest = entry(self.right, self.letters, suffix, letter);
        is_product(self.factors, rest, suffix, letter)
    }

    // Adds the rule at a place, where there is one.
    fn add_rule(
        &self,
        alloc: Global,
        suffixes: &Vec<usize>,
        place: usize,
        rules: &mut Vec<(Word, Word)>,
    ) -> Result<(), NoMemory>
        requires products { AreProducts self.now.letters self.now.factors.now.items
            self.now.right.now.items }
        requires suffixes { AreSuffixes self.now.letters self.now.factors.now.items
            self.now.right.now.items suffixes.now.items (length self.now.factors.now.items) }
        requires within { place < length self.now.right.now.items }
        ensures { OnOk result (rules.new.items ≡ rules.old.items
            ++ rules_at self.now.letters self.now.factors.now.items self.now.right.now.items
            suffixes.now.items place) }
    {
        if !self.is_rule(suffixes, place) {
            return Ok(());
        }
        let (before, letter) = (place / self.letters, place % self.letters);
        let reducible = product_word(alloc, self.factors, before, letter)?;
        let normal = spell(alloc, self.factors, self.right[place] as usize)?;
        rules.push((reducible, normal))?;
        Ok(())
    }

    // All rules.
    pub(crate) fn rules(&self, alloc: Global) -> Result<Vec<(Word, Word)>, NoMemory>
        requires { AreProducts self.now.letters self.now.factors.now.items
            self.now.right.now.items }
        ensures { IfOk result (λ rules. (suffixes : List ℕ)
            × AreSuffixes self.now.letters self.now.factors.now.items self.now.right.now.items
            suffixes (length self.now.factors.now.items)
            × (rules.items ≡ rules_to self.now.letters self.now.factors.now.items
            self.now.right.now.items suffixes (length self.now.right.now.items))) }
    {
        let suffixes = self.suffixes(alloc)?;
        let mut rules = Vec::new(alloc);
        for place in 0..self.right.len() {
            self.add_rule(alloc, &suffixes, place, &mut rules)?;
        }
        Ok(rules)
    }
}
