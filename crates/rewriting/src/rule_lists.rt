// Lists of rewriting rules.
ghost use Rattle.std.specs.Prelude.{◌≡◌, ℕ, ◌<◌, ◌≤◌, false, [], ◌∷◌, ◌++◌, length, slice_index_or, slice_set, IfOk, OnOk, OnErr, IsTrue, ◌↔◌};
ghost use Rattle.theory.specs.Word.{IsOver};
ghost use Rattle.theory.specs.ShortLex.{◌≺◌};
ghost use Rattle.rewriting.specs.Rules.{AreFalling, AreOver, stands_in};
ghost use Rattle.rewriting.specs.Tries.{IsLeftLength, left_at};

use crate::factors::has_factor;
use ports::NoMemory;
use std::alloc::Global;
use std::marker::Model;
use words::Word;

/// A list of rewriting rules: pairs of words, the left side greater than the right in short-lex
/// order (libsemigroups, `KnuthBendix`).
#[derive(Drop)]
pub struct Rules {
    pub(crate) alloc: Global,
    pub(crate) items: Vec<(Word, Word)>,
}

impl Model for Rules {
    ghost use Rattle.std.specs.Prelude.{List};
    ghost use Rattle.theory.specs.Word.{Word as Letters};
    ghost use Rattle.rewriting.specs.Rules.{AreFalling};

    ghost Value = { List (Letters × Letters) };

    ghost view = { λ r. r.items.items };

    ghost invariant = { λ r. AreFalling r.items.items };
}

// One more than the greatest letter, or the number that is given, if that is greater.
fn letters_in(word: &Word, most: usize) -> usize
    requires { most ≤ 256 }
    ensures few { result ≤ 256 }
    ensures least { most ≤ result }
    ensures over { IsOver result word.now }
{
    let mut letters = most;
    for place in 0..word.len() {
        letters = letters.max(word.letter(place).number() + 1);
    }
    letters
}

// The sides of a rule in memory of their own.
fn copy_of(alloc: Global, rule: &(Word, Word)) -> Result<(Word, Word), NoMemory>
    ensures { IfOk result (λ r. r ≡ rule.now) }
{
    let left = rule.0.copy(alloc)?;
    let right = rule.1.copy(alloc)?;
    Ok((left, right))
}

impl Rules {
    /// The list without rules.
    pub fn new(alloc: Global) -> Rules
        ensures { result ≡ [] }
    {
        Rules {
            alloc,
            items: Vec::new(alloc),
        }
    }

    /// The list of these rules, in order, whose left sides are greater than their right sides. It
    /// takes no memory.
    pub fn from_vec(alloc: Global, rules: Vec<(Word, Word)>) -> Rules
        requires { AreFalling rules.items }
        ensures { result ≡ rules.items }
    {
        Rules {
            alloc,
            items: rules,
        }
    }

    /// The rules, in order. It takes no memory.
    pub fn into_vec(self) -> Vec<(Word, Word)>
        ensures rules { result.items ≡ self }
        ensures falling { AreFalling self }
    {
        self.items
    }

    /// How many rules there are. What holds of every list of rules is told here: left sides are
    /// greater than right sides.
    pub fn len(&self) -> usize
        ensures len { result ≡ length self.now }
        ensures falling { AreFalling self.now }
    {
        self.items.len()
    }

    /// Whether there is no rule.
    pub fn is_empty(&self) -> bool
        ensures { IsTrue result ↔ (self.now ≡ []) }
    {
        self.items.is_empty()
    }

    /// The rule at a place, from 0: its left side, and its right side. That left sides are greater
    /// than right sides is told here too.
    pub fn rule(&self, place: usize) -> &(Word, Word)
        requires { place < length self.now }
        ensures rule { result.now ≡ slice_index_or self.now place result.now }
        ensures falling { AreFalling self.now }
    {
        &self.items[place]
    }

    /// Puts a rule at the end. Its left side is greater than its right side. Refused only where
    /// memory is wanting, and then the list stays as it was.
    pub fn push(&mut self, left: Word, right: Word) -> Result<(), NoMemory>
        requires { right ≺ left }
        ensures ok { OnOk result (self.new ≡ self.old ++ (left, right) ∷ []) }
        ensures err { OnErr result (self.new ≡ self.old) }
    {
        self.items.push((left, right))?;
        Ok(())
    }

    /// Gives the rule at a place another right side, which is less than its left side.
    pub fn set_right(&mut self, place: usize, right: Word)
        requires within { place < length self.old }
        requires falls { right ≺ (slice_index_or self.old place ([], [])).0 }
        ensures { self.new ≡ slice_set self.old place
            ((slice_index_or self.old place ([], [])).0, right) }
    {
        let rule = &mut self.items[place];
        rule.1 = right;
    }

    /// The same rules in memory of their own. Refused only where memory is wanting.
    pub fn copy(&self, alloc: Global) -> Result<Rules, NoMemory>
        ensures { IfOk result (λ r. r ≡ self.now) }
    {
        let mut items = Vec::new(alloc);
        for rule in &self.items {
            let copied = copy_of(alloc, rule)?;
            items.push(copied)?;
        }
        Ok(Rules { alloc, items })
    }

    // How many letters the longest left side has.
    pub(crate) fn longest_left(&self) -> usize
        ensures most { (place : ℕ) → length (left_at self.now place) ≤ result }
        ensures reached { IsLeftLength self.now result }
    {
        let mut longest = 0;
        for place in 0..self.len() {
            longest = longest.max(self.rule(place).0.len());
        }
        longest
    }

    // Whether the word stands in a left side.
    pub(crate) fn has_in_left(&self, word: &Word) -> bool
        ensures { result ≡ false → (place : ℕ) → place < length self.now
            → stands_in word.now (left_at self.now place) ≡ false }
    {
        for place in 0..self.len() {
            if has_factor(&self.rule(place).0, word) {
                return true;
            }
        }
        false
    }

    // One more than the greatest letter of the rules.
    pub(crate) fn letters(&self) -> usize
        ensures few { result ≤ 256 }
        ensures over { AreOver result self.now }
    {
        let mut letters = 0;
        for rule in &self.items {
            letters = letters_in(&rule.0, letters);
            letters = letters_in(&rule.1, letters);
        }
        letters
    }
}
