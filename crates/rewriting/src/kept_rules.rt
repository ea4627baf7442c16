// Rules that change, and that are found by a table.
ghost use Rattle.std.specs.Prelude.{◌≡◌, ℕ, ◌<◌, ◌≤◌, false, [], ◌∷◌, ◌++◌, length, not, slice_index_or, slice_set, IfOk, OnOk, OnErr};
ghost use Rattle.std.specs.List.{filter};
ghost use Rattle.theory.specs.ShortLex.{◌≺◌};
ghost use Rattle.theory.specs.Completion.{IsReduced, Listed, Reduces};
ghost use Rattle.rewriting.specs.Rules.{AreFalling, stands_in};
ghost use Rattle.rewriting.specs.Tries.{IsLeftLength, left_at};
ghost use Rattle.rewriting.specs.Traces.{LeadBy};

use crate::factors::word_of;
use crate::lookups::Lookup;
use crate::reductions::{Reduction, begin};
use crate::rule_lists::Rules;
use crate::traces::{Applied, note};
use ports::NoMemory;
use std::alloc::Global;
use std::marker::Model;
use words::Word;

/// A list of rewriting rules that changes often. Words are reduced by the
/// [`IndexAutomaton`](crate::IndexAutomaton) of the rules that were there some time ago, and the
/// newer rules are found by the last letters of their left sides.
#[derive(Drop)]
pub struct KeptRules {
    rules: Rules,
    lookup: Lookup,
}

impl Model for KeptRules {
    ghost use Rattle.std.specs.Prelude.{List};
    ghost use Rattle.theory.specs.Word.{Word as Letters};
    ghost use Rattle.rewriting.specs.Lookups.{IsLookup};

    ghost Value = { List (Letters × Letters) };

    ghost view = { λ k. k.rules };

    ghost invariant = { λ k. IsLookup k.rules k.lookup };
}

impl KeptRules {
    /// The list without rules. It takes no memory.
    pub fn new(alloc: Global) -> KeptRules
        ensures { result ≡ [] }
    {
        KeptRules {
            rules: Rules::new(alloc),
            lookup: Lookup::new(alloc),
        }
    }

    /// How many rules there are. What holds of every list of rules is told here: left sides are
    /// greater than right sides.
    pub fn len(&self) -> usize
        ensures len { result ≡ length self.now }
        ensures falling { AreFalling self.now }
    {
        self.rules.len()
    }

    /// How many letters the longest left side has.
    pub fn longest_left(&self) -> usize
        ensures most { (place : ℕ) → place < length self.now
            → length (left_at self.now place) ≤ result }
        ensures reached { IsLeftLength self.now result }
    {
        self.rules.longest_left()
    }

    /// The rule at a place, from 0: its left side, and its right side. That left sides are greater
    /// than right sides is told here too.
    pub fn rule(&self, place: usize) -> &(Word, Word)
        requires { place < length self.now }
        ensures rule { result.now ≡ slice_index_or self.now place result.now }
        ensures falling { AreFalling self.now }
    {
        self.rules.rule(place)
    }

    /// The rules in memory of their own. Refused only where memory is wanting.
    pub fn copy(&self, alloc: Global) -> Result<Rules, NoMemory>
        ensures { IfOk result (λ r. r ≡ self.now) }
    {
        self.rules.copy(alloc)
    }

    /// Gives the rule at a place another right side, which is less than its left side.
    pub fn set_right(&mut self, place: usize, right: Word)
        requires within { place < length self.old }
        requires falls { right ≺ (slice_index_or self.old place ([], [])).0 }
        ensures { self.new ≡ slice_set self.old place
            ((slice_index_or self.old place ([], [])).0, right) }
    {
        self.rules.set_right(place, right);
    }

    /// Makes the table anew, of all rules. The list stays as it is. Refused only where memory is
    /// wanting.
    pub fn rebuild(&mut self) -> Result<(), NoMemory>
        ensures { self.new ≡ self.old }
    {
        self.lookup = Lookup::of(&self.rules)?;
        Ok(())
    }

    /// Takes out the rules in whose left sides that of a new rule stands, and puts the new rule at
    /// the end. Its left side is greater than its right side. What was taken out is given back, in
    /// order. Refused only where memory is wanting, and then no rule is left.
    pub fn add(&mut self, left: Word, right: Word) -> Result<Vec<(Word, Word)>, NoMemory>
        requires { right ≺ left }
        ensures kept { OnOk result
            (self.new ≡ filter (λ q. not (stands_in left q.0)) self.old ++ (left, right) ∷ []) }
        ensures gone { IfOk result (λ gone.
            gone.items ≡ filter (λ q. stands_in left q.0) self.old) }
        ensures none { OnErr result (self.new ≡ []) }
    {
        match self.lookup.put(&mut self.rules, left, right) {
            Ok(gone) => Ok(gone),
            Err(NoMemory) => {
                *self = KeptRules::new(self.rules.alloc);
                Err(NoMemory)
            }
        }
    }

    /// A word to which the rules lead from the word, and to which none applies, made in room that
    /// is kept from one word to the next. Refused only where memory is wanting.
    pub fn reduce_in(&self, room: &mut Reduction, word: &Word) -> Result<Word, NoMemory>
        ensures reached { IfOk result (λ w. Reduces (Listed self.now) word.now w) }
        ensures reduced { IfOk result (λ w. IsReduced (Listed self.now) w) }
    {
        let _count = self.rules.len();
        let alloc = self.rules.alloc;
        begin(room, word)?;
        while let Some(letter) = room.rest.pop() {
            let _applied = self.lookup.read_letter(&self.rules, word, room, letter)?;
        }
        word_of(alloc, room.done.as_slice())
    }

    /// The word to which the rules lead from the word, none of which applies to it, and the rules
    /// that were applied, one after another. Refused only where memory is wanting.
    pub fn reduce_traced(&self, word: &Word) -> Result<(Word, Vec<Applied>), NoMemory>
        ensures reached { IfOk result (λ r. Reduces (Listed self.now) word.now r.0) }
        ensures reduced { IfOk result (λ r. IsReduced (Listed self.now) r.0) }
        ensures traced { IfOk result (λ r. LeadBy self.now word.now r.1.items r.0) }
    {
        let _count = self.rules.len();
        let alloc = self.rules.alloc;
        let mut trace = Vec::new(alloc);
        let mut reduction = Reduction::new(alloc);
        begin(&mut reduction, word)?;
        while let Some(letter) = reduction.rest.pop() {
            let applied = self
                .lookup
                .read_letter(&self.rules, word, &mut reduction, letter)?;
            note(&mut trace, applied)?;
        }
        let reduced = word_of(alloc, reduction.done.as_slice())?;
        Ok((reduced, trace))
    }
}
