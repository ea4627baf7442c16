// Rules that change, with an index of their sides.
ghost use Rattle.std.specs.Prelude.{◌≡◌, ℕ, ◌<◌, ◌≤◌, true, false, [], ◌∷◌, ◌++◌, List, length, not, reverse, slice_index_or, slice_set, IfOk, OnOk, OnErr, IsTrue, ◌↔◌};
ghost use Rattle.std.specs.Int.Bits.{bit_or};
ghost use Rattle.std.specs.List.{filter};
ghost use Rattle.theory.specs.Word.{IsFactor, Word as Letters};
ghost use Rattle.theory.specs.ShortLex.{◌≺◌};
ghost use Rattle.theory.specs.Completion.{IsReduced, Listed, Reduces};
ghost use Rattle.rewriting.specs.Rules.{AreFalling, stands_in};
ghost use Rattle.rewriting.specs.Traces.{LeadBy};
ghost use Rattle.rewriting.specs.Tries.{left_at};
ghost use Rattle.knuth_bendix.specs.Marks.{AreSharesOf, IsIndexOf, marks_of, sign};
ghost use Rattle.knuth_bendix.specs.Overlaps.{rule_at};

use crate::lengths::Lengths;
use crate::marks::{Marks, sign};
use crate::shares::Shares;
use ports::NoMemory;
use rewriting::{Applied, KeptRules, Reduction, Rules};
use std::alloc::Global;
use std::marker::Model;
use words::Word;

/// The marks of all left sides and the signs of all right sides, in order.
#[derive(Drop)]
pub struct Index {
    lefts: Vec<Marks>,
    rights: Vec<u64>,
}

/// A list of rewriting rules that changes often, and an index of their sides. Most rules that a new
/// one does not touch are passed over by the index alone.
#[derive(Drop)]
pub struct IndexedRules {
    alloc: Global,
    kept: KeptRules,
    index: Index,
}

/// Two rules by their places, and how many letters the end of the left side of the first and the
/// beginning of that of the second share.
#[derive(Clone, Copy)]
pub struct Sharing {
    pub first: usize,
    pub second: usize,
    pub shared: usize,
}

impl Model for IndexedRules {
    ghost use Rattle.std.specs.Prelude.{List};
    ghost use Rattle.theory.specs.Word.{Word as Letters};
    ghost use Rattle.knuth_bendix.specs.Marks.{IsIndexOf};

    ghost Value = { List (Letters × Letters) };

    ghost view = { λ r. r.kept };

    ghost invariant = { λ r. IsIndexOf r.kept r.index };
}

impl Index {
    // The index of no rule. It takes no memory.
    fn new(alloc: Global) -> Index
        ensures { IsIndexOf [] result }
    {
        Index {
            lefts: Vec::new(alloc),
            rights: Vec::new(alloc),
        }
    }

    // Puts a rule at the end.
    fn push(&mut self, rule: &(Word, Word)) -> Result<(), NoMemory>
        ensures { OnOk result ((rules : List (Letters × Letters)) → IsIndexOf rules self.old
            → IsIndexOf (rules ++ rule.now ∷ []) self.new) }
    {
        self.lefts.push(Marks::of(&rule.0))?;
        self.rights.push(sign(&rule.1))?;
        Ok(())
    }

    // The index of the rules.
    fn of(alloc: Global, rules: &KeptRules) -> Result<Index, NoMemory>
        ensures { IfOk result (IsIndexOf rules.now) }
    {
        let mut index = Index::new(alloc);
        for place in 0..rules.len() {
            index.push(rules.rule(place))?;
        }
        Ok(index)
    }

    // Brings the index up to date, of which it is given whether the last rule alone is new.
    fn renew(&mut self, alloc: Global, rules: &KeptRules, one_more: bool) -> Result<(), NoMemory>
        requires { one_more ≡ true → (others : List (Letters × Letters))
            × (last : Letters × Letters) × (rules.now ≡ others ++ last ∷ [])
            × IsIndexOf others self.old }
        ensures { OnOk result (IsIndexOf rules.now self.new) }
    {
        if one_more {
            self.push(rules.rule(rules.len() - 1))?;
        } else {
            *self = Index::of(alloc, rules)?;
        }
        Ok(())
    }

    // Gives the rule at a place another right side.
    fn set_right(&mut self, place: usize, right: &Word)
        requires { place < length self.old.rights.items }
        ensures { (rules : List (Letters × Letters)) → IsIndexOf rules self.old
            → IsIndexOf (slice_set rules place ((rule_at rules place).0, right.now)) self.new }
    {
        self.rights[place] = sign(right);
    }
}

// Whether each bit of the other number is one of the number.
#[inline(always)]
fn takes_up(bits: u64, other: u64) -> bool
    ensures { IsTrue result ↔ (bit_or bits other ≡ bits) }
{
    bits | other == bits
}

impl IndexedRules {
    /// The list without rules. It takes no memory.
    pub fn new(alloc: Global) -> IndexedRules
        ensures { result ≡ [] }
    {
        IndexedRules {
            alloc,
            kept: KeptRules::new(alloc),
            index: Index::new(alloc),
        }
    }

    /// How many rules there are. What holds of every list of rules is told here: left sides are
    /// greater than right sides.
    pub fn len(&self) -> usize
        ensures len { result ≡ length self.now }
        ensures falling { AreFalling self.now }
    {
        self.kept.len()
    }

    /// How many letters the longest left side has.
    pub fn longest_left(&self) -> usize
        ensures { (place : ℕ) → place < length self.now
            → length (left_at self.now place) ≤ result }
    {
        self.kept.longest_left()
    }

    /// The rule at a place, from 0: its left side, and its right side. That left sides are greater
    /// than right sides is told here too.
    pub fn rule(&self, place: usize) -> &(Word, Word)
        requires { place < length self.now }
        ensures rule { result.now ≡ slice_index_or self.now place result.now }
        ensures falling { AreFalling self.now }
    {
        self.kept.rule(place)
    }

    /// The marks of the left side of the rule at a place.
    pub fn marks(&self, place: usize) -> Marks
        requires { place < length self.now }
        ensures { result ≡ marks_of (rule_at self.now place).0 }
    {
        self.index.lefts[place]
    }

    /// What the end of the left side of the rule at a place may share, in words of such lengths.
    pub fn shares_ahead(&self, place: usize, lengths: Lengths) -> Shares
        requires { place < length self.now }
        ensures shares { AreSharesOf (rule_at self.now place).0 result }
        ensures lengths { result.lengths ≡ lengths }
    {
        Shares::of(&self.kept.rule(place).0, lengths)
    }

    /// The same of the left side read from its end. Refused only where memory is wanting.
    pub fn shares_behind(&self, place: usize, lengths: Lengths) -> Result<Shares, NoMemory>
        requires { place < length self.now }
        ensures shares { IfOk result (AreSharesOf (reverse (rule_at self.now place).0)) }
        ensures lengths { IfOk result (λ s. s.lengths ≡ lengths) }
    {
        let reversed = self.kept.rule(place).0.reversed(self.alloc)?;
        Ok(Shares::of(&reversed, lengths))
    }

    // The sign of the right side of the rule at a place.
    #[inline(always)]
    fn right_sign(&self, place: usize) -> u64
        requires { place < length self.now }
        ensures { result ≡ sign (rule_at self.now place).1 }
    {
        self.index.rights[place]
    }

    /// Whether the left side of a rule may stand in the right side of a rule, by their places.
    #[inline(always)]
    pub fn may_stand_in_right(&self, left: usize, right: usize) -> bool
        requires left { left < length self.now }
        requires right { right < length self.now }
        ensures { result ≡ false
            → IsFactor (rule_at self.now left).0 (rule_at self.now right).1 → ⊥ }
    {
        takes_up(self.right_sign(right), self.marks(left).sign)
    }

    /// A word to which the rules lead from the word, and to which none applies, made in room that
    /// is kept from one word to the next. Refused only where memory is wanting.
    pub fn reduce_in(&self, room: &mut Reduction, word: &Word) -> Result<Word, NoMemory>
        ensures reached { IfOk result (λ w. Reduces (Listed self.now) word.now w) }
        ensures reduced { IfOk result (λ w. IsReduced (Listed self.now) w) }
    {
        self.kept.reduce_in(room, word)
    }

    /// The word to which the rules lead from the word, none of which applies to it, and the rules
    /// that were applied, one after another. Refused only where memory is wanting.
    pub fn reduce_traced(&self, word: &Word) -> Result<(Word, Vec<Applied>), NoMemory>
        ensures reached { IfOk result (λ r. Reduces (Listed self.now) word.now r.0) }
        ensures reduced { IfOk result (λ r. IsReduced (Listed self.now) r.0) }
        ensures traced { IfOk result (λ r. LeadBy self.now word.now r.1.items r.0) }
    {
        self.kept.reduce_traced(word)
    }

    /// The rules in memory of their own. Refused only where memory is wanting.
    pub fn copy(&self, alloc: Global) -> Result<Rules, NoMemory>
        ensures { IfOk result (λ r. r ≡ self.now) }
    {
        self.kept.copy(alloc)
    }

    /// Gives the rule at a place another right side, which is less than its left side.
    pub fn set_right(&mut self, place: usize, right: Word)
        requires within { place < length self.old }
        requires falls { right ≺ (slice_index_or self.old place ([], [])).0 }
        ensures { self.new ≡ slice_set self.old place
            ((slice_index_or self.old place ([], [])).0, right) }
    {
        self.index.set_right(place, &right);
        self.kept.set_right(place, right);
    }

    /// Makes what words are reduced by anew. The list stays as it is. Refused only where memory is
    /// wanting.
    pub fn rebuild(&mut self) -> Result<(), NoMemory>
        ensures { self.new ≡ self.old }
    {
        self.kept.rebuild()?;
        Ok(())
    }

    /// Takes out the rules in whose left sides that of a new rule stands, and puts the new rule at
    /// the end. Its left side is greater than its right side. What was taken out is given back, in
    /// order. Refused only where memory is wanting, and then no rule is left.
    pub fn add(&mut self, left: Word, right: Word) -> Result<Vec<(Word, Word)>, NoMemory>
        requires { right ≺ left }
        ensures kept { OnOk result
            (self.new ≡ filter (λ q. not (stands_in left q.0)) self.old ++ (left, right) ∷ []) }
        ensures gone { IfOk result (λ gone.
            gone.items ≡ filter (λ q. stands_in left q.0) self.old) }
        ensures none { OnErr result (self.new ≡ []) }
    {
        if let Ok(gone) = self.kept.add(left, right) {
            let one_more = gone.is_empty();
            if let Ok(()) = self.index.renew(self.alloc, &self.kept, one_more) {
                return Ok(gone);
            }
        }
        *self = IndexedRules::new(self.alloc);
        Err(NoMemory)
    }
}
