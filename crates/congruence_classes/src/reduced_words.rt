// Answers from the reduced words of the rules of a completion.
ghost use Rattle.std.specs.Prelude.{◌≡◌, ◌↔◌, ℕ, true, IfOk, IsTrue, MatchOption};
ghost use Rattle.std.specs.Option.{option_copied};
ghost use Rattle.theory.specs.Word.{IsElement};
ghost use Rattle.theory.specs.ShortLex.{◌≺◌};
ghost use Rattle.theory.specs.Class.{SameClass, HasIndex, IsLeast, IsNormal, IsRuleList};
ghost use Rattle.theory.specs.Listing.{IsLast, IsNext, GoesOnOrEnds};
ghost use Rattle.theory.specs.Congruence.{is_two_sided};
ghost use Rattle.congruence_classes.specs.Indexes.{IsIndexWithin};
ghost use Rattle.congruence_classes.specs.Rewriting.{AreRulesOf};

use crate::indexes::Index;
use crate::reducers::Reducer;
use ports::NoMemory;
use presentation::Congruence;
use rewriting::Rules;
use std::alloc::Global;
use std::marker::Model;
use words::Word;

/// The classes of a congruence by the rules of a completion: a word is the least of its class
/// exactly where no rule applies to it, with the marker where pairs are one-sided (Sims 1994,
/// chapter 2; libsemigroups, `KnuthBendix`). The empty word counts as a class of a monoid, and is
/// no element of a semigroup.
#[derive(Drop)]
pub struct ReducedClasses {
    alloc: Global,
    congruence: Congruence,
    words: Reducer,
}

impl Model for ReducedClasses {
    ghost use Rattle.presentation.specs.Presented.{Posed};
    ghost use Rattle.congruence_classes.specs.Rewriting.{IsReducerOf};

    ghost Value = { Posed };

    ghost view = { λ s. s.congruence };

    ghost invariant = { λ s. IsReducerOf s.congruence.congruence s.words };
}

impl ReducedClasses {
    /// The classes that the rules of a completion give which has decided. Refused only where memory
    /// is wanting.
    pub fn new(
        alloc: Global,
        congruence: &Congruence,
        rules: &Rules,
    ) -> Result<ReducedClasses, NoMemory>
        requires { AreRulesOf congruence.now.congruence rules.now }
        ensures { IfOk result (λ s. s ≡ congruence.now) }
    {
        let words = Reducer::new(alloc, congruence, rules)?;
        let congruence = congruence.copy(alloc)?;
        Ok(ReducedClasses {
            alloc,
            congruence,
            words,
        })
    }

    /// The number of classes, if it is at most the bound. Refused only where memory is wanting.
    pub fn index(&mut self, bound: usize) -> Result<Index, NoMemory>
        ensures kept { self.new ≡ self.old }
        ensures index { IfOk result (IsIndexWithin (SameClass self.old.congruence) bound) }
    {
        if self.words.is_infinite() {
            return Ok(Index::Infinite);
        }
        self.count(bound)
    }

    // The number of classes, if it is at most the bound, where they are finitely many. Refused only
    // where memory is wanting.
    fn count(&mut self, bound: usize) -> Result<Index, NoMemory>
        requires { (n : ℕ) × HasIndex (SameClass self.old.congruence) n }
        ensures kept { self.new ≡ self.old }
        ensures index { IfOk result (IsIndexWithin (SameClass self.old.congruence) bound) }
    {
        let mut count = 0;
        let mut next = self.next_after(None)?;
        while let Some(word) = next {
            if count == bound {
                return Ok(Index::Over);
            }
            count += 1;
            next = self.next_after(Some(&word))?;
        }
        Ok(Index::Finite(count))
    }

    /// Whether the two words, which are elements, are of one class. Refused only where memory is
    /// wanting.
    pub fn equal(&self, u: &Word, v: &Word) -> Result<bool, NoMemory>
        requires left { IsElement self.now.congruence.presentation.is_monoid
            self.now.congruence.presentation.letters u.now }
        requires right { IsElement self.now.congruence.presentation.is_monoid
            self.now.congruence.presentation.letters v.now }
        ensures { IfOk result (λ same. IsTrue same ↔ SameClass self.now.congruence u.now v.now) }
    {
        let left = self.words.reduce(self.alloc, u)?;
        let right = self.words.reduce(self.alloc, v)?;
        Ok(left.letters() == right.letters())
    }

    /// The normal form of the word, which is an element: the least word of its class in short-lex
    /// order. Refused only where memory is wanting.
    pub fn normal(&self, u: &Word) -> Result<Word, NoMemory>
        requires { IsElement self.now.congruence.presentation.is_monoid
            self.now.congruence.presentation.letters u.now }
        ensures { IfOk result (IsNormal (SameClass self.now.congruence) u.now) }
    {
        let reduced = self.words.reduce(self.alloc, u)?;
        self.words.word_inside(self.alloc, reduced)
    }

    /// The first least word of a class after the cursor, or the first at all; `None` where there is
    /// none. The cursor need not be the least word of its class. What holds of every decided
    /// congruence is told here: after each cursor comes a next class, or none. Refused only where
    /// memory is wanting.
    pub fn next_after(&mut self, after: Option<&Word>) -> Result<Option<Word>, NoMemory>
        ensures kept { self.new ≡ self.old }
        ensures goes_on { GoesOnOrEnds (IsLeast (SameClass self.old.congruence)) ◌≺◌ }
        ensures next { IfOk result (λ next. MatchOption next
            (IsLast (IsLeast (SameClass self.old.congruence)) ◌≺◌ (option_copied after.entry))
            (IsNext (IsLeast (SameClass self.old.congruence)) ◌≺◌ (option_copied after.entry))) }
    {
        match after {
            Some(cursor) => self.words.next_after(Some(cursor)),
            None => {
                if self.congruence.presentation().is_monoid() {
                    self.words.next_after(None)
                } else {
                    let empty = Word::new(self.alloc);
                    self.words.next_after(Some(&empty))
                }
            }
        }
    }

    /// The reduced rules of a two-sided congruence, in short-lex order of their left sides
    /// (Froidure and Pin 1997). Refused only where memory is wanting.
    pub fn rules(&self) -> Result<Rules, NoMemory>
        requires { is_two_sided self.now.congruence ≡ true }
        ensures { IfOk result (IsRuleList (SameClass self.now.congruence)) }
    {
        self.words.rules().copy(self.alloc)
    }
}
