// The kinds of problems.
ghost use Rattle.std.specs.Prelude.{◌≡◌, ◌≢◌, [], length, false, IfOk};
ghost use Rattle.theory.specs.Word.{IsOver, IsElement};
ghost use Rattle.problem.specs.Problem.{IsWellPosed, allows_rules, count_of, has_empty_word, is_presented, kind_of, letters_of, pairs_of, value_text, with_pair};

use super::posing::Posed;
use elements::{BMat, MaxPlusTrunc, PPerm, Transf};
use ports::NoMemory;
use presentation::{Congruence, Kind, Pairs};
use std::alloc::Global;
use words::{Alphabet, Word};

/// What a script poses: a congruence on a monoid or a semigroup that is given by relations, or on
/// one that is given by generators of one kind.
#[derive(Drop)]
pub enum Problem {
    /// A congruence on a presentation.
    Presented(Congruence),
    /// Transformations.
    Transf(Posed<Transf>),
    /// Partial permutations.
    PPerm(Posed<PPerm>),
    /// Boolean matrices.
    BMat(Posed<BMat>),
    /// Truncated max-plus matrices.
    MaxPlus(Posed<MaxPlusTrunc>),
}

impl Problem {
    /// The letters, from 1 to 53: those of the presentation, or one for each generator. What holds
    /// of every problem is told here.
    pub fn alphabet(&self) -> &Alphabet
        ensures letters { result.now ≡ letters_of self.now }
        ensures one_each { count_of self.now ≡ length (letters_of self.now) }
        ensures posed { IsWellPosed self.now }
    {
        match self {
            Problem::Presented(congruence) => congruence.presentation().alphabet(),
            Problem::Transf(posed) => posed.alphabet(),
            Problem::PPerm(posed) => posed.alphabet(),
            Problem::BMat(posed) => posed.alphabet(),
            Problem::MaxPlus(posed) => posed.alphabet(),
        }
    }

    /// Whether it is given by relations.
    pub fn is_presented(&self) -> bool
        ensures { result ≡ is_presented self.now }
    {
        matches!(self, Problem::Presented(_))
    }

    /// Whether the empty word is an element: in a monoid that is given by relations, and nowhere
    /// else.
    pub fn has_empty_word(&self) -> bool
        ensures { result ≡ has_empty_word self.now }
    {
        match self {
            Problem::Presented(congruence) => congruence.presentation().is_monoid(),
            _ => false,
        }
    }

    /// Whether reduced rules may be asked for: the congruence is two-sided.
    pub fn allows_rules(&self) -> bool
        ensures { result ≡ allows_rules self.now }
    {
        match self {
            Problem::Presented(congruence) => congruence.is_two_sided(),
            Problem::Transf(posed) => posed.is_two_sided(),
            Problem::PPerm(posed) => posed.is_two_sided(),
            Problem::BMat(posed) => posed.is_two_sided(),
            Problem::MaxPlus(posed) => posed.is_two_sided(),
        }
    }

    /// The kind of the pairs.
    pub fn kind(&self) -> Kind
        ensures { result ≡ kind_of self.now }
    {
        match self {
            Problem::Presented(congruence) => congruence.kind(),
            Problem::Transf(posed) => posed.kind(),
            Problem::PPerm(posed) => posed.kind(),
            Problem::BMat(posed) => posed.kind(),
            Problem::MaxPlus(posed) => posed.kind(),
        }
    }

    /// The pairs.
    pub fn pairs(&self) -> &Pairs
        ensures { result.now ≡ pairs_of self.now }
    {
        match self {
            Problem::Presented(congruence) => congruence.pairs(),
            Problem::Transf(posed) => posed.pairs(),
            Problem::PPerm(posed) => posed.pairs(),
            Problem::BMat(posed) => posed.pairs(),
            Problem::MaxPlus(posed) => posed.pairs(),
        }
    }

    /// The same with one pair more behind the others; all pairs are of this kind. The sides are
    /// elements. Refused only where memory is wanting.
    pub fn with_pair(self, kind: Kind, left: Word, right: Word) -> Result<Problem, NoMemory>
        requires left { IsElement (has_empty_word self) (length (letters_of self)) left }
        requires right { IsElement (has_empty_word self) (length (letters_of self)) right }
        ensures { IfOk result (λ problem. problem ≡ with_pair self kind (left, right)) }
    {
        let _one_each = self.alphabet();
        match self {
            Problem::Presented(c) => Ok(Problem::Presented(c.with_pair(kind, left, right)?)),
            Problem::Transf(posed) => Ok(Problem::Transf(posed.with_pair(kind, left, right)?)),
            Problem::PPerm(posed) => Ok(Problem::PPerm(posed.with_pair(kind, left, right)?)),
            Problem::BMat(posed) => Ok(Problem::BMat(posed.with_pair(kind, left, right)?)),
            Problem::MaxPlus(posed) => Ok(Problem::MaxPlus(posed.with_pair(kind, left, right)?)),
        }
    }

    /// The same in memory of its own. Refused only where memory is wanting.
    pub fn copy(&self, alloc: Global) -> Result<Problem, NoMemory>
        ensures { IfOk result (λ problem. problem ≡ self.now) }
    {
        match self {
            Problem::Presented(congruence) => Ok(Problem::Presented(congruence.copy(alloc)?)),
            Problem::Transf(posed) => Ok(Problem::Transf(posed.copy(alloc)?)),
            Problem::PPerm(posed) => Ok(Problem::PPerm(posed.copy(alloc)?)),
            Problem::BMat(posed) => Ok(Problem::BMat(posed.copy(alloc)?)),
            Problem::MaxPlus(posed) => Ok(Problem::MaxPlus(posed.copy(alloc)?)),
        }
    }

    /// The entries of a word's value, with one space between each two: numbers in decimal, and a
    /// dash for an undefined image or minus infinity. The problem is given by generators. Only want
    /// of memory refuses it.
    pub fn value(&self, alloc: Global, word: &Word) -> Result<Vec<u8>, NoMemory>
        requires generated { is_presented self.now ≡ false }
        requires some { word.now ≢ [] }
        requires over { IsOver (length (letters_of self.now)) word.now }
        ensures { IfOk result (λ text. text.items ≡ value_text self.now word.now) }
    {
        match self {
            Problem::Presented(_) => unreachable!(),
            Problem::Transf(posed) => posed.value(alloc, word)?.print(alloc),
            Problem::PPerm(posed) => posed.value(alloc, word)?.print(alloc),
            Problem::BMat(posed) => posed.value(alloc, word)?.print(alloc),
            Problem::MaxPlus(posed) => posed.value(alloc, word)?.print(alloc),
        }
    }
}
