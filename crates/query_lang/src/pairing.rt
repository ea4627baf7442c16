// Pairs that lines give, one after another.
ghost use Rattle.std.specs.Prelude.{◌≡◌, ◌≢◌, IfOk, IfErr, OnOk, Ok, length};
ghost use Rattle.theory.specs.Word.{IsElement};
ghost use Rattle.problem.specs.Problem.{IsPosable, has_empty_word, is_presented, letters_of, pairs_of, with_pair};
ghost use Rattle.line_parts.specs.Faults.{IsLineFault};
ghost use Rattle.line_parts.specs.LineWords.{both_elements};
ghost use Rattle.line_parts.specs.Texts.{texts};
ghost use Rattle.query_lang.specs.Pairing.{IsPairable, is_same_kind, most_pairs, paired};
ghost use Rattle.query_lang.specs.Values.{added_of, mixes_kinds};

use crate::form::Form;
use line_parts::{Cause, LineFault, Version, both_elements, two_tokens};
use ports::NoMemory;
use presentation::Kind;
use problem::Problem;
use std::alloc::Global;
use std::marker::Model;
use words::Word;

// The most pairs of a script.
const MOST_PAIRS: usize = 4096;

/// A problem, with the pairs so far, which are all of one kind. Contracts see the problem.
#[derive(Drop)]
pub struct Paired {
    problem: Problem,
}

impl Model for Paired {
    ghost use Rattle.problem.specs.declared.kinds.Problem.{Problem as ProblemOf};
    ghost use Rattle.query_lang.specs.Pairing.{IsPairable};

    ghost Value = { ProblemOf };

    ghost view = { λ p. p.problem };

    ghost invariant = { λ p. IsPairable p.problem };
}

// Whether the kinds are one.
fn is_same_kind(one: Kind, other: Kind) -> bool
    ensures { result ≡ is_same_kind one other }
{
    one == other
}

impl Paired {
    /// The problem, which may get pairs.
    pub fn new(problem: Problem) -> Paired
        requires { IsPairable problem }
        ensures { result ≡ problem }
    {
        Paired { problem }
    }

    /// Whether the problem is given by relations.
    pub fn is_presented(&self) -> bool
        ensures { result ≡ is_presented self.now }
    {
        self.problem.is_presented()
    }

    // The two elements that the tokens are.
    fn sides(
        &self,
        alloc: Global,
        version: Version,
        left: &[u8],
        right: &[u8],
    ) -> Result<(Word, Word), LineFault>
        ensures ok { IfOk result (λ sides. both_elements version (letters_of self.now)
            (has_empty_word self.now) left.now right.now ≡ Ok sides) }
        ensures left { IfOk result (λ sides. IsElement
            (has_empty_word self.now) (length (letters_of self.now)) sides.0) }
        ensures right { IfOk result (λ sides. IsElement
            (has_empty_word self.now) (length (letters_of self.now)) sides.1) }
        ensures err { IfErr result (IsLineFault (both_elements version (letters_of self.now)
            (has_empty_word self.now) left.now right.now)) }
    {
        let alphabet = self.problem.alphabet();
        let allow_empty = self.problem.has_empty_word();
        both_elements(alloc, version, alphabet, allow_empty, left, right)
    }

    // Whether a pair of this kind is of another kind than the first one.
    fn mixes(&self, kind: Kind) -> bool
        ensures { result ≡ mixes_kinds self.now (Form.Pair kind) }
    {
        !self.problem.pairs().is_empty() && !is_same_kind(self.problem.kind(), kind)
    }

    // The pair of these two elements behind the others.
    fn with_sides(self, kind: Kind, left: Word, right: Word) -> Result<Paired, NoMemory>
        requires few { length (pairs_of self) ≢ most_pairs }
        requires left { IsElement (has_empty_word self) (length (letters_of self)) left }
        requires right { IsElement (has_empty_word self) (length (letters_of self)) right }
        ensures { IfOk result (λ next. next ≡ with_pair self kind (left, right)) }
    {
        Ok(Paired {
            problem: self.problem.with_pair(kind, left, right)?,
        })
    }

    // The pair of these two words, which may stand behind the others.
    fn pair_of(
        &self,
        alloc: Global,
        version: Version,
        kind: Kind,
        tokens: &[&[u8]],
    ) -> Result<(Word, Word), LineFault>
        ensures ok { IfOk result (λ pair. added_of version self.now (Form.Pair kind)
            (texts tokens.now) ≡ Ok pair) }
        ensures few { OnOk result (length (pairs_of self.now) ≢ most_pairs) }
        ensures left { IfOk result (λ pair. IsElement
            (has_empty_word self.now) (length (letters_of self.now)) pair.0) }
        ensures right { IfOk result (λ pair. IsElement
            (has_empty_word self.now) (length (letters_of self.now)) pair.1) }
        ensures err { IfErr result (IsLineFault
            (added_of version self.now (Form.Pair kind) (texts tokens.now))) }
    {
        let (left, right) = two_tokens(tokens)?;
        if self.problem.pairs().len() == MOST_PAIRS {
            return Err(LineFault::refused(Cause::TooManyPairs));
        }
        if self.mixes(kind) {
            return Err(LineFault::refused(Cause::MixedKinds));
        }
        self.sides(alloc, version, left, right)
    }

    /// The pair of this kind and of these two words behind the others. Refused with the cause of
    /// its line, or for want of memory.
    pub fn with_pair(
        self,
        alloc: Global,
        version: Version,
        kind: Kind,
        tokens: &[&[u8]],
    ) -> Result<Paired, LineFault>
        ensures ok { IfOk result (λ next. paired self kind (added_of version self
            (Form.Pair kind) (texts tokens.now)) ≡ Ok next) }
        ensures err { IfErr result (IsLineFault (paired self kind
            (added_of version self (Form.Pair kind) (texts tokens.now)))) }
    {
        match self.pair_of(alloc, version, kind, tokens) {
            Ok((left, right)) => Ok(self.with_sides(kind, left, right)?),
            Err(fault) => {
                drop(self);
                Err(fault)
            }
        }
    }

    /// The problem.
    pub fn problem(self) -> Problem
        ensures problem { result ≡ self }
        ensures posable { IsPosable result }
    {
        self.problem
    }
}
