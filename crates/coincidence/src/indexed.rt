// Congruences whose relations are found by their letters.
ghost use Rattle.std.specs.Prelude.{◌≡◌, false, true, length, IfOk, IfSome};
ghost use Rattle.presentation.specs.Presented.{IsPosed};
ghost use Rattle.coincidence.specs.Indexes.{IsIndex, IsSideIndex};
ghost use Rattle.coincidence.specs.Starts.{AreFirstLetters, AreStarts};
ghost use Rattle.coincidence.specs.Uses.{ArePeriods, AreUses};

use crate::first_letters::FirstLetters;
use crate::periods::Periods;
use crate::starts::Starts;
use crate::uses::Uses;
use ports::NoMemory;
use presentation::{Congruence, Pairs, Presentation};
use std::alloc::Global;
use std::marker::Model;

// The places of letters in the first sides of relations, or in the second ones, and the periods of
// these sides.
#[derive(Drop)]
struct SideIndex {
    uses: Uses,
    periods: Periods,
}

impl SideIndex {
    // The index of these sides. Refused only where memory is wanting.
    fn new(alloc: Global, relations: &Pairs, second: bool) -> Result<SideIndex, NoMemory>
        ensures { IfOk result (IsSideIndex second relations.now) }
    {
        let uses = Uses::new(alloc, relations, second)?;
        let periods = Periods::new(alloc, relations, second)?;
        Ok(SideIndex { uses, periods })
    }
}

// The index of both sides of relations, and these by the letters with which they begin.
#[derive(Drop)]
struct Index {
    firsts: SideIndex,
    seconds: SideIndex,
    starts: Starts,
    first_letters: Option<FirstLetters>,
}

impl Index {
    // The index of the relations. Refused only where memory is wanting.
    fn new(alloc: Global, relations: &Pairs) -> Result<Index, NoMemory>
        ensures { IfOk result (IsIndex relations.now) }
    {
        let firsts = SideIndex::new(alloc, relations, false)?;
        let seconds = SideIndex::new(alloc, relations, true)?;
        let starts = Starts::new(alloc, relations)?;
        let first_letters = FirstLetters::new(alloc, relations)?;
        Ok(Index {
            firsts,
            seconds,
            starts,
            first_letters,
        })
    }
}

// A congruence, and the index of its relations.
#[derive(Drop)]
pub struct Indexed {
    congruence: Congruence,
    index: Index,
}

impl Model for Indexed {
    ghost use Rattle.presentation.specs.Presented.{Posed};
    ghost use Rattle.coincidence.specs.Indexes.{IsIndex};

    ghost Value = { Posed };

    ghost view = { λ c. c.congruence };

    ghost invariant = { λ c. IsIndex c.congruence.congruence.presentation.relations c.index };
}

impl Indexed {
    /// A copy of the congruence, with an index. Refused only where memory is wanting.
    pub fn copy_of(alloc: Global, congruence: &Congruence) -> Result<Indexed, NoMemory>
        ensures { IfOk result (λ c. c ≡ congruence.now) }
    {
        let congruence = congruence.copy(alloc)?;
        let index = Index::new(alloc, congruence.presentation().relations())?;
        Ok(Indexed { congruence, index })
    }

    /// The presentation, as [`Congruence::presentation`] gives it.
    pub fn presentation(&self) -> &Presentation
        ensures alphabet { result.now.alphabet ≡ self.now.alphabet }
        ensures presentation { result.now.presentation ≡ self.now.congruence.presentation }
        ensures posed { IsPosed self.now }
    {
        self.congruence.presentation()
    }

    /// The pairs.
    pub fn pairs(&self) -> &Pairs
        ensures { result.now ≡ self.now.congruence.pairs }
    {
        self.congruence.pairs()
    }

    /// The relations.
    pub fn relations(&self) -> &Pairs
        ensures { result.now ≡ self.now.congruence.presentation.relations }
    {
        self.congruence.presentation().relations()
    }

    // The index of the first sides of the relations, or of the second ones.
    fn sides(&self, second: bool) -> &SideIndex
        ensures { IsSideIndex second self.now.congruence.presentation.relations result.now }
    {
        if second {
            &self.index.seconds
        } else {
            &self.index.firsts
        }
    }

    /// The places of the first sides of the relations, or of the second ones.
    pub fn uses(&self, second: bool) -> &Uses
        ensures { AreUses second self.now.congruence.presentation.relations result.now }
    {
        &self.sides(second).uses
    }

    /// The periods of the first sides of the relations, or of the second ones.
    pub fn periods(&self, second: bool) -> &Periods
        ensures { ArePeriods second self.now.congruence.presentation.relations result.now }
    {
        &self.sides(second).periods
    }

    /// The relations by the letters with which their sides begin.
    pub fn starts(&self) -> &Starts
        ensures { AreStarts self.now.congruence.presentation.relations result.now }
    {
        &self.index.starts
    }

    /// The bits of the relations by the letters with which their sides begin, if each has a bit.
    pub fn first_letters(&self) -> &Option<FirstLetters>
        ensures { IfSome result.now (λ f. AreFirstLetters
            self.now.congruence.presentation.relations f.every f.letters.items) }
    {
        &self.index.first_letters
    }
}
