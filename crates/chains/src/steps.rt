// Steps of chains.
ghost use Rattle.std.specs.Prelude.{◌≡◌, ◌+◌, ◌≤◌, ◌++◌, ◌↔◌, drop, length, take, true, IfOk, IsTrue, OnOk, MatchOption};
ghost use Rattle.chains.specs.Chains.{Fits, IsReplaced, StandsAt, step_of};
ghost use Rattle.chains.specs.Derivations.{moved, turned};
ghost use Rattle.theory.specs.PlacedStep.{Gives, read_sides};

use ports::NoMemory;
use presentation::Presentation;
use std::alloc::Global;
use words::{Letter, Word};

/// A step of a chain: one side of a relation stands in a word, and the other takes its place.
#[derive(Clone, Copy, Debug, PartialEq, Eq)]
pub struct ChainStep {
    /// How many letters stand before the side.
    pub place: usize,
    /// The number of the relation, from 0.
    pub relation: usize,
    /// Whether it is the first side that stands in the word.
    pub forward: bool,
}

// Whether the factor stands at the place of the word.
fn stands_at(word: &[Letter], place: usize, factor: &[Letter]) -> bool
    ensures { IsTrue result ↔ StandsAt factor.now word.now place }
{
    place <= word.len() && word[place..].starts_with(factor)
}

// The word with the factor at the place replaced by another, or `None` where it does not stand
// there.
fn replaced(
    alloc: Global,
    word: &[Letter],
    place: usize,
    factor: &[Letter],
    by: &[Letter],
) -> Result<Option<Word>, NoMemory>
    ensures { IfOk result (λ found. MatchOption found
        (StandsAt factor.now word.now place → ⊥)
        (IsReplaced word.now place factor.now by.now)) }
{
    if !stands_at(word, place, factor) {
        return Ok(None);
    }
    let mut made = Word::with_capacity(alloc, word.len().saturating_add(by.len()))?;
    made.append(&word[..place])?;
    made.append(by)?;
    made.append(&word[place + factor.len()..])?;
    Ok(Some(made))
}

// The sides of a relation in the direction in which they are read.
fn read_sides<'a>(forward: bool, first: &'a Word, second: &'a Word) -> (&'a Word, &'a Word)
    ensures first { result.0.now ≡ (read_sides forward (first.now, second.now)).0 }
    ensures second { result.1.now ≡ (read_sides forward (first.now, second.now)).1 }
{
    if forward {
        (first, second)
    } else {
        (second, first)
    }
}

impl ChainStep {
    /// The step behind so many more letters. Refused, as memory that is wanting, only where no word
    /// is so long.
    pub fn moved(self, letters: usize) -> Result<ChainStep, NoMemory>
        ensures { IfOk result (λ step. step ≡ moved letters self) }
    {
        let Some(place) = letters.checked_add(self.place) else {
            return Err(NoMemory);
        };
        Ok(ChainStep {
            place,
            relation: self.relation,
            forward: self.forward,
        })
    }

    /// The step back.
    pub fn turned(self) -> ChainStep
        ensures { result ≡ turned self }
    {
        ChainStep {
            place: self.place,
            relation: self.relation,
            forward: !self.forward,
        }
    }

    // The word in which the step exchanges the one side for the other, or `None` where that does not
    // stand there.
    pub(crate) fn exchanged(
        self,
        alloc: Global,
        first: &Word,
        second: &Word,
        word: &Word,
    ) -> Result<Option<Word>, NoMemory>
        ensures { let sides = read_sides self.forward (first.now, second.now) in
            IfOk result (λ found. MatchOption found
            (StandsAt sides.0 word.now self.place → ⊥)
            (IsReplaced word.now self.place sides.0 sides.1)) }
    {
        let (factor, by) = read_sides(self.forward, first, second);
        replaced(
            alloc,
            word.letters(),
            self.place,
            factor.letters(),
            by.letters(),
        )
    }

    // The word that the step gives, or `None` where it does not fit.
    pub(crate) fn next(
        self,
        alloc: Global,
        presentation: &Presentation,
        word: &Word,
    ) -> Result<Option<Word>, NoMemory>
        ensures { IfOk result (λ found. MatchOption found
            (Fits presentation.now.presentation word.now (step_of self) → ⊥)
            (Gives presentation.now.presentation word.now (step_of self))) }
    {
        let relations = presentation.relations();
        if self.relation >= relations.len() {
            return Ok(None);
        }
        let sides = relations.pair(self.relation);
        self.exchanged(alloc, &sides.0, &sides.1, word)
    }
}
