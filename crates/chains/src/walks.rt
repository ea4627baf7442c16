// Chains without detours, step by step.
ghost use Rattle.std.specs.Prelude.{◌≡◌, ◌<◌, [], ◌∷◌, length, reverse, IfOk, OnOk};
ghost use Rattle.theory.specs.Word.{Word as Letters};
ghost use Rattle.theory.specs.Congruence.{Presentation as Presented};
ghost use Rattle.theory.specs.PlacedStep.{Gives, LeadTo};
ghost use Rattle.chains.specs.Chains.{AllFit, Fits, step_of, steps_of};
ghost use Rattle.chains.specs.Derivations.{in_place_of};
ghost use Rattle.chains.specs.Walks.{IsWalk, here};

use crate::pending::put;
use crate::steps::ChainStep;
use indexmap::IndexSet;
use ports::NoMemory;
use presentation::Presentation;
use std::alloc::Global;
use words::Word;

/// The words of a chain, from the one where it begins on, all different, and its steps.
#[derive(Drop)]
pub struct Walk {
    words: IndexSet<Word>,
    /// The steps.
    pub steps: Vec<ChainStep>,
}

impl Walk {
    /// The walk that stands where it begins. Refused only where memory is wanting.
    pub fn new(alloc: Global, from: &Word) -> Result<Walk, NoMemory>
        ensures words { IfOk result (λ w. w.words.keys ≡ from.now ∷ []) }
        ensures steps { IfOk result (λ w. w.steps.items ≡ []) }
    {
        let mut words = IndexSet::new(alloc);
        let _new = words.insert(from.copy(alloc)?)?;
        Ok(Walk {
            words,
            steps: Vec::new(alloc),
        })
    }

    // The word where the walk stands.
    fn here(&self) -> &Word
        requires { 0 < length self.now.words.keys }
        ensures { result.now ≡ here self.now }
    {
        let Some(last) = self.words.last() else {
            unreachable!();
        };
        last
    }

    // The step has given the word. Where it stands among the words, what lies between is dropped.
    fn reach(&mut self, step: ChainStep, word: Word) -> Result<(), NoMemory>
        ensures { OnOk result ((p : Presented) (u : Letters) → IsWalk p u self.old
            → Gives p (here self.old) (step_of step) word
            → IsWalk p u self.new × (here self.new ≡ word)) }
    {
        let (place, is_new) = self.words.insert_full(word)?;
        if is_new {
            self.steps.push(step)?;
            return Ok(());
        }
        prove!(place < self.words.len());
        self.words.truncate(place + 1);
        self.steps.truncate(place);
        Ok(())
    }

    /// Makes a step from where the walk stands. Where its word was met before, the walk stands
    /// there again. Refused only where memory is wanting.
    pub fn go(
        &mut self,
        alloc: Global,
        presentation: &Presentation,
        step: ChainStep,
    ) -> Result<(), NoMemory>
        requires some { 0 < length self.old.words.keys }
        requires fits { Fits presentation.now.presentation (here self.old) (step_of step) }
        ensures { OnOk result ((u v : Letters) → IsWalk presentation.now.presentation u self.old
            → Gives presentation.now.presentation (here self.old) (step_of step) v
            → IsWalk presentation.now.presentation u self.new × (here self.new ≡ v)) }
    {
        let Some(next) = step.next(alloc, presentation, self.here())? else {
            unreachable!();
        };
        self.reach(step, next)
    }

    /// Makes steps one after another, the last one first. Refused only where memory is wanting.
    pub fn go_all(
        &mut self,
        alloc: Global,
        presentation: &Presentation,
        pending: &[ChainStep],
    ) -> Result<(), NoMemory>
        requires begun { (u : Letters) × IsWalk presentation.now.presentation u self.old }
        requires fits { AllFit presentation.now.presentation (here self.old) (reverse pending.now) }
        ensures { OnOk result ((u v : Letters) → IsWalk presentation.now.presentation u self.old
            → LeadTo presentation.now.presentation (here self.old)
            (steps_of (reverse pending.now)) v
            → IsWalk presentation.now.presentation u self.new × (here self.new ≡ v)) }
    {
        for place in (0..pending.len()).rev() {
            self.go(alloc, presentation, pending[place])?;
        }
        Ok(())
    }

    /// Makes the steps of a chain in the place of a step by the fact that it proves. Refused only
    /// where memory is wanting.
    pub fn go_instead(
        &mut self,
        alloc: Global,
        presentation: &Presentation,
        step: ChainStep,
        chain: &[ChainStep],
    ) -> Result<(), NoMemory>
        requires begun { (u : Letters) × IsWalk presentation.now.presentation u self.old }
        requires fits { AllFit presentation.now.presentation (here self.old)
            (in_place_of step chain.now) }
        ensures { OnOk result ((u v : Letters) → IsWalk presentation.now.presentation u self.old
            → LeadTo presentation.now.presentation (here self.old)
            (steps_of (in_place_of step chain.now)) v
            → IsWalk presentation.now.presentation u self.new × (here self.new ≡ v)) }
    {
        let mut pending = Vec::new(alloc);
        put(&mut pending, step, chain)?;
        self.go_all(alloc, presentation, pending.as_slice())
    }
}
