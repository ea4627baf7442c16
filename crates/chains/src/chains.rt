// Chains, step by step.
ghost use Rattle.std.specs.Prelude.{◌≡◌, ◌↔◌, IfOk, IsTrue, MatchOption};
ghost use Rattle.chains.specs.Chains.{IsChain, AllFit, steps_of};
ghost use Rattle.theory.specs.PlacedStep.{LeadTo};

use super::steps::ChainStep;
use ports::NoMemory;
use presentation::Presentation;
use std::alloc::Global;
use words::Word;

/// Whether the steps lead from one word to the other: each fits the word that the ones before it
/// give, and the last word is the other. It holds two words at a time. Refused only where memory is
/// wanting.
pub fn check(
    alloc: Global,
    presentation: &Presentation,
    from: &Word,
    steps: &Vec<ChainStep>,
    to: &Word,
) -> Result<bool, NoMemory>
    ensures { IfOk result (λ yes. IsTrue yes ↔
        LeadTo presentation.now.presentation from.now (steps_of steps.now.items) to.now) }
{
    let mut word = from.copy(alloc)?;
    for place in 0..steps.len() {
        let Some(next) = steps[place].next(alloc, presentation, &word)? else {
            return Ok(false);
        };
        word = next;
    }
    Ok(word.letters() == to.letters())
}

/// The words of the chain, from the one where it begins on: each behind it is what a step gives.
/// `None` exactly where some step does not fit the word that the ones before it give. Refused only
/// where memory is wanting.
pub fn words_of(
    alloc: Global,
    presentation: &Presentation,
    from: &Word,
    steps: &Vec<ChainStep>,
) -> Result<Option<Vec<Word>>, NoMemory>
    ensures { IfOk result (λ found. MatchOption found
        (AllFit presentation.now.presentation from.now steps.now.items → ⊥)
        (λ words. IsChain presentation.now.presentation from.now steps.now.items words.items)) }
{
    let mut words = Vec::new(alloc);
    let mut word = from.copy(alloc)?;
    for place in 0..steps.len() {
        let Some(next) = steps[place].next(alloc, presentation, &word)? else {
            return Ok(None);
        };
        words.push(word)?;
        word = next;
    }
    words.push(word)?;
    Ok(Some(words))
}
