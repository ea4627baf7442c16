// Steps that are to be made, the next one last.
ghost use Rattle.std.specs.Prelude.{◌≡◌, ◌++◌, map, reverse, IfOk, OnOk};
ghost use Rattle.chains.specs.Derivations.{in_place_of, moved, turned};

use crate::steps::ChainStep;
use ports::NoMemory;
use std::alloc::Global;

/// The steps in the order in which they are to be made, the next one last. Refused only where memory
/// is wanting.
pub fn reversed(alloc: Global, steps: &[ChainStep]) -> Result<Vec<ChainStep>, NoMemory>
    ensures { IfOk result (λ pending. pending.items ≡ reverse steps.now) }
{
    let mut pending = Vec::new(alloc);
    for place in (0..steps.len()).rev() {
        pending.push(steps[place])?;
    }
    Ok(pending)
}

// Puts in the steps behind so many letters, the last one first.
fn put_forward(
    pending: &mut Vec<ChainStep>,
    letters: usize,
    steps: &[ChainStep],
) -> Result<(), NoMemory>
    ensures { OnOk result (pending.new.items
        ≡ pending.old.items ++ reverse (map (moved letters) steps.now)) }
{
    for place in (0..steps.len()).rev() {
        pending.push(steps[place].moved(letters)?)?;
    }
    Ok(())
}

// Puts in the steps back behind so many letters, the first one first.
fn put_back(
    pending: &mut Vec<ChainStep>,
    letters: usize,
    steps: &[ChainStep],
) -> Result<(), NoMemory>
    ensures { OnOk result (pending.new.items
        ≡ pending.old.items ++ map (λ step. moved letters (turned step)) steps.now) }
{
    for step in steps {
        pending.push(step.turned().moved(letters)?)?;
    }
    Ok(())
}

/// Puts in the steps that stand for one by a fact, whose own steps are given. Refused only where
/// memory is wanting.
pub fn put(
    pending: &mut Vec<ChainStep>,
    step: ChainStep,
    steps: &[ChainStep],
) -> Result<(), NoMemory>
    ensures { OnOk result (pending.new.items
        ≡ pending.old.items ++ reverse (in_place_of step steps.now)) }
{
    if step.forward {
        put_forward(pending, step.place, steps)
    } else {
        put_back(pending, step.place, steps)
    }
}

/// Puts the steps back at the end: from where the given ones lead to where they begin. Refused only
/// where memory is wanting.
pub fn turn_back(steps: &mut Vec<ChainStep>, back: &[ChainStep]) -> Result<(), NoMemory>
    ensures { OnOk result (steps.new.items
        ≡ steps.old.items ++ reverse (map turned back.now)) }
{
    for place in (0..back.len()).rev() {
        steps.push(back[place].turned())?;
    }
    Ok(())
}

/// The steps back from where the first ones lead, then the next ones, and then the last ones.
/// Refused only where memory is wanting.
pub fn around(
    alloc: Global,
    back: &[ChainStep],
    middle: &[ChainStep],
    on: &[ChainStep],
) -> Result<Vec<ChainStep>, NoMemory>
    ensures { IfOk result (λ steps. steps.items
        ≡ reverse (map turned back.now) ++ (middle.now ++ on.now)) }
{
    let mut steps = Vec::new(alloc);
    turn_back(&mut steps, back)?;
    steps.extend_from_slice(middle)?;
    steps.extend_from_slice(on)?;
    Ok(steps)
}
