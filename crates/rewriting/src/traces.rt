// Reduction of a word, a letter after another, with where rules are applied.
ghost use Rattle.std.specs.Prelude.{◌≡◌, ◌<◌, ◌++◌, List, IfOk, OnOk};
ghost use Rattle.std.specs.Option.{option_to_list};
ghost use Rattle.theory.specs.Word.{Word as Letters};
ghost use Rattle.rewriting.specs.Reductions.{IsAtStep, IsReductionBy, weight_at, weight_of};
ghost use Rattle.rewriting.specs.Traces.{LeadsOn};

use crate::reductions::{Reduction, go_back, push};
use crate::rule_lists::Rules;
use ports::NoMemory;
use words::Letter;

/// A rule that is applied: its left side stands in a word, and the right side takes its place.
#[derive(Clone, Copy, Debug, PartialEq, Eq)]
pub struct Applied {
    /// How many letters stand before the left side.
    pub place: usize,
    /// The place of the rule in the list, from 0.
    pub rule: usize,
}

/// Puts the rule that was applied, if one was, at the end. Refused only where memory is wanting.
pub fn note(trace: &mut Vec<Applied>, applied: Option<Applied>) -> Result<(), NoMemory>
    ensures { OnOk result (trace.new.items ≡ trace.old.items ++ option_to_list applied) }
{
    if let Some(applied) = applied {
        trace.push(applied)?;
    }
    Ok(())
}

/// The letter is read, to the state that follows; or the rule is applied whose left side ends
/// there. Refused only where memory is wanting.
#[inline(always)]
pub fn follow(
    reduction: &mut Reduction,
    rules: &Rules,
    letter: Letter,
    step: (usize, Option<usize>),
) -> Result<Option<Applied>, NoMemory>
    requires { (states : List Letters) × (word : Letters)
        × IsAtStep rules.now states word reduction.old letter step }
    ensures reducing { OnOk result ((states : List Letters) (word : Letters)
        → IsAtStep rules.now states word reduction.old letter step
        → IsReductionBy rules.now states word reduction.new
        × (weight_of rules.now word reduction.new
        < weight_at rules.now word letter reduction.old)) }
    ensures traced { IfOk result (λ applied. LeadsOn rules.now letter reduction.old applied
        reduction.new) }
{
    let _count = rules.len();
    match step.1 {
        None => {
            push(reduction, letter, step.0)?;
            Ok(None)
        }
        Some(rule) => {
            go_back(reduction, rules.rule(rule))?;
            let place = reduction.done.len();
            Ok(Some(Applied { place, rule }))
        }
    }
}
