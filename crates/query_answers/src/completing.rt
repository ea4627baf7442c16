// Completions that log, run to their ends.
ghost use Rattle.std.specs.Prelude.{◌≡◌, true, IfOk, OnOk};
ghost use Rattle.theory.specs.Completion.{CompletionEnds};
ghost use Rattle.problem.specs.Problem.{IsPosable, IsSolvable, is_presented};
ghost use Rattle.query_answers.specs.Chains.{IsLogOf, Tells, with_its_pairs};

use knuth_bendix::Completion;
use ports::NoMemory;
use presentation::{Congruence, Presentation};
use problem::Problem;
use race::{Progress, Racer};
use std::alloc::Global;

/// The presentation with the pairs behind its relations. Refused only where memory is wanting.
pub fn with_its_pairs(alloc: Global, congruence: &Congruence) -> Result<Presentation, NoMemory>
    requires { IsSolvable congruence.now }
    ensures { IfOk result (λ p. p.presentation ≡ with_its_pairs congruence.now.congruence) }
{
    let presentation = congruence.presentation();
    presentation.with_pairs(alloc, congruence.pairs())
}

// Makes turns until the completion has ended. Refused only where memory is wanting.
fn run(completion: &mut Completion) -> Result<(), NoMemory>
    ensures presentation { OnOk result (completion.new.presentation
        ≡ completion.old.presentation) }
    ensures length { OnOk result (completion.new.length ≡ completion.old.length) }
    ensures logged { OnOk result (completion.new.logged ≡ completion.old.logged) }
    ensures ended { OnOk result (Tells completion.new.said
        (CompletionEnds completion.new.presentation completion.new.length)) }
{
    loop {
        match completion.advance() {
            Progress::More => {}
            Progress::Decided | Progress::Spent => return Ok(()),
            Progress::NoMemory => return Err(NoMemory),
        }
    }
}

/// Lets go of a completion, all of it in one place.
pub fn drop_completion(completion: Completion) {
    drop(completion);
}

/// The completion of the relations and the pairs within so many letters, which logs, at its end.
/// Refused only where memory is wanting.
pub fn logged_completion(
    alloc: Global,
    problem: &Problem,
    length: usize,
) -> Result<Completion, NoMemory>
    requires posable { IsPosable problem.now }
    requires presented { is_presented problem.now ≡ true }
    ensures { IfOk result (IsLogOf problem.now length) }
{
    let Problem::Presented(congruence) = problem else {
        unreachable!()
    };
    let relations = with_its_pairs(alloc, congruence)?;
    let logged = Completion::logged(alloc, &relations, length);
    drop(relations);
    let mut completion = logged?;
    match run(&mut completion) {
        Ok(()) => Ok(completion),
        Err(fault) => {
            drop_completion(completion);
            Err(fault)
        }
    }
}
