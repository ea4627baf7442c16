// Problems decided by a race of engines.
ghost use Rattle.std.specs.Prelude.{◌≡◌, ◌<◌, IfOk};
ghost use Rattle.problem.specs.Problem.{IsPosable};
ghost use Rattle.problem.specs.declared.budgets.Budgets.{Budgets};
ghost use Rattle.race.specs.Machine.{Tells};
ghost use Rattle.congruence.specs.Engines.{as_racer, HasDecided, HasTasksFor, IsEndOf};
ghost use Rattle.congruence.specs.Verdicts.{IsVerdictOf};

use crate::answers::Solved;
use crate::engine::{Ended, Engine};
use crate::lanes::lanes_for;
use ports::{Gate, NoMemory};
use problem::{Budgets, Problem};
use race::{Lane, Outcome, race};
use std::alloc::Global;
use std::thread::Threads;

/// What was found of a problem.
#[derive(Drop)]
pub enum Verdict {
    /// It was decided.
    Known(Solved),
    /// The budgets did not suffice. The lanes of the race for it.
    Undecided(Ended),
}

impl Verdict {
    /// Lets go of what was found, all of it in one place.
    pub fn let_go(self) {
        drop(self);
    }
}

// What is known of the problem by the lane that has decided it.
fn known(
    alloc: Global,
    problem: &Problem,
    lanes: Vec<Lane<Engine>>,
    winner: usize,
) -> Result<Solved, NoMemory>
    requires { HasDecided problem.now lanes.items winner }
    ensures { IfOk result (λ s. s ≡ record { problem = problem.now; lanes = lanes.items }) }
{
    let classes = lanes[winner].racer().classes(alloc, problem)?;
    Ok(Solved::new(classes, Ended::new(lanes), winner))
}

// The verdict at the end of a race of the lanes for the problem.
fn verdict_at(
    alloc: Global,
    problem: &Problem,
    lanes: Vec<Lane<Engine>>,
    outcome: Outcome,
) -> Result<Verdict, NoMemory>
    requires tasks { HasTasksFor problem.now lanes.items }
    requires told { Tells as_racer outcome lanes.items }
    ensures { IfOk result (λ verdict. (budgets : Budgets)
        → IsEndOf problem.now budgets outcome lanes.items
        → IsVerdictOf problem.now budgets verdict) }
{
    match outcome {
        Outcome::Won(winner) => {
            let solved = known(alloc, problem, lanes, winner)?;
            Ok(Verdict::Known(solved))
        }
        Outcome::AllSpent => {
            let _more = lanes[0].racer().has_more_elements();
            Ok(Verdict::Undecided(Ended::new(lanes)))
        }
        Outcome::Starved(_) => Err(NoMemory),
    }
}

// How many workers a race needs: where one engine alone has a budget, the others end with their
// first turn.
fn workers_needed(budgets: &Budgets, workers: usize) -> usize
    requires { 0 < workers }
    ensures { 0 < result }
{
    let engines = (budgets.defs > 0) as u8 + (budgets.rows > 0) as u8 + (budgets.length > 0) as u8;
    if engines < 2 { 1 } else { workers }
}

/// Decides the problem by engines that race. For a congruence on a presentation these are coset
/// enumeration by Felsch's strategy with the budget `defs` of definitions, and by that of
/// Haselgrove, Leech and Trotter with the budget `rows` of rows, and completion with words of at
/// most `length` letters (Felsch 1961; Knuth and Bendix 1970; Sims 1994, 2.5 and 5.2;
/// libsemigroups, `ToddCoxeter`, `KnuthBendix`). With left pairs the cosets are those of the
/// congruence read backwards. Where pairs are one-sided the alphabet has no marker, and what is
/// completed is the presentation with the marker that stands for the congruence. For generators
/// there is one engine, which lists at most `elements` elements and then finds their classes
/// (Froidure and Pin 1997). The engines race over as many threads as there are workers, each turn
/// behind the gate; with one worker, and where fewer than two of these three budgets are above 0,
/// they take turns on this thread, without the gate. The number of workers changes no answer.
/// `Undecided` exactly where no budget suffices; the lanes are kept as the race left them. Refused
/// only where memory is wanting.
pub fn solve<R: Threads + Sync, G: Gate + Sync>(
    rt: &R,
    alloc: Global,
    problem: &Problem,
    budgets: &Budgets,
    workers: usize,
    gate: &G,
) -> Result<Verdict, NoMemory>
    requires posable { IsPosable problem.now }
    requires workers { 0 < workers }
    ensures { IfOk result (IsVerdictOf problem.now budgets.now) }
{
    let mut lanes = lanes_for(alloc, problem, budgets)?;
    let outcome = race(
        rt,
        alloc,
        &mut lanes,
        workers_needed(budgets, workers),
        gate,
    )?;
    verdict_at(alloc, problem, lanes, outcome)
}
