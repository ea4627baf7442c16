// The lanes of a race for a problem.
ghost use Rattle.std.specs.Prelude.{◌≡◌, ◌<◌, ◌≤◌, List, [], ◌∷◌, ◌++◌, None, length, IfOk, OnOk};
ghost use Rattle.theory.specs.Congruence.{as_right, IsRightSided, IsWellFormed, read_backwards};
ghost use Rattle.theory.specs.Marked.{completed};
ghost use Rattle.problem.specs.Problem.{IsPosable, IsSolvable};
ghost use Rattle.race.specs.Lanes.{fresh};
ghost use Rattle.race.specs.Machine.{Starts, tasks};
ghost use Rattle.congruence.specs.Added.{IsAdded};
ghost use Rattle.congruence.specs.Engines.{Definitions, Rewriting, Rows, as_racer, congruence_tasks, pairs_task, tasks_for, IsCompletionFor};

use crate::engine::Engine;
use cayley::PairsRacer;
use elements::Element;
use knuth_bendix::Completion;
use ports::NoMemory;
use presentation::{Congruence, Kind, Pairs, Presentation};
use problem::{Budgets, Posed, Problem};
use race::{Lane, Progress};
use std::alloc::Global;
use tc_felsch::Felsch;
use tc_hlt::Hlt;

// The right congruence that the relations alone generate.
fn without_pairs(alloc: Global, relations: Presentation) -> Congruence
    ensures { result.congruence ≡ record {
      presentation = relations.presentation;
      kind = Kind.Right;
      pairs = [];
    } }
{
    Congruence::new(relations, Kind::Right, Pairs::new(alloc))
}

// The congruence read backwards.
fn backwards(alloc: Global, congruence: &Congruence) -> Result<Congruence, NoMemory>
    ensures { IfOk result (λ c. c.congruence ≡ read_backwards congruence.now.congruence) }
{
    let presentation = congruence.presentation();
    let pairs = congruence.pairs();
    let turned = pairs.reversed(alloc)?;
    let relations = presentation.reversed(alloc)?;
    Ok(Congruence::new(relations, Kind::Right, turned))
}

// The right congruence that stands for the congruence: two-sided pairs become relations, and with
// left pairs all is read backwards.
fn as_right(alloc: Global, congruence: &Congruence) -> Result<Congruence, NoMemory>
    requires { IsSolvable congruence.now }
    ensures congruence { IfOk result (λ c. c.congruence ≡ as_right congruence.now.congruence) }
    ensures well_formed { IsWellFormed congruence.now.congruence }
{
    let presentation = congruence.presentation();
    let pairs = congruence.pairs();
    match congruence.kind() {
        Kind::TwoSided => Ok(without_pairs(alloc, presentation.with_pairs(alloc, pairs)?)),
        Kind::Right => congruence.copy(alloc),
        Kind::Left => {
            if pairs.is_empty() {
                return Ok(without_pairs(alloc, presentation.copy(alloc)?));
            }
            backwards(alloc, congruence)
        }
    }
}

// The presentation that is completed for the congruence: the pairs are relations, and one-sided ones
// have the marker.
fn completed(alloc: Global, congruence: &Congruence) -> Result<Presentation, NoMemory>
    requires { IsSolvable congruence.now }
    ensures { IfOk result (λ p. p.presentation ≡ completed congruence.now.congruence) }
{
    let presentation = congruence.presentation();
    if congruence.is_two_sided() {
        return presentation.with_pairs(alloc, congruence.pairs());
    }
    congruence.marked(alloc)
}

// The completion for the congruence, within so many letters.
fn completion_of(
    alloc: Global,
    congruence: &Congruence,
    length: usize,
) -> Result<Completion, NoMemory>
    requires { IsSolvable congruence.now }
    ensures { IfOk result (IsCompletionFor congruence.now.congruence length) }
{
    let presentation = completed(alloc, congruence)?;
    Completion::new(alloc, &presentation, length)
}

// Puts a lane of the engine behind the others.
fn add_lane(lanes: &mut Vec<Lane<Engine>>, engine: Engine) -> Result<(), NoMemory>
    requires { length lanes.old.items < 64 }
    ensures { OnOk result (lanes.new.items
        ≡ lanes.old.items ++ fresh (length lanes.old.items) engine ∷ []) }
{
    lanes.push(Lane::new(lanes.len(), engine))?;
    Ok(())
}

// Puts a lane of Felsch's strategy for a right congruence behind the others.
fn add_felsch(
    alloc: Global,
    task: &Congruence,
    defs: usize,
    lanes: &mut Vec<Lane<Engine>>,
) -> Result<(), NoMemory>
    requires task { IsRightSided task.now.congruence }
    requires few { length lanes.old.items < 64 }
    ensures { OnOk result (IsAdded lanes.old.items lanes.new.items
        (Definitions (record { congruence = task.now.congruence; budget = defs }))) }
{
    let felsch = Felsch::new(alloc, task, defs)?;
    add_lane(lanes, Engine::Felsch(felsch))
}

// The same of the strategy of rows.
fn add_hlt(
    alloc: Global,
    task: &Congruence,
    rows: usize,
    lanes: &mut Vec<Lane<Engine>>,
) -> Result<(), NoMemory>
    requires task { IsRightSided task.now.congruence }
    requires few { length lanes.old.items < 64 }
    ensures { OnOk result (IsAdded lanes.old.items lanes.new.items
        (Rows (record { congruence = task.now.congruence; budget = rows }))) }
{
    let hlt = Hlt::new(alloc, task, rows)?;
    add_lane(lanes, Engine::Hlt(hlt))
}

// The same of completion for the congruence.
fn add_completion(
    alloc: Global,
    congruence: &Congruence,
    longest: usize,
    lanes: &mut Vec<Lane<Engine>>,
) -> Result<(), NoMemory>
    requires congruence { IsSolvable congruence.now }
    requires few { length lanes.old.items < 64 }
    ensures { OnOk result (IsAdded lanes.old.items lanes.new.items (Rewriting
        (record { presentation = completed congruence.now.congruence; length = longest }))) }
{
    let completion = completion_of(alloc, congruence, longest)?;
    add_lane(lanes, Engine::Completion(completion))
}

// Puts the lanes of both strategies for a congruence on a presentation behind the others.
fn add_enumerations(
    alloc: Global,
    congruence: &Congruence,
    budgets: &Budgets,
    lanes: &mut Vec<Lane<Engine>>,
) -> Result<(), NoMemory>
    requires congruence { IsSolvable congruence.now }
    requires few { length lanes.old.items < 63 }
    ensures { let task = as_right congruence.now.congruence in
        OnOk result ((middle : List (Lane Engine))
        × IsAdded lanes.old.items middle
        (Definitions (record { congruence = task; budget = budgets.now.defs }))
        × IsAdded middle lanes.new.items
        (Rows (record { congruence = task; budget = budgets.now.rows }))) }
{
    let task = as_right(alloc, congruence)?;
    add_felsch(alloc, &task, budgets.defs, lanes)?;
    add_hlt(alloc, &task, budgets.rows, lanes)
}

// The lanes for a congruence on a presentation: Felsch's strategy, the strategy of rows, and
// completion.
fn congruence_lanes(
    alloc: Global,
    congruence: &Congruence,
    budgets: &Budgets,
) -> Result<Vec<Lane<Engine>>, NoMemory>
    requires { IsSolvable congruence.now }
    ensures starts { IfOk result (λ lanes. Starts as_racer lanes.items) }
    ensures count { IfOk result (λ lanes. length lanes.items ≤ 64) }
    ensures tasks { IfOk result (λ lanes. tasks as_racer lanes.items
        ≡ congruence_tasks congruence.now.congruence budgets.now) }
{
    let mut lanes = Vec::new(alloc);
    add_enumerations(alloc, congruence, budgets, &mut lanes)?;
    add_completion(alloc, congruence, budgets.length, &mut lanes)?;
    Ok(lanes)
}

// The search for the classes of at most so many elements.
fn search_of<E: Element>(
    alloc: Global,
    posed: &Posed<E>,
    bound: usize,
) -> Result<PairsRacer<E>, NoMemory>
    ensures { IfOk result (λ search. search ≡ record {
      task = pairs_task posed.now bound;
      tables = None;
      classes = None;
      said = Progress.More;
    }) }
{
    let _some = posed.generators();
    let generators = posed.copied_generators(alloc)?;
    let pairs = posed.pairs().copy(alloc)?;
    Ok(PairsRacer::new(alloc, generators, posed.kind(), pairs, bound))
}

// One lane.
fn one_lane(alloc: Global, engine: Engine) -> Result<Vec<Lane<Engine>>, NoMemory>
    ensures { IfOk result (λ lanes. lanes.items ≡ fresh 0 engine ∷ []) }
{
    let mut lanes = Vec::new(alloc);
    add_lane(&mut lanes, engine)?;
    Ok(lanes)
}

/// The lanes for the problem. Refused only where memory is wanting.
pub fn lanes_for(
    alloc: Global,
    problem: &Problem,
    budgets: &Budgets,
) -> Result<Vec<Lane<Engine>>, NoMemory>
    requires { IsPosable problem.now }
    ensures starts { IfOk result (λ lanes. Starts as_racer lanes.items) }
    ensures count { IfOk result (λ lanes. length lanes.items ≤ 64) }
    ensures tasks { IfOk result (λ lanes. tasks as_racer lanes.items
        ≡ tasks_for problem.now budgets.now) }
{
    let bound = budgets.elements;
    let engine = match problem {
        Problem::Presented(congruence) => return congruence_lanes(alloc, congruence, budgets),
        Problem::Transf(posed) => Engine::Transf(search_of(alloc, posed, bound)?),
        Problem::PPerm(posed) => Engine::PPerm(search_of(alloc, posed, bound)?),
        Problem::BMat(posed) => Engine::BMat(search_of(alloc, posed, bound)?),
        Problem::MaxPlus(posed) => Engine::MaxPlus(search_of(alloc, posed, bound)?),
    };
    one_lane(alloc, engine)
}
