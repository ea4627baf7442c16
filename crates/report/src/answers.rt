// The answers of queries.
ghost use Rattle.std.specs.Prelude.{◌≡◌, ◌<◌, IfOk, IsSome, OnOk};
ghost use Rattle.ports.specs.Writes.{Writes};
ghost use Rattle.problem.specs.Problem.{IsPosable};
ghost use Rattle.query_lang.specs.Query.{IsQueryOf};
ghost use Rattle.query_answers.specs.Answer.{awaited_by};
ghost use Rattle.report.specs.Gains.{AreAnswerBytes};
ghost use Rattle.report.specs.Kept.{HasElements, HasFound, KeepsFound, KeepsOf, KeepsSettings};

use crate::solved::write_solved;
use crate::state::State;
use congruence::Verdict;
use ports::{Gate, Sink, WriteFault, write_all};
use problem::Problem;
use query_answers::{Awaited, awaited_by, write_logged, write_told};
use query_lang::{Query, Script};
use std::alloc::Global;
use std::thread::Threads;

/// Whether a query was answered.
#[derive(Clone, Copy)]
pub enum Answered {
    /// Its answer was written.
    Defined,
    /// What it waits for does not come about within the budgets: the line `undecided` was written,
    /// or for a chain `chain unlogged`.
    Undecided,
}

// Writes the answer of a query that waits for the problem's decision, which the state keeps.
fn write_decided<O: Sink>(
    alloc: Global,
    problem: &Problem,
    query: &Query,
    state: &mut State,
    sink: &mut O,
) -> Result<Answered, WriteFault>
    requires query { IsQueryOf problem.now query.now }
    requires kept { KeepsOf problem.now state.old }
    requires found { IsSome state.old.verdict }
    requires waits { awaited_by query.now ≡ Awaited.Decision }
    ensures kept { KeepsOf problem.now state.new }
    ensures settings { KeepsSettings state.old state.new }
    ensures stays { KeepsFound state.old state.new }
    ensures found { OnOk result (IsSome state.new.verdict) }
    ensures elements { IfOk result (λ answered. answered ≡ Answered.Defined
        → HasElements query.now state.new.elements) }
    ensures written { Writes O.Sink (AreAnswerBytes problem.now state.old.budgets state.old.classes
        query.now) sink.old sink.new result }
{
    let bound = state.classes();
    match &mut state.verdict {
        Some(Verdict::Known(solved)) => {
            let elements = &mut state.elements;
            let written = write_solved(alloc, problem, solved, elements, query, bound, sink);
            written.and(Ok(Answered::Defined))
        }
        Some(Verdict::Undecided(_)) => {
            write_all(sink, b"undecided\n").and(Ok(Answered::Undecided))
        }
        None => unreachable!(),
    }
}

// Writes the answer of a query that waits for a completion that logs.
fn write_completed<O: Sink>(
    alloc: Global,
    problem: &Problem,
    query: &Query,
    state: &State,
    sink: &mut O,
) -> Result<Answered, WriteFault>
    requires query { IsQueryOf problem.now query.now }
    requires posable { IsPosable problem.now }
    requires kept { KeepsOf problem.now state.now }
    requires found { IsSome state.now.completion }
    requires waits { awaited_by query.now ≡ Awaited.Log }
    ensures { Writes O.Sink (AreAnswerBytes problem.now state.now.budgets state.now.classes
        query.now) sink.old sink.new result }
{
    let Some(completion) = state.completion() else {
        unreachable!()
    };
    if completion.is_decided() {
        write_logged(alloc, problem, completion, query, sink).and(Ok(Answered::Defined))
    } else {
        write_all(sink, b"chain unlogged\n").and(Ok(Answered::Undecided))
    }
}

/// Writes the answer of a query of the script, each line as one piece, and tells whether it is
/// defined. The value of a word, tables of low index, meets and joins are told whatever the budgets
/// are. A chain is told where a completion of the relations and pairs ends within the length of the
/// budgets, and else with the line `chain unlogged`; the other queries are answered where the
/// problem is decided within the budgets, and else with the line `undecided`. It is decided, and
/// tables are searched for, with the number of workers of the state, at least one, which changes no
/// answer; with more than one each turn of their race, or each part of the search, is behind the
/// gate.
///
/// `Failed` comes only where the sink failed, and `NoMemory` for want of memory; the sink has then
/// gained a prefix of the answer. What the state keeps is of this script's problem, and what it
/// keeps afterwards too: what was found before stays, what the query waits for is kept where it is
/// answered, and nothing else in it changes. Where Green's classes are told, the names that they
/// are found by and the texts of words are kept, and where the idempotents are, the names.
pub fn write_answer<R: Threads + Sync, O: Sink, G: Gate + Sync>(
    rt: &R,
    alloc: Global,
    script: &Script,
    query: &Query,
    state: &mut State,
    sink: &mut O,
    gate: &G,
) -> Result<Answered, WriteFault>
    requires query { IsQueryOf script.now.problem query.now }
    requires kept { KeepsOf script.now.problem state.old }
    requires workers { 0 < state.old.workers }
    ensures kept { KeepsOf script.now.problem state.new }
    ensures settings { KeepsSettings state.old state.new }
    ensures stays { KeepsFound state.old state.new }
    ensures found { OnOk result (HasFound (awaited_by query.now) state.new) }
    ensures elements { IfOk result (λ answered. answered ≡ Answered.Defined
        → HasElements query.now state.new.elements) }
    ensures written { Writes O.Sink (AreAnswerBytes script.now.problem state.old.budgets
        state.old.classes query.now) sink.old sink.new result }
{
    let problem = script.problem();
    match awaited_by(query) {
        Awaited::Nothing => {
            let workers = state.workers();
            write_told(rt, alloc, problem, query, workers, sink, gate).and(Ok(Answered::Defined))
        }
        Awaited::Decision => {
            state.decide(rt, alloc, problem, gate)?;
            write_decided(alloc, problem, query, state, sink)
        }
        Awaited::Log => {
            state.complete(alloc, problem)?;
            write_completed(alloc, problem, query, state, sink)
        }
    }
}
