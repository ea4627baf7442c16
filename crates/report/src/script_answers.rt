// The answers of all queries of a script.
ghost use Rattle.std.specs.Prelude.{◌≡◌, ◌<◌, [], ◌∷◌};
ghost use Rattle.query_lang.specs.Query.{IsQueryOf};
ghost use Rattle.report.specs.Answers.{WritesLines, state_bounds};
ghost use Rattle.report.specs.Gains.{is_undecided};
ghost use Rattle.report.specs.Kept.{KeepsOf, KeepsSettings};

use crate::answers::{Answered, write_answer};
use crate::bounds::Bounds;
use crate::state::State;
use ports::{Gate, Sink, WriteFault};
use query_lang::{Query, Script};
use std::alloc::Global;
use std::thread::Threads;

// Whether a query was left undecided.
fn left_undecided(answered: Answered) -> bool
    ensures { result ≡ is_undecided answered }
{
    matches!(answered, Answered::Undecided)
}

// Writes the answer of one query, and tells whether it is undecided.
fn write_one<R: Threads + Sync, O: Sink, G: Gate + Sync>(
    rt: &R,
    alloc: Global,
    script: &Script,
    query: &Query,
    state: &mut State,
    out: &mut O,
    gate: &G,
) -> Result<bool, WriteFault>
    requires query { IsQueryOf script.now.problem query.now }
    requires kept { KeepsOf script.now.problem state.old }
    requires workers { 0 < state.old.workers }
    ensures kept { KeepsOf script.now.problem state.new }
    ensures settings { KeepsSettings state.old state.new }
    ensures written { WritesLines O.Sink (state_bounds state.old) script.now.problem
        (query.now ∷ []) out.old out.new result }
{
    let answered = write_answer(rt, alloc, script, query, state, out, gate)?;
    Ok(left_undecided(answered))
}

// Writes the answers of all queries with the state, and tells whether one is undecided.
fn write_all_answers<R: Threads + Sync, O: Sink, G: Gate + Sync>(
    rt: &R,
    alloc: Global,
    script: &Script,
    state: &mut State,
    out: &mut O,
    gate: &G,
) -> Result<bool, WriteFault>
    requires kept { KeepsOf script.now.problem state.old }
    requires workers { 0 < state.old.workers }
    ensures { WritesLines O.Sink (state_bounds state.old) script.now.problem script.now.queries
        out.old out.new result }
{
    let mut undecided = false;
    for query in script.queries() {
        undecided |= write_one(rt, alloc, script, query, state, out, gate)?;
    }
    Ok(undecided)
}

/// Writes the lines of the answers of all queries of a script, in order, and tells whether one is
/// undecided. Refused with `Failed` where the sink failed, else with `NoMemory`; the sink has then
/// gained a beginning of the lines. What is found of the problem for one query is kept for those
/// behind it.
pub fn write_answers<R: Threads + Sync, O: Sink, G: Gate + Sync>(
    rt: &R,
    alloc: Global,
    script: &Script,
    bounds: Bounds,
    out: &mut O,
    gate: &G,
) -> Result<bool, WriteFault>
    requires { 0 < bounds.workers }
    ensures { WritesLines O.Sink bounds script.now.problem script.now.queries
        out.old out.new result }
{
    let mut state = State::new(bounds);
    let written = write_all_answers(rt, alloc, script, &mut state, out, gate);
    state.let_go();
    written
}
