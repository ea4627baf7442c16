// What the engines answer turn by turn, and that they may go to other threads.
ghost use Rattle.theory.specs.Congruence.{IsRightSided};

use crate::helpers::{gives, right_congruence};
use cayley::PairsRacer;
use elements::Transf;
use knuth_bendix::Completion;
use ports::NoMemory;
use presentation::Congruence;
use race::Progress::{self, Decided, More, Spent};
use std::alloc::Global;
use std::process::Abort;
use tc_felsch::Felsch;
use tc_hlt::Hlt;

// The engines of presentations.
#[derive(Clone, Copy)]
enum Engine {
    Felsch,
    Hlt,
    Completion,
}

// That three letters are the empty word.
const CYCLIC: &[(&str, &str)] = &[("aaa", "")];

// That three letters are, and five.
const TRIVIAL: &[(&str, &str)] = &[("aaa", ""), ("aaaaa", "")];

// If the first were joined first, its rule would become an equation again when the other is joined.
const LONG_FIRST: &[(&str, &str)] = &[("aaaa", ""), ("a", "")];

// An engine, the relations of a monoid of one letter, a budget, and the first answers.
type Row<'a> = (Engine, &'a [(&'a str, &'a str)], usize, &'a [Progress]);

const TURNS: [Row<'static>; 9] = [
    (Engine::Felsch, CYCLIC, 2, &[More, More, Decided, Decided]),
    (Engine::Felsch, CYCLIC, 1, &[More, Spent, Spent]),
    (Engine::Felsch, TRIVIAL, 2, &[More, More, Decided]),
    (Engine::Hlt, CYCLIC, 3, &[More, More, Decided]),
    (Engine::Hlt, CYCLIC, 2, &[More, Spent, Spent]),
    (Engine::Hlt, CYCLIC, 0, &[Spent]),
    (Engine::Hlt, TRIVIAL, 1, &[Decided]),
    (Engine::Completion, CYCLIC, 3, &[More, Decided, Decided]),
    (Engine::Completion, LONG_FIRST, 4, &[More, More, Decided]),
];

// Whether the turns of the engine give these answers.
fn turns(
    alloc: Global,
    engine: Engine,
    congruence: &Congruence,
    budget: usize,
    answers: &[Progress],
) -> Result<bool, NoMemory>
    requires { IsRightSided congruence.now.congruence }
{
    Ok(match engine {
        Engine::Felsch => gives(Felsch::new(alloc, congruence, budget)?, answers),
        Engine::Hlt => gives(Hlt::new(alloc, congruence, budget)?, answers),
        Engine::Completion => {
            let presentation = congruence.presentation();
            gives(Completion::new(alloc, presentation, budget)?, answers)
        }
    })
}

// Whether the engine of the row gives its answers.
fn are_given(alloc: Global, row: &Row) -> Option<bool> {
    let (engine, relations, budget, answers) = *row;
    let congruence = right_congruence(alloc, relations)?;
    turns(alloc, engine, &congruence, budget, answers).ok()
}

// Each row's engine gives its answers.
fn check_rows(rt: &impl Abort, alloc: Global, rows: &[Row]) {
    for (i, row) in rows.iter().enumerate() {
        assert!(rt; are_given(alloc, row) == Some(true), "row {i}");
    }
}

#[test]
fn engines_take_their_turns(rt: HostRuntime) {
    check_rows(&rt, rt.alloc(), &TURNS);
}

// Another thread may have values of the type.
fn are_sent<T: Send>() {}

#[test]
fn engines_may_go_to_other_threads(_rt: HostRuntime) {
    are_sent::<Felsch>();
    are_sent::<Hlt>();
    are_sent::<Completion>();
    are_sent::<PairsRacer<Transf>>();
}
