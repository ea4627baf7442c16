// Races of two lanes: on one thread by schedules, and over threads.
ghost use Rattle.std.specs.Prelude.{◌≡◌, ◌≤◌, length, IfOk};
ghost use Rattle.race.specs.Machine.{Starts};
ghost use Rattle.race.specs.Script.{IsScript};

use crate::helpers::{MANY, Seeker, seeks};
use ports::{NoMemory, Open};
use race::Progress::{Decided, More, NoMemory as Starves, Spent};
use race::{Lane, LaneState, Outcome, Progress, Racer, Scripted, play, race};
use std::alloc::Global;
use std::process::Abort;
use std::sync::atomic::AtomicBool;
use std::thread::Threads;

// How a race of two lanes ends, and how each lane ends.
type Ending = (Outcome, LaneState, LaneState);

// How the engine of a lane ends, and at which of its turns.
#[derive(Clone, Copy)]
enum End {
    DecidedFirst,
    DecidedSecond,
    DecidedThird,
    SpentFirst,
    SpentSecond,
    StarvedFirst,
    StarvedSecond,
}

// What the engine answers.
fn answers(end: End) -> &'static [Progress]
    ensures { IsScript result.now }
{
    match end {
        End::DecidedFirst => &[Decided],
        End::DecidedSecond => &[More, Decided],
        End::DecidedThird => &[More, More, Decided],
        End::SpentFirst => &[Spent],
        End::SpentSecond => &[More, Spent],
        End::StarvedFirst => &[Starves],
        End::StarvedSecond => &[More, Starves],
    }
}

// An engine that ends so.
fn scripted(alloc: Global, end: End) -> Result<Scripted, NoMemory>
    ensures { IfOk result (λ s. s.last ≡ Progress.More) }
{
    let answers = Vec::from_slice(alloc, answers(end))?;
    Scripted::new(alloc, answers)
}

// Two lanes whose engines end so.
fn two(alloc: Global, first: End, second: End) -> Result<Vec<Lane<Scripted>>, NoMemory>
    ensures { IfOk result (λ lanes. (length lanes.items ≡ 2)
        × Starts ⟦<Scripted as Racer>⟧ lanes.items) }
{
    let (front, back) = (scripted(alloc, first)?, scripted(alloc, second)?);
    Ok(vec![in alloc; Lane::new(0, front), Lane::new(1, back)]?)
}

fn ending(outcome: Outcome, lanes: &Vec<Lane<Scripted>>) -> Ending
    requires { length lanes.now.items ≡ 2 }
{
    (outcome, lanes[0].state(), lanes[1].state())
}

// How the two lanes race on one thread, by the schedule.
fn played(alloc: Global, first: End, second: End, schedule: &[usize]) -> Result<Ending, NoMemory> {
    let schedule = Vec::from_slice(alloc, schedule)?;
    let mut lanes = two(alloc, first, second)?;
    let outcome = play(&mut lanes, &schedule);
    Ok(ending(outcome, &lanes))
}

// How the two lanes race over threads.
fn raced<T: Threads + Sync>(
    rt: &T,
    alloc: Global,
    first: End,
    second: End,
    workers: usize,
) -> Result<Ending, NoMemory>
    requires { 1 ≤ workers }
{
    let mut lanes = two(alloc, first, second)?;
    let outcome = race(rt, alloc, &mut lanes, workers, &Open)?;
    Ok(ending(outcome, &lanes))
}

const FRONT_WINS: Ending = (Outcome::Won(0), LaneState::Won, LaneState::Lost(0));

const BACK_WINS: Ending = (Outcome::Won(1), LaneState::Lost(1), LaneState::Won);

const BACK_IS_CANCELLED: Ending = (Outcome::Won(0), LaneState::Won, LaneState::Cancelled(0));

const BACK_IS_SPENT: Ending = (Outcome::Won(0), LaneState::Won, LaneState::Spent);

const FRONT_STARVES: Ending = (Outcome::Starved(0), LaneState::Starved, LaneState::Spent);

const BACK_WINS_ALONE: Ending = (Outcome::Won(1), LaneState::Starved, LaneState::Won);

const BOTH_ARE_SPENT: Ending = (Outcome::AllSpent, LaneState::Spent, LaneState::Spent);

const BOTH_STARVE: Ending = (Outcome::Starved(0), LaneState::Starved, LaneState::Starved);

// Two lanes, a schedule, and how they end.
type Played<'a> = (End, End, &'a [usize], Ending);

const PLAYED: [Played<'static>; 7] = [
    (
        End::DecidedThird,
        End::SpentSecond,
        &[0, 0, 0, 1],
        BACK_IS_CANCELLED,
    ),
    (
        End::DecidedThird,
        End::SpentSecond,
        &[1, 1, 0, 0, 0],
        BACK_IS_SPENT,
    ),
    (End::DecidedThird, End::SpentSecond, &[], BACK_IS_SPENT),
    (End::DecidedFirst, End::DecidedFirst, &[0, 1], FRONT_WINS),
    (End::DecidedFirst, End::DecidedFirst, &[1, 0], BACK_WINS),
    (
        End::StarvedSecond,
        End::SpentSecond,
        &[1, 5, 0],
        FRONT_STARVES,
    ),
    (
        End::StarvedFirst,
        End::DecidedSecond,
        &[1, 1],
        BACK_WINS_ALONE,
    ),
];

// Each race ends so.
fn check_played(rt: &impl Abort, alloc: Global, races: &[Played]) {
    for (i, (first, second, schedule, want)) in races.iter().enumerate() {
        assert!(rt;
            played(alloc, *first, *second, schedule) == Ok(*want),
            "race {i}"
        );
    }
}

#[test]
fn lanes_race_by_schedules(rt: HostRuntime) {
    check_played(&rt, rt.alloc(), &PLAYED);
}

// Two lanes, and two ways in which they may end.
type Raced = (End, End, Ending, Ending);

const RACED: [Raced; 6] = [
    (
        End::DecidedThird,
        End::SpentSecond,
        BACK_IS_SPENT,
        BACK_IS_CANCELLED,
    ),
    (
        End::StarvedFirst,
        End::DecidedSecond,
        BACK_WINS_ALONE,
        BACK_WINS_ALONE,
    ),
    (End::DecidedFirst, End::DecidedFirst, FRONT_WINS, BACK_WINS),
    (
        End::StarvedSecond,
        End::SpentSecond,
        FRONT_STARVES,
        FRONT_STARVES,
    ),
    (
        End::SpentFirst,
        End::SpentSecond,
        BOTH_ARE_SPENT,
        BOTH_ARE_SPENT,
    ),
    (
        End::StarvedSecond,
        End::StarvedFirst,
        BOTH_STARVE,
        BOTH_STARVE,
    ),
];

// Whether a race ends in one of the two ways, on one thread, and over threads by 1, 2 and 3
// workers.
fn ends<T: Threads + Sync>(rt: &T, alloc: Global, race: &Raced) -> Result<bool, NoMemory> {
    let (first, second, one, other) = *race;
    let alone = played(alloc, first, second, &[])?;
    let mut as_told = alone == one || alone == other;
    for workers in 1..4usize {
        let ended = raced(rt, alloc, first, second, workers)?;
        as_told = as_told && (ended == one || ended == other);
    }
    Ok(as_told)
}

#[test]
fn lanes_race_over_threads(rt: HostRuntime) {
    for (i, race) in RACED.iter().enumerate() {
        assert!(rt; ends(&rt, rt.alloc(), race) == Ok(true), "race {i}");
    }
}

// In its first turn the engine looks for the mark of another, and is spent.
impl<'a> Racer for Seeker<'a> {
    ghost use Rattle.race.specs.declared.engines.Progress.TheVariants.{More, Spent};
    ghost use Rattle.std.specs.Prelude.{if◌then◌else◌};

    ghost Task = { Unit {0} };

    ghost task = { λ _. tt };

    ghost condition = { λ _. ⊥ };

    ghost measure = { λ _. 0 };

    ghost said = { λ seeker. if seeker.done then Spent else More };

    fn advance(&mut self) -> Progress {
        if !self.done {
            self.look();
        }
        Spent
    }
}

// Whether each of two lanes saw the other's mark in its first turn.
fn met<T: Threads + Sync>(
    rt: &T,
    alloc: Global,
    workers: usize,
    looks: u32,
) -> Result<(bool, bool), NoMemory>
    requires { 1 ≤ workers }
{
    let (front, back) = (AtomicBool::new(false), AtomicBool::new(false));
    let (first, second) = (seeks(&front, &back, looks), seeks(&back, &front, looks));
    let mut lanes = vec![in alloc; Lane::new(0, first), Lane::new(1, second)]?;
    race(rt, alloc, &mut lanes, workers, &Open)?;
    Ok((lanes[0].racer().saw, lanes[1].racer().saw))
}

// One worker gives the lanes their turns one after another.
#[test]
fn two_workers_run_lanes_side_by_side(rt: HostRuntime) {
    assert!(rt; met(&rt, rt.alloc(), 2, MANY) == Ok((true, true)));
    assert!(rt; met(&rt, rt.alloc(), 1, 1_000) == Ok((false, true)));
}
