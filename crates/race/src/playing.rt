// A race on one thread.
ghost use Rattle.std.specs.Prelude.{◌≡◌, ℕ, [], ◌∷◌, ◌++◌, ◌≤◌, ◌<◌, length, MatchBool};
ghost use Rattle.race.specs.Machine.{EndedAt, EndsAs, Goes, IsEnd, IsSound, Starts, Tells, numbers, outcome_of, rounds_of, state_at, weight};

use crate::engines::Racer;
use crate::lanes::{Lane, LaneState, is_running, turn};

/// How a race ended.
#[derive(Clone, Copy, Debug, PartialEq, Eq)]
pub enum Outcome {
    /// The lane of this number decided, and was the first to publish.
    Won(usize),
    /// Every engine's budget is used up.
    AllSpent,
    /// No lane decided, and this is the least number of one whose engine found no memory.
    Starved(usize),
}

// A turn of one lane, where there is seated. Whether it ran.
fn turn_at<R: Racer>(lanes: &mut Vec<Lane<R>>, number: usize, word: &mut u64) -> bool
    requires count { length lanes.old.items ≤ 64 }
    requires sound { IsSound R.Racer (state_at word.old lanes.old.items) }
    ensures goes { Goes R.Racer (number ∷ []) (state_at word.old lanes.old.items)
        (state_at word.new lanes.new.items) }
    ensures nearer { MatchBool result
        (weight R.Racer lanes.new.items < weight R.Racer lanes.old.items)
        (EndedAt number lanes.old.items × (lanes.new.items ≡ lanes.old.items)) }
{
    if number >= lanes.len() {
        return false;
    }
    let lane = &mut lanes[number];
    let runs = is_running(lane.state);
    turn(lane, word);
    runs
}

// Turns of the lanes that the schedule names.
fn follow<R: Racer>(lanes: &mut Vec<Lane<R>>, schedule: &[usize], word: &mut u64)
    requires count { length lanes.old.items ≤ 64 }
    requires sound { IsSound R.Racer (state_at word.old lanes.old.items) }
    ensures { Goes R.Racer schedule.now (state_at word.old lanes.old.items)
        (state_at word.new lanes.new.items) }
{
    for number in schedule {
        turn_at(lanes, *number, word);
    }
}

// A turn of each lane. Whether one ran.
fn round<R: Racer>(lanes: &mut Vec<Lane<R>>, word: &mut u64) -> bool
    requires count { length lanes.old.items ≤ 64 }
    requires sound { IsSound R.Racer (state_at word.old lanes.old.items) }
    ensures goes { Goes R.Racer (numbers (length lanes.old.items))
        (state_at word.old lanes.old.items) (state_at word.new lanes.new.items) }
    ensures nearer { MatchBool result
        (weight R.Racer lanes.new.items < weight R.Racer lanes.old.items)
        (IsEnd (state_at word.new lanes.new.items)) }
{
    let count = lanes.len();
    let mut any_ran = false;
    for number in 0..count {
        if turn_at(lanes, number, word) {
            any_ran = true;
        }
    }
    any_ran
}

// The outcome of a race that has ended.
pub(crate) fn outcome_at<R>(lanes: &[Lane<R>], word: u64) -> Outcome
    requires { word ≤ 64 }
    ensures { result ≡ outcome_of (state_at word lanes.now) }
{
    if word > 0 {
        return Outcome::Won(word as usize - 1);
    }
    for (number, lane) in lanes.iter().enumerate() {
        if let LaneState::Starved = lane.state {
            return Outcome::Starved(number);
        }
    }
    Outcome::AllSpent
}

/// A race on one thread, of 1 to 64 running lanes that are numbered by place: a turn for each lane
/// that the schedule names, and then turns of all lanes in rotation, until each has ended. A number
/// without a lane, or of a lane that has ended, does nothing. The lanes keep their numbers and
/// their engines' tasks. It asks for no memory beside what the engines ask for. A lane may be
/// handed in between its [`begin`](crate::begin) and its [`settle`](crate::settle): one whose step
/// is `Exchange` has an engine that has decided, as `begin` leaves it.
pub fn play<R: Racer>(lanes: &mut Vec<Lane<R>>, schedule: &Vec<usize>) -> Outcome
    requires count { (1 ≤ length lanes.old.items) × (length lanes.old.items ≤ 64) }
    requires running { Starts R.Racer lanes.old.items }
    ensures plays { (rounds : ℕ) × (word : ℕ)
        × Goes R.Racer (schedule.now.items ++ rounds_of rounds (numbers (length lanes.old.items)))
        (state_at 0 lanes.old.items) (state_at word lanes.new.items)
        × IsEnd (state_at word lanes.new.items)
        × (result ≡ outcome_of (state_at word lanes.new.items)) }
    ensures ends { EndsAs R.Racer lanes.old.items result lanes.new.items }
    ensures told { Tells R.Racer result lanes.new.items }
{
    let mut word = 0;
    follow(lanes, schedule.as_slice(), &mut word);
    while round(lanes, &mut word) {}
    outcome_at(lanes.as_slice(), word)
}
