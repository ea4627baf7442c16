// Lanes of a race, and the events of one lane.
ghost use Rattle.std.specs.Prelude.{◌≡◌, ℕ, ◌<◌, ◌≤◌, ◌≢◌, Some, None};
ghost use Rattle.race.specs.Lanes.{is_running as runs, settled, Begins, Turns, IsSteps, fresh};

use crate::engines::{Progress, Racer};
use crate::numbers::LaneNumber;

/// What a turn of a lane does with the word, after its engine was advanced.
#[derive(Clone, Copy, Debug, PartialEq, Eq)]
pub enum Step {
    /// It looks at the word: the engine goes on.
    Load,
    /// It publishes its number, where the word is still 0: the engine has decided.
    Exchange,
    /// Nothing: the lane has ended.
    Ended,
}

/// How far a lane has come.
#[derive(Clone, Copy, Debug, PartialEq, Eq)]
pub enum LaneState {
    /// Its engine goes on.
    Running,
    /// It decided, and was the first to publish.
    Won,
    /// It decided, and found that the lane of this number had published.
    Lost(usize),
    /// It found, before it decided, that the lane of this number had published.
    Cancelled(usize),
    /// Its engine's budget is used up.
    Spent,
    /// Its engine found no memory.
    Starved,
}

/// One engine in a race, with its number, the step that its last turn gave, and how far it has
/// come.
#[derive(Drop)]
pub struct Lane<R> {
    pub(crate) number: LaneNumber,
    pub(crate) racer: R,
    pub(crate) step: Option<Step>,
    pub(crate) state: LaneState,
}

impl<R> Lane<R> {
    /// A lane that runs, and has had no turn. Its number is below 64.
    pub fn new(number: usize, racer: R) -> Lane<R>
        requires { number < 64 }
        ensures { result ≡ fresh number racer }
    {
        Lane {
            number: LaneNumber::new(number),
            racer,
            step: None,
            state: LaneState::Running,
        }
    }

    /// The engine.
    pub fn racer(&self) -> &R
        ensures { result.now ≡ self.now.racer }
    {
        &self.racer
    }

    /// How far the lane has come.
    pub fn state(&self) -> LaneState
        ensures { result ≡ self.now.state }
    {
        self.state
    }
}

pub(crate) fn is_running(state: LaneState) -> bool
    ensures { result ≡ runs state }
{
    matches!(state, LaneState::Running)
}

/// Advances the engine of a running lane once, and gives the step that is due: `Load` where the
/// engine goes on, `Exchange` where it has decided, and `Ended` where its budget is used up or it
/// found no memory, with which the lane ends. On a lane that does not run it gives `Ended` and
/// changes nothing.
pub fn begin<R: Racer>(lane: &mut Lane<R>) -> Step
    ensures { Begins R.Racer lane.old result lane.new }
{
    let LaneState::Running = lane.state else {
        return Step::Ended;
    };
    let step = match lane.racer.advance() {
        Progress::More => Step::Load,
        Progress::Decided => Step::Exchange,
        Progress::Spent => {
            lane.state = LaneState::Spent;
            Step::Ended
        }
        Progress::NoMemory => {
            lane.state = LaneState::Starved;
            Step::Ended
        }
    };
    lane.step = Some(step);
    step
}

/// Takes in the word that the lane's step found: 0, or one more than the number of the lane that
/// published. After `Load`, 0 keeps the lane running, and another word cancels it; after
/// `Exchange`, with 0 it has won, and with another word lost.
pub fn settle<R: Racer>(lane: &mut Lane<R>, seen: u64)
    requires running { lane.old.state ≡ LaneState.Running }
    requires step { IsSteps lane.old.step }
    requires seen { seen ≤ 64 }
    ensures { lane.new ≡ settled lane.old seen }
{
    if let Some(Step::Load) = lane.step {
        if seen > 0 {
            lane.state = LaneState::Cancelled(seen as usize - 1);
        }
    } else if seen == 0 {
        lane.state = LaneState::Won;
    } else {
        lane.state = LaneState::Lost(seen as usize - 1);
    }
}

/// One whole turn of a lane: [`begin`], the step that it gave on the word, and [`settle`]; after
/// `Ended` neither.
pub fn turn<R: Racer>(lane: &mut Lane<R>, word: &mut u64)
    requires { word.old ≤ 64 }
    ensures turn { Turns R.Racer lane.old.number lane.old word.old lane.new word.new }
    ensures word { word.new ≤ 64 }
{
    let seen = *word;
    match begin(lane) {
        Step::Load => settle(lane, seen),
        Step::Exchange => {
            if seen == 0 {
                *word = lane.number.word();
            }
            settle(lane, seen);
        }
        Step::Ended => (),
    }
}
