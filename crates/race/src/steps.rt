// Turns of a seated lane, with one step on the shared word each.
ghost use Rattle.std.specs.Prelude.{◌≡◌, ℕ, ◌<◌, Some};
ghost use Rattle.race.specs.Lanes.{settled, Turns};
ghost use Rattle.race.specs.SeatedLane.{IsSeated, TookTurns, turns_left_of};

use crate::engines::Racer;
use crate::lanes::{LaneState, Step, begin, settle};
use crate::seated_lane::SeatedLane;
use crate::winner::{Looks, Publishes, Word};
use ports::Gate;

// A running lane whose engine goes on loads the word once, and takes it in.
fn look<R: Racer>(word: &Word, seated: &mut SeatedLane<R>) -> u64
    requires seated { IsSeated R.Racer word.now.table_id seated.old }
    requires running { seated.old.lane.state ≡ LaneState.Running }
    requires step { seated.old.lane.step ≡ Some Step.Load }
    ensures lane { seated.new.lane ≡ settled seated.old.lane result }
    ensures seated { IsSeated R.Racer word.now.table_id seated.new }
{
    let found = word.load::<Looks>(&mut seated.seat, 0);
    settle(&mut seated.lane, found);
    found
}

// A running lane whose engine has decided exchanges 0 for its number once, and takes in the word
// that it found.
fn publish<R: Racer>(word: &Word, seated: &mut SeatedLane<R>) -> u64
    requires seated { IsSeated R.Racer word.now.table_id seated.old }
    requires running { seated.old.lane.state ≡ LaneState.Running }
    requires step { seated.old.lane.step ≡ Some Step.Exchange }
    ensures lane { seated.new.lane ≡ settled seated.old.lane result }
    ensures seated { IsSeated R.Racer word.now.table_id seated.new }
{
    let mine = seated.lane.number.word();
    let seen = word.compare_exchange::<Publishes>(&mut seated.seat, 0, 0, mine);
    settle(&mut seated.lane, seen);
    seen
}

// A whole turn of a seated lane that runs, once the gate lets it pass: a turn of the machine at the
// word that it finds.
pub(crate) fn turn_seated<R: Racer, G: Gate>(word: &Word, gate: &G, seated: &mut SeatedLane<R>)
    requires seated { IsSeated R.Racer word.now.table_id seated.old }
    requires running { seated.old.lane.state ≡ LaneState.Running }
    ensures turned { (found : ℕ) × (new : ℕ)
        × Turns R.Racer seated.old.lane.number seated.old.lane found seated.new.lane new }
    ensures ran { TookTurns R.Racer word.now.table_id seated.old seated.new }
    ensures fewer { turns_left_of R.Racer seated.new < turns_left_of R.Racer seated.old }
{
    gate.pass(seated.lane.number.get());
    match begin(&mut seated.lane) {
        Step::Load => {
            look(word, seated);
        }
        Step::Exchange => {
            publish(word, seated);
        }
        Step::Ended => (),
    }
}
