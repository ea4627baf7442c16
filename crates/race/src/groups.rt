// Groups of seated lanes, which go in rotation.
ghost use Rattle.std.specs.Prelude.{◌<◌, MatchBool};
ghost use Rattle.std.specs.List.{AllZip};
ghost use Rattle.race.specs.SeatedLane.{AreSeated, NoneRuns, turns_left, TookTurns};

use crate::engines::Racer;
use crate::lanes::is_running;
use crate::seated_lane::SeatedLane;
use crate::steps::turn_seated;
use crate::winner::Word;
use ports::Gate;
use workers::Crew;

// A turn of each lane that runs. Whether one ran.
fn pass_over<R: Racer, G: Gate>(word: &Word, gate: &G, group: &mut [SeatedLane<R>]) -> bool
    requires { AreSeated R.Racer word.now.table_id group.old }
    ensures ran { AllZip (TookTurns R.Racer word.now.table_id) group.old group.new }
    ensures nearer { MatchBool result (turns_left R.Racer group.new < turns_left R.Racer group.old)
        (NoneRuns R.Racer group.new) }
{
    let mut any_ran = false;
    for i in 0..group.len() {
        let seated = &mut group[i];
        if is_running(seated.lane.state) {
            turn_seated(word, gate, seated);
            any_ran = true;
        }
    }
    any_ran
}

// Turns of the lanes of a group in rotation, until each has ended.
#[derive(Drop)]
pub(crate) struct Rotation<'a, G> {
    pub(crate) word: &'a Word,
    pub(crate) gate: &'a G,
}

impl<'a, R: Racer, G: Gate> Crew<SeatedLane<R>> for Rotation<'a, G> {
    ghost use Rattle.race.specs.SeatedLane.{IsSeated, TookAllTurns};

    ghost is_ready = { λ c. IsSeated R.Racer c.word.now.table_id };

    ghost makes = { λ c. TookAllTurns R.Racer c.word.now.table_id };

    fn work(&self, group: &mut [SeatedLane<R>]) {
        while pass_over(self.word, self.gate, group) {}
    }
}
