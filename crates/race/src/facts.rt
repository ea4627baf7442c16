//! Laws of a race: of its events, and of turns that are mixed.
ghost use Rattle.std.specs.Prelude.{◌≡◌, ℕ, List};
ghost use Rattle.race.specs.Machine.{Event, IsAllowed, IsSound, RaceState, happens, run};
ghost use Rattle.race.specs.WholeTurns.{EachIsWhole, one_by_one, own, turns_in_order};

use crate::engines::Racer;

/// Each event of a race keeps a sound state sound.
pub fn events_keep_states_sound<R: Racer>()
    ensures { (s : RaceState R) (e : Event R) → IsSound R.Racer s → IsAllowed R.Racer s e
        → IsSound R.Racer (happens s e) }
{}

/// Events of which each lane's own are whole turns, however those of different lanes are mixed,
/// leave the state that these turns leave one after another, in the order of their looks and
/// publishes; a turn that ends with its advance stands at the place of the advance. Each lane's own
/// events are the same there.
pub fn turns_stand_one_by_one<R>()
    ensures state { (events : List (Event R)) (s : RaceState R) → EachIsWhole events
        → run events s ≡ run (one_by_one (turns_in_order events)) s }
    ensures same { (events : List (Event R)) (lane : ℕ) → EachIsWhole events
        → own lane (one_by_one (turns_in_order events)) ≡ own lane events }
{}
