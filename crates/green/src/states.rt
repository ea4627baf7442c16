// Where numbers stand in a search, in four bytes each.
ghost use Rattle.std.specs.Prelude.{◌≡◌, ◌*◌, ◌<◌, IfOk};

use ports::NoMemory;
use std::marker::Model;

// Places and names are less.
const LIMIT: usize = 2_147_483_647;

// Where a number stands: not seen yet, at a place of the path, or in a component that is done, and
// goes by one of its numbers.
#[derive(Clone, Copy)]
pub enum State {
    Unseen,
    OnPath(usize),
    Done(usize),
}

// A state in four bytes, since most of the time goes into reading states here and there: 0 where
// the number is unseen, 1 and twice the place, or 2 and twice the name.
#[derive(Clone, Drop)]
pub struct Packed {
    code: u32,
}

impl Model for Packed {
    ghost use Rattle.green.specs.States.{state_of};
    ghost use Rattle.green.specs.declared.states.State.{State as Shown};

    ghost Value = { Shown };

    ghost view = { λ p. state_of p.code };
}

// A number in four bytes. One that does not fit in them is refused: there is no memory for so many.
pub(crate) fn in_four_bytes(number: usize) -> Result<u32, NoMemory>
    ensures { IfOk result (λ packed. packed ≡ number) }
{
    u32::try_from(number).map_err(|_| NoMemory)
}

// Twice a place or name, if it is less than the limit. Another is refused: there is no memory for so
// many.
fn twice(number: usize) -> Result<usize, NoMemory>
    ensures { IfOk result (λ double. (double ≡ 2 * number) × (number < 2147483647)) }
{
    if number < LIMIT {
        Ok(2 * number)
    } else {
        Err(NoMemory)
    }
}

impl Packed {
    // A state, packed. Refused only where its place or name is too large.
    pub(crate) fn new(state: State) -> Result<Packed, NoMemory>
        ensures { IfOk result (λ packed. packed ≡ state) }
    {
        let code = match state {
            State::Unseen => 0,
            State::OnPath(place) => twice(place)? + 1,
            State::Done(name) => twice(name)? + 2,
        };
        Ok(Packed { code: code as u32 })
    }

    // The state.
    pub(crate) fn state(&self) -> State
        ensures { result ≡ self.now }
    {
        let Some(rest) = (self.code as usize).checked_sub(1) else {
            return State::Unseen;
        };
        if rest % 2 == 0 {
            State::OnPath(rest / 2)
        } else {
            State::Done(rest / 2)
        }
    }
}
