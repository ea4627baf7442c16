// The one word that the lanes of a race share, and its rule.
use atomic_table::{Join, Play, Seat, Shared, Split, Table, TableRule};
use std::alloc::Global;
use std::collections::LinkedList;

// How far a lane has come with the word.
pub enum Phase {
    Looking,
    Won,
    Lost(usize),
    Cancelled(usize),
}

// A lane with its number.
pub struct Entry {
    pub number: usize,
    pub phase: Phase,
}

// What a seat knows: whether it is the keeper's, and then the number that it gives next; and its
// lanes. A view that is not the keeper's and has no lane is spent. No value of it is made.
pub struct View {
    pub keeps: bool,
    pub next: usize,
    pub entries: LinkedList<Entry>,
}

// The rule: 0 while no lane has published, and then one more than the number of the lane that has
// won.
pub struct Winner;

impl TableRule<(), View, ()> for Winner {
    ghost use Rattle.race.specs.Winner.{IsRuled, keeper};
    ghost use Rattle.std.specs.Prelude.{[]};

    ghost holds = { λ _. IsRuled };

    ghost first = { λ _. keeper 0 [] };
}

// The keeper gives its next number to a new seat.
pub struct Seats;

impl Split<View> for Seats {
    ghost use Rattle.race.specs.Winner.{seat_given, newcomer};

    ghost left = { seat_given };

    ghost right = { newcomer };
}

// The keeper gains the lanes of a seat, which is then spent.
pub struct Collects;

impl Join<View> for Collects {
    ghost use Rattle.race.specs.Winner.{gained, spent};

    ghost both = { gained };

    ghost spent = { spent };
}

// A load by a lane that goes on.
pub struct Looks;

impl Play<(), View> for Looks {
    ghost use Rattle.race.specs.Winner.{looks};

    ghost then = { looks };
}

// A compare-exchange by a lane that has decided.
pub struct Publishes;

impl Play<(), View> for Publishes {
    ghost use Rattle.race.specs.Winner.{publishes};

    ghost then = { publishes };
}

pub type WordTable = Table<(), View, (), Winner, Global>;

pub type Word = Shared<(), View, (), Winner>;

pub type WordSeat = Seat<(), View>;
