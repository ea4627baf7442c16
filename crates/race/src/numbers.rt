// The numbers of lanes.
ghost use Rattle.std.specs.Prelude.{◌≡◌, ◌+◌, ◌<◌, ◌≤◌};

use std::marker::Model;

// The number of a lane, which is below 64.
#[derive(Drop)]
pub struct LaneNumber {
    number: usize,
}

impl Model for LaneNumber {
    ghost use Rattle.std.specs.Prelude.{ℕ, ◌<◌};

    ghost Value = { ℕ };

    ghost view = { λ n. n.number };

    ghost invariant = { λ n. n.number < 64 };
}

impl LaneNumber {
    /// The number as that of a lane.
    pub fn new(number: usize) -> LaneNumber
        requires { number < 64 }
        ensures { result ≡ number }
    {
        LaneNumber { number }
    }

    /// The number.
    pub fn get(&self) -> usize
        ensures { result ≡ self.now }
    {
        self.number
    }

    /// The word that names the lane: one more than its number.
    pub fn word(&self) -> u64
        ensures word { result ≡ self.now + 1 }
        ensures small { result ≤ 64 }
    {
        self.number as u64 + 1
    }
}
