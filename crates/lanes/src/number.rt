//! Numbers of lanes.
ghost use Rattle.std.specs.Prelude.{◌≡◌, ℕ, ◌<◌, ◌≤◌, MatchOption};

use std::marker::Model;

/// A number below 8: each is the number of a lane. Clauses read it as the number.
#[derive(Clone, Copy, Debug, PartialEq, Eq)]
pub struct LaneNumber {
    number: u8,
}

impl Model for LaneNumber {
    ghost Value = { ℕ };

    ghost view = { λ lane. lane.number };

    ghost invariant = { λ lane. lane.number < 8 };

    ghost inverse = { λ n. record { number = n } };
}

impl LaneNumber {
    /// The number of the lane `n`, if there is such a lane.
    pub fn new(n: u32) -> Option<LaneNumber>
        ensures { MatchOption result (8 ≤ n) (λ lane. (n < 8) × (lane ≡ n)) }
    {
        if n < 8 {
            Some(LaneNumber { number: n as u8 })
        } else {
            None
        }
    }
}

/// The number as a plain number, below 8.
impl From<LaneNumber> for u8 {
    ghost from_gives = { λ lane n. (n ≡ lane) × (n < 8) };

    fn from(lane: LaneNumber) -> u8 {
        lane.number
    }
}

/// The number as an index, below 8.
impl From<LaneNumber> for usize {
    ghost from_gives = { λ lane n. (n ≡ lane) × (n < 8) };

    fn from(lane: LaneNumber) -> usize {
        usize::from(lane.number)
    }
}
