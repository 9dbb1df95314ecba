//! The record of all eight lanes.
ghost use Rattle.std.specs.Prelude.{◌≡◌, ℕ, ◌<◌, if◌then◌else◌, Some, None, nat_lt, slice_index_or, slice_set};
ghost use Rattle.std.specs.Borrow.{sem, follows};
ghost use Rattle.lanes.specs.contracts.record.Lanes.{the_row};
ghost use Rattle.lanes.specs.Lanes.{idle_lanes, lane_at, call_answer, call_leaves};

use crate::lane::{Lane, LaneCall, LaneState, WrongState};
use crate::number::LaneNumber;
use slots::Slots;

/// Eight lanes, numbered 0 to 7.
#[derive(Clone, Copy)]
pub struct Lanes<L = Lane> {
    lanes: Slots<L, 8>,
}

/// Why a call on one of the lanes is refused.
#[derive(Clone, Copy, Debug, PartialEq, Eq)]
pub enum LaneFault {
    /// There is no lane with the number.
    NoLane,
    /// The lane is in another state.
    WrongState,
}

impl From<WrongState> for LaneFault {
    ghost use Rattle.std.specs.Prelude.{◌≡◌};
    ghost use Rattle.lanes.specs.declared.record.LaneFault.TheVariants as of_fault;

    ghost from_gives = { λ _ fault. fault ≡ of_fault.WrongState };

    fn from(_: WrongState) -> LaneFault {
        LaneFault::WrongState
    }
}

impl<L> Lanes<L> {
    /// Lends the lane with the number `i`, which is below 8. When the loan ends the other lanes are as they were.
    pub fn lane_mut(&mut self, i: usize) -> &mut L
        requires { i < 8 }
        ensures* follows { sem 𝓛 (follows (the_row L.row) L.row self.entry.ghost_name result.ghost_name (λ w. record { lanes = record { items = slice_set self.old.lanes.items i w } })) }
        ensures value { (d : L) → result.now ≡ slice_index_or self.old.lanes.items i d }
    {
        self.lanes.slot_mut(i)
    }

    // beside `lane_mut`, which asks that a plain number is below 8
    /// Lends the lane with the number. When the loan ends the other lanes are as they were.
    pub fn at_mut(&mut self, number: LaneNumber) -> &mut L
        ensures* follows { sem 𝓛 (follows (the_row L.row) L.row self.entry.ghost_name result.ghost_name (λ w. record { lanes = record { items = slice_set self.old.lanes.items number w } })) }
        ensures value { (d : L) → result.now ≡ slice_index_or self.old.lanes.items number d }
    {
        self.lane_mut(usize::from(number))
    }
}

impl Lanes {
    /// Eight idle lanes with counts of 0.
    pub fn idle() -> Lanes
        ensures { result ≡ idle_lanes }
    {
        let items = [Lane {
            state: LaneState::Idle,
            sent: 0,
        }; 8];
        Lanes {
            lanes: Slots { items },
        }
    }

    /// The lane with the number `i`, if there is one.
    pub fn lane(&self, i: usize) -> Option<Lane>
        ensures { result ≡ (if nat_lt i 8 then Some (lane_at self.now i) else None) }
    {
        self.lanes.items.get(i).copied()
    }

    /// The lane with the number.
    pub fn at(&self, number: LaneNumber) -> Lane
        ensures { result ≡ lane_at self.now number }
    {
        self.lanes.items[usize::from(number)]
    }

    /// Makes a call on the lane with the number `i`. A refused call changes nothing.
    pub fn call(&mut self, i: usize, call: LaneCall) -> Result<(), LaneFault>
        ensures value { result ≡ call_answer self.old i call }
        ensures after { self.new ≡ call_leaves self.old i call }
    {
        if i >= 8 {
            return Err(LaneFault::NoLane);
        }
        self.lane_mut(i).call(call)?;
        Ok(())
    }
}
