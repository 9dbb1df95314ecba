//! What a call makes of a lane.
ghost use Rattle.std.specs.Prelude.{◌≡◌};
ghost use Rattle.lanes.specs.Calls.{state_answer, lane_answer, lane_after};

use crate::lane::{Lane, LaneCall, LaneState, WrongState};

/// The lane's own state and the call together decide.
fn next_state(state: LaneState, call: LaneCall) -> Result<LaneState, WrongState>
    ensures { result ≡ state_answer state call }
{
    match (state, call) {
        (LaneState::Idle, LaneCall::Start { place, tick }) => Ok(LaneState::Running {
            place,
            tick,
        }),
        (LaneState::Running { place, tick }, LaneCall::Hold) => Ok(LaneState::Held { place, tick }),
        (LaneState::Held { place, tick }, LaneCall::Resume) => Ok(LaneState::Running {
            place,
            tick,
        }),
        (LaneState::Running { .. } | LaneState::Held { .. }, LaneCall::Abort) => Ok(
            LaneState::Idle,
        ),
        _ => Err(WrongState),
    }
}

impl Lane {
    /// Makes a call on the lane. A refused call changes nothing, and no call changes the count.
    pub fn call(&mut self, call: LaneCall) -> Result<(), WrongState>
        ensures value { result ≡ lane_answer self.old call }
        ensures after { self.new ≡ lane_after self.old call }
    {
        self.state = next_state(self.state, call)?;
        Ok(())
    }
}
