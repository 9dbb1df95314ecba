//! The calls on one lane.
ghost use Rattle.std.specs.Prelude.{◌≡◌};
ghost use Rattle.lanes.specs.declared.lane.LaneCall.TheVariants.{Hold, Resume, Abort};
ghost use Rattle.calls.specs.Calls.{CallOnLane};

use crate::fault::Fault;
use lanes::{LaneCall, LaneNumber};
use table::Table;

/// Makes a call on a lane: its state and the call together decide.
fn call(table: &mut Table, lane: u32, call: LaneCall) -> Result<(), Fault>
    ensures { CallOnLane call table.old lane result table.new }
{
    let number = LaneNumber::new(lane).ok_or(Fault::Range(0))?;
    table
        .lanes
        .at_mut(number)
        .call(call)
        .map_err(|_| Fault::State(u8::from(number)))
}

/// A running lane stops where it is.
pub fn hold(table: &mut Table, lane: u32) -> Result<(), Fault>
    ensures { CallOnLane Hold table.old lane result table.new }
{
    call(table, lane, LaneCall::Hold)
}

/// A held lane runs on.
pub fn resume(table: &mut Table, lane: u32) -> Result<(), Fault>
    ensures { CallOnLane Resume table.old lane result table.new }
{
    call(table, lane, LaneCall::Resume)
}

/// A running or held lane becomes idle.
pub fn abort(table: &mut Table, lane: u32) -> Result<(), Fault>
    ensures { CallOnLane Abort table.old lane result table.new }
{
    call(table, lane, LaneCall::Abort)
}
