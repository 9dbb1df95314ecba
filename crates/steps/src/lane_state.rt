//! Changes of one lane of a table.
ghost use Rattle.std.specs.Prelude.{◌≡◌};
ghost use Rattle.table.specs.Changes.{state_changed};

use lanes::{LaneNumber, LaneState};
use table::Table;

/// Ticks and counts go up to this.
pub(crate) const LIMIT: u64 = 281474976710655;

/// Gives the lane another state; its count stays.
pub(crate) fn set_state(table: &mut Table, lane: LaneNumber, state: LaneState)
    ensures { table.new ≡ state_changed table.old lane state }
{
    table.lanes.at_mut(lane).state = state;
}
