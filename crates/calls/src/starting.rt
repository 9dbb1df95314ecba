//! Starting a lane.
ghost use Rattle.std.specs.Prelude.{◌≡◌, ◌≤◌, length};
ghost use Rattle.lanes.specs.declared.lane.LaneState.TheVariants.{Idle};
ghost use Rattle.lanes.specs.Lanes.{lane_at};
ghost use Rattle.calls.specs.Judging.{Judged};
ghost use Rattle.calls.specs.Calls.{started, Start};

use crate::fault::Fault;
use crate::refusals::startable;
use crate::trial::try_start;
use lanes::LaneNumber;
use reach::Line;
use table::Table;

fn start_idle(
    table: &mut Table,
    lane: LaneNumber,
    place: u16,
    tick: u64,
    chain: &mut [Line],
) -> Result<(), Fault>
    requires idle { (lane_at table.old.lanes lane).state ≡ Idle }
    requires memory { 512 ≤ length chain.old }
    ensures { Judged (started table.old lane place tick) result table.old table.new chain.old chain.new }
{
    let mut lanes = table.lanes;
    let answer = try_start(&mut lanes, table, lane, place, tick, chain);
    table.lanes = lanes;
    answer
}

/// An idle lane runs from a place and a tick on, unless lanes could come to an empty place then.
/// A refusal changes nothing but the chain memory, which holds the chain that shows where they could come to.
pub fn start(
    table: &mut Table,
    lane: u32,
    place: u32,
    tick: u64,
    chain: &mut [Line],
) -> Result<(), Fault>
    ensures { Start table.old lane place tick result table.new chain.old chain.new }
{
    let lane = startable(table, lane, place, tick, chain.len())?;
    start_idle(table, lane, place as u16, tick, chain)
}
