//! A start that is tried on the lanes, beside the nodes and the rows.
ghost use Rattle.std.specs.Prelude.{◌≡◌, ◌≤◌, length, is_ok, if◌then◌else◌, Some};
ghost use Rattle.lanes.specs.declared.lane.LaneState.TheVariants.{Idle};
ghost use Rattle.lanes.specs.Lanes.{lane_at};
ghost use Rattle.calls.specs.Trials.{running, with_lanes, put_back, Allows};

use crate::fault::Fault;
use crate::judge::judge;
use lanes::{Lane, LaneCall, LaneNumber, Lanes};
use reach::{Line, View};
use table::Table;

/// A lane that is tried. When the trial ends, the lane is put back as it was, unless the trial is accepted.
struct Trial<'a> {
    lanes: &'a mut Lanes,
    lane: LaneNumber,
    /// What the lane was; nothing once the trial is accepted.
    before: Option<Lane>,
}

impl<'a> Trial<'a> {
    fn new(lanes: &'a mut Lanes, lane: LaneNumber) -> Trial<'a>
        ensures parts { (result.lanes.now ≡ lanes.old) × ((result.lane ≡ lane) × (result.before ≡ Some (lane_at lanes.old lane))) }
        ensures named { result.lanes.ghost_name ≡ lanes.entry.ghost_name }
    {
        let before = Some(*lanes.at_mut(lane));
        Trial {
            lanes,
            lane,
            before,
        }
    }
}

impl Drop for Trial<'_> {
    fn drop(self)
        ensures { self.exit.0.now ≡ put_back self.entry.lanes.now self.entry.lane self.entry.before }
    {
        if let Some(before) = self.before {
            let lane = self.lane;
            *self.lanes.at_mut(lane) = before;
        }
        let Trial {
            lanes: _,
            lane: _,
            before: _,
        } = self;
    }
}

/// Starts the lane, which is idle, and keeps it running where no lane can come to an empty place of the table then.
pub(crate) fn try_start(
    lanes: &mut Lanes,
    table: &Table,
    lane: LaneNumber,
    place: u16,
    tick: u64,
    chain: &mut [Line],
) -> Result<(), Fault>
    requires idle { (lane_at lanes.old lane).state ≡ Idle }
    requires memory { 512 ≤ length chain.old }
    ensures judged { Allows (with_lanes table.now (running lanes.old lane place tick)) result chain.old chain.new }
    ensures after { lanes.new ≡ (if is_ok result then running lanes.old lane place tick else lanes.old) }
{
    let mut trial = Trial::new(lanes, lane);
    trial
        .lanes
        .call(usize::from(lane), LaneCall::Start { place, tick })
        .map_err(|_| Fault::State(u8::from(lane)))?;
    let view = View {
        nodes: &table.nodes,
        rows: &table.rows,
        lanes: trial.lanes,
    };
    let answer = judge(&view, chain);
    if answer.is_ok() {
        trial.before = None;
    }
    answer
}
