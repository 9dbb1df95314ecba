//! The step of a lane.
ghost use Rattle.std.specs.Prelude.{nat_lt};
ghost use Rattle.steps.specs.Steps.{stepped, offer_of};
ghost use Rattle.steps.specs.Walking.{Walks, LaneSteps};
ghost use Rattle.steps.specs.Answers.{Says};

use crate::answer::Step;
use crate::lane_state::set_state;
use crate::visit::Visit;
use lanes::{LaneNumber, LaneState};
use outlets::Outlet;
use structure::node_at;
use table::Table;
use words::Body;

/// The step of the lane with the number.
fn walk<O: Outlet>(table: &mut Table, outlet: &mut O, lane: LaneNumber) -> Step
    ensures { Walks O.Outlet.meaning (offer_of table.old lane) (λ accepted. stepped accepted table.old lane) outlet.old result table.new outlet.new }
{
    let (place, tick) = match table.lanes.at(lane).state {
        LaneState::Idle => return Step::Idle,
        LaneState::Held { .. } => return Step::Held,
        LaneState::Running { place, tick } => (place, tick),
    };
    let Some(node) = node_at(&table.nodes, place) else {
        set_state(table, lane, LaneState::Idle);
        return Step::Ended;
    };
    let visit = Visit { lane, place, tick };
    match node.body {
        Body::Message {
            next,
            offset,
            event,
        } => visit.on_message(table, outlet, next, offset, event),
        Body::Block { next, period, .. } => visit.on_block(table, node, next, period),
        Body::Flow {
            next,
            target,
            order,
            ..
        } => visit.on_flow(table, next, target, order),
    }
}

/// The step of a lane, if there is one with the number.
fn walk_any<O: Outlet>(table: &mut Table, outlet: &mut O, lane: usize) -> Option<Step>
    ensures { LaneSteps O.Outlet.meaning (nat_lt lane 8) table.old outlet.old lane result table.new outlet.new }
{
    let lane = LaneNumber::new(u32::try_from(lane).ok()?)?;
    Some(walk(table, outlet, lane))
}

/// Lets a lane take one step, and says what it came to; there is no lane above 7.
pub fn step<O: Outlet>(table: &mut Table, outlet: &mut O, lane: usize) -> Option<Step>
    ensures exact { LaneSteps O.Outlet.meaning (nat_lt lane 8) table.old outlet.old lane result table.new outlet.new }
    ensures says { Says table.old lane result table.new }
{
    walk_any(table, outlet, lane)
}
