//! The step of a lane on a flow.
ghost use Rattle.std.specs.Prelude.{◌≡◌};
ghost use Rattle.steps.specs.Steps.{on_flow};

use crate::answer::Step;
use crate::lane_state::set_state;
use crate::queueing::queue;
use crate::visit::Visit;
use lanes::LaneState;
use reach::is_block;
use structure::node_at;
use table::Table;
use words::{Entry, Order};

impl Visit {
    /// On a flow: the order joins the target's row, or is lost, and the lane goes on to the next.
    pub(crate) fn on_flow(self, table: &mut Table, next: u16, target: u16, order: Order) -> Step
        ensures answer { result ≡ (on_flow table.old self.lane self.tick next target order).answer }
        ensures after { table.new ≡ (on_flow table.old self.lane self.tick next target order).table }
    {
        let queued = is_block(node_at(&table.nodes, target))
            && queue(table, target, Entry::Order(order));
        let onward = LaneState::Running {
            place: next,
            tick: self.tick,
        };
        set_state(table, self.lane, onward);
        if queued { Step::Queued } else { Step::Lost }
    }
}
