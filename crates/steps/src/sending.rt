//! The step of a lane on a message.
ghost use Rattle.std.specs.Prelude.{◌≡◌, true, T};
ghost use Rattle.words.specs.declared.node.Body.TheVariants as of_body;
ghost use Rattle.steps.specs.Steps.{may_send, on_message, body_offer};
ghost use Rattle.steps.specs.Walking.{Walks};

use crate::answer::Step;
use crate::lane_state::{LIMIT, set_state};
use crate::visit::Visit;
use lanes::{LaneNumber, LaneState};
use outlets::{Message, Outlet};
use table::Table;

/// Whether the lane may send at the tick.
fn may_send(table: &Table, lane: LaneNumber, tick: u64) -> bool
    ensures { result ≡ may_send table.now lane tick }
{
    table.lanes.at(lane).sent < LIMIT && tick <= LIMIT
}

impl Visit {
    /// The lane has sent a message and goes on to the next.
    fn count_sent(self, table: &mut Table, next: u16)
        requires { T (may_send table.old self.lane self.tick) }
        ensures { table.new ≡ (on_message true table.old self.lane self.tick next).table }
    {
        let moving = table.lanes.at_mut(self.lane);
        moving.state = LaneState::Running {
            place: next,
            tick: self.tick,
        };
        moving.sent += 1;
    }

    /// On a message: the lane sends it and goes on, where the outlet accepts it.
    pub(crate) fn on_message<O: Outlet>(
        self,
        table: &mut Table,
        outlet: &mut O,
        next: u16,
        offset: u32,
        event: u32,
    ) -> Step
        ensures { Walks O.Outlet.meaning (body_offer table.old self.lane self.tick (of_body.Message next offset event)) (λ accepted. on_message accepted table.old self.lane self.tick next) outlet.old result table.new outlet.new }
    {
        if !may_send(table, self.lane, self.tick) {
            set_state(table, self.lane, LaneState::Idle);
            return Step::Range;
        }
        let message = Message {
            lane: u8::from(self.lane),
            event,
            due: self.tick + u64::from(offset),
        };
        if !outlet.offer(message) {
            return Step::Waits;
        }
        self.count_sent(table, next);
        Step::Sent
    }
}
