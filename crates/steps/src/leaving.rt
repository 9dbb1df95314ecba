//! The step of a lane on a block.
ghost use Rattle.std.specs.Prelude.{◌≡◌, ◌+◌, if◌then◌else◌, Some, None, nat_le};
ghost use Rattle.table.specs.Changes.{rows_at};
ghost use Rattle.steps.specs.Limits.{limit};
ghost use Rattle.steps.specs.Steps.{ruling, way, arrived, left_for, leaving, on_block};

use crate::answer::Step;
use crate::elements::put;
use crate::lane_state::{LIMIT, set_state};
use crate::lasting::node_after;
use crate::row_use::{rows_used, ruling};
use crate::visit::Visit;
use lanes::LaneState;
use table::Table;
use words::{Entry, Exit, Node};

/// The tick a period later, unless that passes the limit.
fn later(tick: u64, period: u32) -> Option<u64>
    ensures { result ≡ (if nat_le (tick + period) limit then Some (tick + period) else None) }
{
    let period = u64::from(period);
    if tick > LIMIT - period {
        return None;
    }
    Some(tick + period)
}

/// Where an order that has repeats leads, or else the next.
fn way(ruling: Option<Entry>, next: Exit) -> Exit
    ensures { result ≡ way ruling next }
{
    match ruling {
        Some(Entry::Order(order)) if order.repeats > 0 => order.destination,
        _ => next,
    }
}

/// The state of a lane that has taken the exit.
fn arrived(exit: Exit, tick: u64) -> LaneState
    ensures { result ≡ arrived exit tick }
{
    match exit {
        Exit::End => LaneState::Idle,
        Exit::Place(place) => LaneState::Running { place, tick },
    }
}

/// The answer to a step by the exit.
fn left_for(exit: Exit) -> Step
    ensures { result ≡ left_for exit }
{
    match exit {
        Exit::End => Step::Ended,
        Exit::Place(place) => Step::Took(place),
    }
}

impl Visit {
    /// The lane leaves the block by the way that the ruling entry says.
    fn leave(self, table: &mut Table, later: u64, node: Node, next: Exit) -> Step
        ensures answer { result ≡ (leaving table.old self.lane self.place later node next (ruling (rows_at table.old self.place))).answer }
        ensures after { table.new ≡ (leaving table.old self.lane self.place later node next (ruling (rows_at table.old self.place))).table }
    {
        let place = self.place as usize;
        let rows = table.rows_at(place);
        let ruling = ruling(rows);
        put(&mut table.nodes, place, Some(node_after(node, ruling)));
        put(&mut table.rows, place, rows_used(rows));
        let exit = way(ruling, next);
        set_state(table, self.lane, arrived(exit, later));
        left_for(exit)
    }

    /// On a block: the lane leaves it a period later, or becomes idle where the tick would pass its limit.
    pub(crate) fn on_block(self, table: &mut Table, node: Node, next: Exit, period: u32) -> Step
        ensures answer { result ≡ (on_block table.old self.lane self.place self.tick node next period).answer }
        ensures after { table.new ≡ (on_block table.old self.lane self.place self.tick node next period).table }
    {
        match later(self.tick, period) {
            None => {
                set_state(table, self.lane, LaneState::Idle);
                Step::Range
            }
            Some(later) => self.leave(table, later, node, next),
        }
    }
}
