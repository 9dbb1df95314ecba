//! Steps of lanes, and takes from the outlet.
ghost use Rattle.calls.specs.Calls.{Steps, Takes};

use crate::fault::Fault;
use outlets::{Message, Outlet};
use steps::Step;
use table::Table;

/// Lets a lane take one step, and says what it came to; there is no lane above 7.
pub fn step<O: Outlet>(table: &mut Table, outlet: &mut O, lane: u32) -> Result<Step, Fault>
    ensures { Steps O.Outlet.meaning table.old outlet.old lane result table.new outlet.new }
{
    steps::step(table, outlet, lane as usize).ok_or(Fault::Range(0))
}

/// Hands out a message that waits in the outlet, or nothing where none does.
pub fn take<O: Outlet>(outlet: &mut O) -> Option<Message>
    ensures { Takes O.Outlet.meaning outlet.old result outlet.new }
{
    outlet.take()
}
