//! The sequencer, and its calls on lanes, blocks and images.
ghost use Rattle.std.specs.Prelude.{◌≡◌, length};
ghost use Rattle.lanes.specs.declared.lane.LaneCall.TheVariants.{Hold, Resume, Abort};
ghost use Rattle.image.specs.Writing.{write_leaves};
ghost use Rattle.table.specs.Tables.{cleared};
ghost use Rattle.calls.specs.Calls.{Load, write_told, Start, CallOnLane, Command, Steps, Takes};
ghost use Rattle.uses.specs.Uses.{quiet, step_event, take_event};
ghost use Rattle.uses.specs.Law.{Law};
ghost use Rattle.sequencer.specs.Going.{Begins, GoesOn};

use calls::{Fault, Step};
use outlets::{Message, Outlet};
use reach::Line;
use table::Table;

/// A table and an outlet. Nothing changes them but these calls, so that what holds after every list of calls holds of them: no lane stands on
/// an empty place or can come to one, a refusal for reach has its cause, and no message is lost or doubled.
// Each call says for itself what it leaves alone and that it leads on by its event: an invariant could name no event.
#[derive(Drop)]
pub struct Sequencer<O> {
    pub(crate) table: Table,
    pub(crate) outlet: O,
}

impl<O: Outlet> Sequencer<O> {
    /// A sequencer with a cleared table. The law holds from here on, if nothing waits in the outlet.
    pub fn new(outlet: O) -> Self
        ensures exact { (result.table ≡ cleared) × (result.outlet ≡ outlet) }
        ensures begins { Begins O.Outlet.meaning outlet }
        ensures law { Law O.Outlet.meaning }
    {
        Sequencer {
            table: Table::cleared(),
            outlet,
        }
    }

    /// The table, to look at.
    pub fn table(&self) -> &Table
        ensures { result.now ≡ self.now.table }
    {
        &self.table
    }

    /// The outlet, to look at.
    pub fn outlet(&self) -> &O
        ensures { result.now ≡ self.now.outlet }
    {
        &self.outlet
    }

    /// Loads an image: all its nodes are added, or none, and their number is told.
    pub fn load(&mut self, words: &[u32]) -> Result<usize, Fault>
        ensures exact { Load self.old.table words.now result self.new.table }
        ensures outlet { self.new.outlet ≡ self.old.outlet }
        ensures goes_on { GoesOn O.Outlet.meaning self.old quiet self.new }
    {
        calls::load(&mut self.table, words)
    }

    /// Writes all nodes in rising places as an image, and tells how many words that are. Words past the image keep what they held.
    pub fn write(&self, words: &mut [u32]) -> Result<usize, Fault>
        ensures value { result ≡ write_told self.now.table.nodes (length words.old) }
        ensures after { words.new ≡ write_leaves self.now.table.nodes words.old }
    {
        calls::write(&self.table, words)
    }

    /// Lets an idle lane run from a place and a tick on, unless a lane could then come to an empty place. The chain memory has 512 lines.
    pub fn start(
        &mut self,
        lane: u32,
        place: u32,
        tick: u64,
        chain: &mut [Line],
    ) -> Result<(), Fault>
        ensures exact { Start self.old.table lane place tick result self.new.table chain.old chain.new }
        ensures outlet { self.new.outlet ≡ self.old.outlet }
        ensures goes_on { GoesOn O.Outlet.meaning self.old quiet self.new }
    {
        calls::start(&mut self.table, lane, place, tick, chain)
    }

    /// Stops a running lane where it is.
    pub fn hold(&mut self, lane: u32) -> Result<(), Fault>
        ensures exact { CallOnLane Hold self.old.table lane result self.new.table }
        ensures outlet { self.new.outlet ≡ self.old.outlet }
        ensures goes_on { GoesOn O.Outlet.meaning self.old quiet self.new }
    {
        calls::hold(&mut self.table, lane)
    }

    /// Lets a held lane run on.
    pub fn resume(&mut self, lane: u32) -> Result<(), Fault>
        ensures exact { CallOnLane Resume self.old.table lane result self.new.table }
        ensures outlet { self.new.outlet ≡ self.old.outlet }
        ensures goes_on { GoesOn O.Outlet.meaning self.old quiet self.new }
    {
        calls::resume(&mut self.table, lane)
    }

    /// Makes a running or held lane idle.
    pub fn abort(&mut self, lane: u32) -> Result<(), Fault>
        ensures exact { CallOnLane Abort self.old.table lane result self.new.table }
        ensures outlet { self.new.outlet ≡ self.old.outlet }
        ensures goes_on { GoesOn O.Outlet.meaning self.old quiet self.new }
    {
        calls::abort(&mut self.table, lane)
    }

    /// Puts an order or a pass, given as one word, at the end of a row of a block, unless a lane could then come to an empty place.
    pub fn command(&mut self, block: u32, word: u32, chain: &mut [Line]) -> Result<(), Fault>
        ensures exact { Command self.old.table block word result self.new.table chain.old chain.new }
        ensures outlet { self.new.outlet ≡ self.old.outlet }
        ensures goes_on { GoesOn O.Outlet.meaning self.old quiet self.new }
    {
        calls::command(&mut self.table, block, word, chain)
    }

    /// Makes one step of a lane, which may send a message to the outlet.
    pub fn step(&mut self, lane: u32) -> Result<Step, Fault>
        ensures exact { Steps O.Outlet.meaning self.old.table self.old.outlet lane result self.new.table self.new.outlet }
        ensures goes_on { GoesOn O.Outlet.meaning self.old (step_event self.old.table lane result) self.new }
    {
        calls::step(&mut self.table, &mut self.outlet, lane)
    }

    /// Takes a message from the outlet, or nothing where none waits.
    pub fn take(&mut self) -> Option<Message>
        ensures exact { Takes O.Outlet.meaning self.old.outlet result self.new.outlet }
        ensures table { self.new.table ≡ self.old.table }
        ensures goes_on { GoesOn O.Outlet.meaning self.old (take_event result) self.new }
    {
        calls::take(&mut self.outlet)
    }
}
