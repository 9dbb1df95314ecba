//! The calls by which a part of the programme is removed.
ghost use Rattle.std.specs.Prelude.{◌≡◌, false, IfOk};
ghost use Rattle.calls.specs.Calls.{Check, Remove, Release};
ghost use Rattle.calls.specs.Permits.{permit_pattern, fault_told, HandedBack};
ghost use Rattle.uses.specs.Uses.{quiet};
ghost use Rattle.uses.specs.Law.{Law};
ghost use Rattle.sequencer.specs.Going.{GoesOn};

use crate::owner::Sequencer;
use calls::{Fault, Permit, Refused};
use outlets::Outlet;
use reach::Line;

impl<O: Outlet> Sequencer<O> {
    /// Gives a permit to remove a pattern that no lane can come into. Its check is open from then on, until the permit goes into `remove` or
    /// `release`.
    pub fn check(&mut self, pattern: u32, chain: &mut [Line]) -> Result<Permit, Fault>
        ensures exact { Check self.old.table pattern (permit_pattern result) self.new.table chain.old chain.new }
        ensures unused { IfOk result (λ permit. permit.used ≡ false) }
        ensures outlet { self.new.outlet ≡ self.old.outlet }
        ensures goes_on { GoesOn O.Outlet.meaning self.old quiet self.new }
    {
        calls::check(&mut self.table, pattern, chain)
    }

    /// Empties the places of the permit's pattern and their rows, takes the repeats from every other waiting order to them, and closes the check.
    /// A permit whose pattern is not open is handed back. What holds after every list of calls is said here, whole.
    pub fn remove(&mut self, permit: Permit) -> Result<(), Refused>
        ensures exact { Remove self.old.table permit.pattern (fault_told result) self.new.table }
        ensures handed_back { HandedBack permit result }
        ensures outlet { self.new.outlet ≡ self.old.outlet }
        ensures goes_on { GoesOn O.Outlet.meaning self.old quiet self.new }
        ensures law { Law O.Outlet.meaning }
    {
        calls::remove(&mut self.table, permit)
    }

    /// Closes the check of the permit and leaves its pattern as it is. A permit whose pattern is not open is handed back.
    pub fn release(&mut self, permit: Permit) -> Result<(), Refused>
        ensures exact { Release self.old.table permit.pattern (fault_told result) self.new.table }
        ensures handed_back { HandedBack permit result }
        ensures outlet { self.new.outlet ≡ self.old.outlet }
        ensures goes_on { GoesOn O.Outlet.meaning self.old quiet self.new }
    {
        calls::release(&mut self.table, permit)
    }
}
