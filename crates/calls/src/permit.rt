//! Permits to take a pattern out of a table.
ghost use Rattle.std.specs.Prelude.{◌≡◌, true, false};
ghost use Rattle.calls.specs.declared.fault.Fault.TheVariants.{Permit as the_permit};

use crate::fault::Fault;

/// A permit to remove a pattern. It is used by `remove` or `release`, and cannot be let go otherwise.
pub struct Permit {
    pattern: u8,
    // a drop contract that no value meets is refused, so a permit has a mark that some permit bears
    used: bool,
}

// Whoever lets a permit go has to show that it was used, which no contract says of a permit that is held.
impl Drop for Permit {
    fn drop(self)
        requires { self.used ≡ true }
    {
        let Permit {
            pattern: _,
            used: _,
        } = self;
    }
}

impl Permit {
    /// The permit for a pattern, which is not used yet.
    pub(crate) fn of(pattern: u8) -> Permit
        ensures pattern { result.pattern ≡ pattern }
        ensures unused { result.used ≡ false }
    {
        Permit {
            pattern,
            used: false,
        }
    }

    /// The pattern that may be removed.
    pub fn pattern(&self) -> u8
        ensures { result ≡ self.now.pattern }
    {
        self.pattern
    }

    /// Uses the permit up, so that it may be let go.
    pub(crate) fn spend(mut self) {
        self.used = true;
    }
}

/// A permit that was refused, and why. It cannot be let go either, but be taken apart.
pub struct Refused {
    fault: Fault,
    permit: Permit,
}

impl Drop for Refused {
    fn drop(self)
        requires { self.permit.used ≡ true }
    {
        let Refused { fault: _, permit } = self;
        drop(permit);
    }
}

impl Refused {
    /// Hands the permit back: its pattern is not the open one.
    pub(crate) fn of(permit: Permit) -> Refused
        ensures why { result.fault ≡ the_permit permit.pattern }
        ensures back { result.permit ≡ permit }
    {
        let fault = Fault::Permit(permit.pattern);
        Refused { fault, permit }
    }

    /// Why the permit was refused, and the permit.
    pub fn parts(self) -> (Fault, Permit)
        ensures why { result.0 ≡ self.fault }
        ensures back { result.1 ≡ self.permit }
    {
        let Refused { fault, permit } = self;
        (fault, permit)
    }
}
