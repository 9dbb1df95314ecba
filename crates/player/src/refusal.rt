//! Why a call was refused, and how that is written.
ghost use Rattle.std.specs.Prelude.{◌≡◌, Some};
ghost use Rattle.readout.specs.Lines.{refusal_text};
ghost use Rattle.player.specs.Refusals.{refusal_of};

use calls::Fault;
use readout::layer_text;
use std::fmt;
use words::{Layer, Reason};

/// Why a call was refused, as the panel tells it.
#[derive(Clone, Copy)]
pub struct Refusal {
    number: u8,
    layer: Layer,
    place: usize,
}

impl Refusal {
    /// What is told of a fault.
    pub fn of(fault: Fault) -> Refusal
        ensures { result ≡ refusal_of fault }
    {
        Refusal {
            number: fault.number(),
            layer: fault.layer(),
            place: fault.place(),
        }
    }
}

impl fmt::Display for Refusal {
    ghost output = { λ r. Some (refusal_text r.number r.layer r.place) };

    fn fmt<W: fmt::Write>(&self, f: &mut fmt::Formatter<W>) -> fmt::Result {
        let number = self.number;
        let layer = layer_text(self.layer);
        let place = self.place;
        write!(f, "REFUSED {number} {layer} {place}")
    }
}
