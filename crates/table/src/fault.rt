//! What can be wrong with an image on its way into a table.
ghost use Rattle.std.specs.Prelude.{◌≡◌};
ghost use Rattle.table.specs.declared.fault.Fault.TheVariants.{Words, Flaw};
ghost use Rattle.table.specs.Faults.{number_of, layer_of, place_of};

use structure::Flaw;
use words::{Layer, Reason};

/// Why an image is not loaded.
#[derive(Clone, Copy)]
pub enum Fault {
    /// Something is wrong with its words.
    Words(words::Fault),
    /// A place that it has a node for is live already.
    Taken(u16),
    /// The nodes would not hang together.
    Flaw(Flaw),
}

impl Reason for Fault {
    ghost number_of = { number_of };

    ghost layer_of = { layer_of };

    ghost place_of = { place_of };

    /// The number that the panel shows for the fault.
    fn number(self) -> u8 {
        match self {
            Fault::Words(fault) => fault.number(),
            Fault::Taken(_) => 7,
            Fault::Flaw(flaw) => flaw.number(),
        }
    }

    /// The layer that the panel shows for the fault.
    fn layer(self) -> Layer {
        match self {
            Fault::Words(fault) => fault.layer(),
            Fault::Taken(_) | Fault::Flaw(_) => Layer::Table,
        }
    }

    /// The place that the panel shows for the fault: a position in the image, or a place of the table.
    fn place(self) -> usize {
        match self {
            Fault::Words(fault) => fault.place(),
            Fault::Taken(place) => place as usize,
            Fault::Flaw(flaw) => flaw.place() as usize,
        }
    }
}

impl From<words::Fault> for Fault {
    ghost from_gives = { λ fault r. r ≡ Words fault };

    fn from(fault: words::Fault) -> Fault {
        Fault::Words(fault)
    }
}

impl From<Flaw> for Fault {
    ghost from_gives = { λ flaw r. r ≡ Flaw flaw };

    fn from(flaw: Flaw) -> Fault {
        Fault::Flaw(flaw)
    }
}
