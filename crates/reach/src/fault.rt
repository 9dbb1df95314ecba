//! What can be wrong up to the layer of reach.
ghost use Rattle.std.specs.Prelude.{◌≡◌};
ghost use Rattle.reach.specs.declared.fault.Fault.TheVariants.{Table};
ghost use Rattle.reach.specs.Faults.{number_of, layer_of, place_of};

use words::{Layer, Reason};

/// Why a table may not be, or become, as it was asked for.
#[derive(Clone, Copy)]
pub enum Fault {
    /// Something is wrong with the nodes, or with the words that they come in.
    Table(table::Fault),
    /// Lanes can come to a place that they must not come to.
    Reach(u16),
}

impl Reason for Fault {
    ghost number_of = { number_of };

    ghost layer_of = { layer_of };

    ghost place_of = { place_of };

    /// The number that the panel shows for the fault.
    fn number(self) -> u8 {
        match self {
            Fault::Table(fault) => fault.number(),
            Fault::Reach(_) => 13,
        }
    }

    /// The layer that the panel shows for the fault.
    fn layer(self) -> Layer {
        match self {
            Fault::Table(fault) => fault.layer(),
            Fault::Reach(_) => Layer::Reach,
        }
    }

    /// The place that the panel shows for the fault: that of the table, or the last of a chain.
    fn place(self) -> usize {
        match self {
            Fault::Table(fault) => fault.place(),
            Fault::Reach(place) => place as usize,
        }
    }
}

impl From<table::Fault> for Fault {
    ghost from_gives = { λ fault r. r ≡ Table fault };

    fn from(fault: table::Fault) -> Fault {
        Fault::Table(fault)
    }
}
