//! Why a call is refused.
ghost use Rattle.std.specs.Prelude.{◌≡◌};
ghost use Rattle.table.specs.declared.fault.Fault.TheVariants.{Words};
ghost use Rattle.reach.specs.declared.fault.Fault.TheVariants.{Table};
ghost use Rattle.calls.specs.declared.fault.Fault.TheVariants.{Below, Memory};
ghost use Rattle.calls.specs.Faults.{number_of, layer_of, place_of};

use image::TooShort;
use words::{Layer, Reason};

/// Why a call is refused.
#[derive(Clone, Copy)]
pub enum Fault {
    /// An argument is beyond its limit: which one, counted from 0.
    Range(u8),
    /// The memory that the caller lends is too small: how much is needed.
    Memory(usize),
    /// A check is open: its pattern.
    Busy(u8),
    /// A layer below found the fault: the words, the table or reach.
    Below(reach::Fault),
    /// The lane is in another state.
    State(u8),
    /// The row of the block has four entries already.
    Row(u16),
    /// The pattern has no node.
    Bare(u8),
    /// The pattern of the permit is not the open one.
    Permit(u8),
}

impl Reason for Fault {
    ghost number_of = { number_of };

    ghost layer_of = { layer_of };

    ghost place_of = { place_of };

    /// The number that the panel shows for the fault.
    fn number(self) -> u8 {
        match self {
            Fault::Range(_) => 1,
            Fault::Memory(_) => 2,
            Fault::Busy(_) => 3,
            Fault::Below(fault) => fault.number(),
            Fault::State(_) => 11,
            Fault::Row(_) => 12,
            Fault::Bare(_) => 14,
            Fault::Permit(_) => 15,
        }
    }

    /// The layer that the panel shows for the fault.
    fn layer(self) -> Layer {
        match self {
            Fault::Below(fault) => fault.layer(),
            _ => Layer::Call,
        }
    }

    /// The place that the panel shows for the fault: an argument, a size, a pattern, a lane, a place or a position.
    fn place(self) -> usize {
        match self {
            Fault::Range(argument) => argument as usize,
            Fault::Memory(needed) => needed,
            Fault::Busy(pattern) => pattern as usize,
            Fault::Below(fault) => fault.place(),
            Fault::State(lane) => lane as usize,
            Fault::Row(block) => block as usize,
            Fault::Bare(pattern) => pattern as usize,
            Fault::Permit(pattern) => pattern as usize,
        }
    }
}

impl From<reach::Fault> for Fault {
    ghost from_gives = { λ fault r. r ≡ Below fault };

    fn from(fault: reach::Fault) -> Fault {
        Fault::Below(fault)
    }
}

impl From<table::Fault> for Fault {
    ghost from_gives = { λ fault r. r ≡ Below (Table fault) };

    fn from(fault: table::Fault) -> Fault {
        Fault::Below(reach::Fault::Table(fault))
    }
}

impl From<TooShort> for Fault {
    ghost from_gives = { λ short r. r ≡ Memory short.needed };

    fn from(short: TooShort) -> Fault {
        Fault::Memory(short.needed)
    }
}

impl From<words::Fault> for Fault {
    ghost from_gives = { λ fault r. r ≡ Below (Table (Words fault)) };

    fn from(fault: words::Fault) -> Fault {
        Fault::Below(reach::Fault::Table(table::Fault::Words(fault)))
    }
}
