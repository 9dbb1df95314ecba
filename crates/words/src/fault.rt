//! What can be wrong with the words of an image, and how a fault is told.
ghost use Rattle.words.specs.Faults.{number_of, layer_of, place_of};

use crate::reason::Reason;

/// The part of the console that found a fault.
#[derive(Clone, Copy, PartialEq, Eq, Debug)]
pub enum Layer {
    /// The words of an image.
    Words,
    /// The table of nodes.
    Table,
    /// What lanes can come to.
    Reach,
    /// The call itself.
    Call,
}

/// What is wrong with the words of an image, each with its position, counted in words from 0.
#[derive(Clone, Copy, PartialEq, Eq, Debug)]
pub enum Fault {
    /// A kind, a value or a bit is not allowed there.
    BadWord(usize),
    /// The head's place is not above the last one.
    NotRising(usize),
    /// The end word is missing or counts wrong, or a word follows it.
    Ragged(usize),
}

impl Reason for Fault {
    ghost number_of = { number_of };

    ghost layer_of = { layer_of };

    ghost place_of = { place_of };

    /// The number that the panel shows for the fault.
    fn number(self) -> u8 {
        match self {
            Fault::BadWord(_) => 4,
            Fault::NotRising(_) => 5,
            Fault::Ragged(_) => 6,
        }
    }

    /// The layer that the panel shows for the fault.
    fn layer(self) -> Layer {
        match self {
            Fault::BadWord(_) | Fault::NotRising(_) | Fault::Ragged(_) => Layer::Words,
        }
    }

    /// The place that the panel shows for the fault: a position.
    fn place(self) -> usize {
        match self {
            Fault::BadWord(position) | Fault::NotRising(position) | Fault::Ragged(position) =>
                position,
        }
    }
}
