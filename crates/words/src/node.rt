//! The nodes of a programme and their parts.
ghost use Rattle.std.specs.Prelude.{◌≡◌};
ghost use Rattle.words.specs.Exits.{same};

/// Where a way leads: to a place, or out of the programme.
// No `Option<u16>`: a way out and a missing way would both be `None`, and the reader answers `Option<Exit>`.
#[derive(Clone, Copy, PartialEq, Eq, Debug)]
pub enum Exit {
    /// The lane has come to the end of the programme.
    End,
    /// The place with this number.
    Place(u16),
}

impl Exit {
    /// Whether two ways lead to the same place, or both to the end.
    pub fn is(self, other: Exit) -> bool
        ensures { result ≡ same self other }
    {
        self == other
    }
}

/// The ways on from a block beside its next: at most three.
// No array of options: it would allow gaps, which the format has not.
#[derive(Clone, Copy, PartialEq, Eq, Debug)]
pub enum Alternatives {
    /// No way beside the next.
    None,
    /// One way beside the next.
    One(Exit),
    /// Two ways beside the next.
    Two(Exit, Exit),
    /// Three ways beside the next.
    Three(Exit, Exit, Exit),
}

/// An order to a block: for so many visits, leave it towards the destination.
#[derive(Clone, Copy, PartialEq, Eq, Debug)]
pub struct Order {
    /// How many visits the order is still good for.
    pub repeats: u8,
    /// The destination becomes the block's next.
    pub lasting: bool,
    /// The order waits in the urgent row, not in the plain one.
    pub urgent: bool,
    /// Where the order leads.
    pub destination: Exit,
}

/// A pass at a block: for so many visits, leave it by its next.
#[derive(Clone, Copy, PartialEq, Eq, Debug)]
pub struct Pass {
    /// How many visits the pass is still good for.
    pub repeats: u8,
    /// The pass waits in the urgent row, not in the plain one.
    pub urgent: bool,
}

/// What can wait at a block.
#[derive(Clone, Copy, PartialEq, Eq, Debug)]
pub enum Entry {
    /// A pass.
    Pass(Pass),
    /// An order.
    Order(Order),
}

/// What a node does, by its kind.
#[derive(Clone, Copy, PartialEq, Eq, Debug)]
pub enum Body {
    /// Sends an event, due an offset after the lane's tick, and goes on to the next.
    Message {
        next: u16,
        offset: u32,
        event: u32,
    },
    /// Lasts for its period, and then goes on by the next or by an alternative.
    Block {
        next: Exit,
        period: u32,
        alternatives: Alternatives,
    },
    /// Queues its order at the target, and goes on to the next.
    Flow {
        next: u16,
        offset: u32,
        target: u16,
        order: Order,
    },
}

/// A node of the programme.
#[derive(Clone, Copy, PartialEq, Eq, Debug)]
pub struct Node {
    /// The part of the programme that the node belongs to.
    pub pattern: u8,
    /// What the node does.
    pub body: Body,
}
