//! The lines of a chain of grounds.

/// Why a lane can come to a place.
#[derive(Clone, Copy, PartialEq, Eq, Debug)]
pub enum Letter {
    /// L: a running or held lane is there.
    Lane,
    /// N: it is the next of an earlier live place.
    Next,
    /// Q: an order to it waits at an earlier block.
    Queue,
    /// F: an earlier flow orders an earlier block to it.
    Flow,
}

/// A line of a chain: a place, and its ground.
// A letter and two numbers, as a line is shown; which number means what, the letter says.
#[derive(Clone, Copy, PartialEq, Eq, Debug)]
pub struct Line {
    /// The place that is come to.
    pub place: u16,
    /// The kind of the ground.
    pub letter: Letter,
    /// The lane for L, the earlier place for N, the block for Q, the flow for F.
    pub first: u16,
    /// The flow's target for F; otherwise 0.
    pub second: u16,
}

impl Line {
    /// What stands in a memory of lines before a chain is written to it.
    pub const BLANK: Line = Line {
        place: 0,
        letter: Letter::Lane,
        first: 0,
        second: 0,
    };
}
