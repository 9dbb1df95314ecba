//! Where a lane is on its walk.
use lanes::LaneNumber;

/// A lane that runs, its place and its tick.
#[derive(Clone, Copy)]
pub(crate) struct Visit {
    /// The lane.
    pub(crate) lane: LaneNumber,
    /// Where it is.
    pub(crate) place: u16,
    /// Its tick.
    pub(crate) tick: u64,
}
