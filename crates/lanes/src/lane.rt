//! One lane.

/// What a lane is doing.
#[derive(Clone, Copy, Debug, PartialEq, Eq)]
pub enum LaneState {
    /// It walks nowhere, and has neither place nor tick.
    Idle,
    /// It walks, and is at a place, at a tick.
    Running { place: u16, tick: u64 },
    /// It is stopped where it is.
    Held { place: u16, tick: u64 },
}

/// A lane.
#[derive(Clone, Copy, Debug, PartialEq, Eq)]
pub struct Lane {
    /// What it is doing.
    pub state: LaneState,
    /// How many messages it has sent, across starts.
    pub sent: u64,
}

/// A call on a lane.
#[derive(Clone, Copy, Debug, PartialEq, Eq)]
pub enum LaneCall {
    /// An idle lane runs from a place and a tick on.
    Start { place: u16, tick: u64 },
    /// A running lane stops where it is.
    Hold,
    /// A held lane runs on.
    Resume,
    /// A running or held lane becomes idle.
    Abort,
}

/// The lane is in another state than the call asks for.
#[derive(Clone, Copy, Debug, PartialEq, Eq)]
pub struct WrongState;
