//! What is sent.

/// A message for a lane.
#[derive(Clone, Copy)]
pub struct Message {
    /// The lane that it is for.
    pub lane: u8,
    /// What happened.
    pub event: u32,
    /// The tick at which it is due.
    pub due: u64,
}
