//! What a step of a lane came to.

/// The answer to a step.
#[derive(Clone, Copy, PartialEq, Eq, Debug)]
pub enum Step {
    /// The lane is idle.
    Idle,
    /// The lane is held.
    Held,
    /// A count or a tick has come to its limit, and the lane is idle now.
    Range,
    /// The message was sent.
    Sent,
    /// The outlet has no room for the message.
    Waits,
    /// The order waits at its target.
    Queued,
    /// The order was lost: its target is no live block, or the row is full.
    Lost,
    /// The lane left the block for this place.
    Took(u16),
    /// The lane left the block and the programme.
    Ended,
}
