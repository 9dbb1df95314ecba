//! The eight lanes that walk a programme.
#![tactic(auto)]

mod calls;
mod lane;
mod number;
mod record;

pub use lane::{Lane, LaneCall, LaneState, WrongState};
pub use number::LaneNumber;
pub use record::{LaneFault, Lanes};
