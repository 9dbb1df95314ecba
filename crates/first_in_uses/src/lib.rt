//! Two uses of the first-in list: lines gathered into the caller's memory, and calls that wait for their turn.
#![tactic(auto)]

mod lines;
mod waiting;

pub use lines::{Letter, Line, gather};
pub use waiting::{Call, wait};
