//! The calls of the console on a table and an outlet.
#![tactic(auto)]

mod checking;
mod commanding;
mod fault;
mod judge;
mod lane_calls;
mod loading;
mod permit;
mod refusals;
mod starting;
mod trial;
mod walking;

pub use checking::{check, release, remove};
pub use commanding::command;
pub use fault::Fault;
pub use lane_calls::{abort, hold, resume};
pub use loading::{load, write};
pub use permit::{Permit, Refused};
pub use starting::start;
pub use steps::Step;
pub use walking::{step, take};
pub use words::Reason;
