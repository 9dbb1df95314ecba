//! The step of a lane: what it comes to on a message, a block or a flow.
#![tactic(auto)]

mod answer;
mod elements;
mod flowing;
mod lane_state;
mod lasting;
mod leaving;
mod queueing;
mod row_use;
mod sending;
mod visit;
mod walk;

pub use answer::Step;
pub use elements::put;
pub use queueing::{has_room, queue};
pub use walk::step;
