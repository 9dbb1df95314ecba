//! How the nodes of a table hang together: what is late, what never ends, and what a target does not list.
#![tactic(auto)]

mod ending;
mod judge;
mod late;
mod listing;
mod node;
mod places;

pub use judge::{Flaw, first_flaw, lowest_endless};
pub use node::{lists, node_at};
pub use places::lowest;
