//! The table that all calls work on: its nodes, the rows of its blocks, its lanes and its open check.
#![tactic(auto)]

mod changes;
mod emptying;
mod fault;
mod loading;
mod state;

pub use changes::in_pattern;
pub use fault::Fault;
pub use state::{Rows, Table, rows_in};
pub use words::Reason;
