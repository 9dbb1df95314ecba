//! A list that hands out first what came in first, over slots that the caller lends.
#![tactic(auto)]

mod gathering;
mod list;

pub use gathering::gather;
pub use list::FirstIn;
