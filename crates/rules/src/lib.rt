//! Which of 512 places follow by a book of rules, and the chains that show it.
#![tactic(auto)]

mod book;
mod chain;
mod derived;
mod need;
mod places;

pub use book::{Book, Rule};
pub use chain::{Chain, Line};
pub use derived::{Derived, derive};
