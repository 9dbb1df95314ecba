//! Images: lists of words that describe the nodes of a programme, read from and written into the caller's memory.
#![tactic(auto)]

mod places;
mod reader;
mod sizes;
mod writer;

pub use places::{Image, TooShort};
pub use reader::read;
pub use writer::write;
