//! The rows of a block: the orders and passes that wait at it, first in, first out, never more than four to a row.
#![tactic(auto)]

mod entry;
mod plain;
mod row;

pub use plain::{BLANK, PlainRow, blank_behind};
pub use row::Row;
