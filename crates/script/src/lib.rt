//! Scripts of calls: their lines, and the call that each line says.
#![tactic(auto)]

mod call;
mod lines;
mod name;
mod number;
mod outlet;
mod parts;

pub use call::{Call, parse};
pub use lines::{Numbered, Script};
pub use name::Name;
pub use outlet::{Choice, OutletKind, chosen_by};
