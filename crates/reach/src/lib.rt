//! Where lanes can come to, and the chains of grounds that show it.
#![tactic(auto)]

mod bounds;
mod conclusion;
mod fault;
mod gather;
mod laws;
mod line;
mod source;
mod verdict;
mod view;

pub use conclusion::is_block;
pub use fault::Fault;
pub use laws::laws_of_reach;
pub use line::{Letter, Line};
pub use source::Source;
pub use verdict::{in_reach, into_pattern, onto_empty, to_place};
pub use view::View;
pub use words::Reason;
