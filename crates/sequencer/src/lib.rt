//! A table and an outlet that are used by the calls of the console alone.
#![tactic(auto)]

mod owner;
mod removal;

pub use owner::Sequencer;
