//! The words of an image: what each of its 32-bit words says, and the nodes that they describe.
#![tactic(auto)]

mod fault;
mod node;
mod reason;
mod word;

pub use fault::{Fault, Layer};
pub use node::{Alternatives, Body, Entry, Exit, Node, Order, Pass};
pub use reason::Reason;
pub use word::{Kind, PLACES, Word, decode, encode, entry, entry_word};
