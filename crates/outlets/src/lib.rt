//! Outlets: where the messages of a console wait between those who offer and those who take, none lost and none doubled.
#![tactic(auto)]

mod arrival;
mod due;
mod message;
mod outlet;
mod request;
mod service;

pub use arrival::FirstInOutlet;
pub use due::EarliestDue;
pub use message::Message;
pub use outlet::Outlet;
pub use request::{Reply, Request};
pub use service::{answer, serve};
