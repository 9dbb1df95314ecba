//! The player of a script: it makes the calls on a sequencer and tells what each answered.
#![tactic(auto)]

mod answer;
mod chain;
mod images;
mod looking;
mod player;
mod playing;
mod refusal;
mod refusing;
mod removing;
mod session;
mod texts;
mod walking;

pub use answer::Answer;
pub use player::Player;
pub use session::{rehearse, rehearse_some};
