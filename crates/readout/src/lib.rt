//! What the console reads in and shows: bytes packed into words, and the line that tells how an image was judged.
#![tactic(auto)]

mod bytes;
mod judging;
mod layer;
mod line;
mod reading;

pub use bytes::pack;
pub use judging::shown;
pub use layer::layer_text;
pub use line::Line;
pub use reading::fill;
