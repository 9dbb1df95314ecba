//! What the panel shows for the bytes of an image that is loaded by a call.
#![tactic(auto)]

ghost use Rattle.calls_readout.specs.Shown.{Answers, Shown};

use calls::Fault;
use readout::shown;
pub use readout::{Line, layer_text, pack};
use table::Table;

/// The panel's line for the image that the bytes make, as a cleared table judges it.
pub fn judged(bytes: &[u8]) -> Line
    ensures { Shown bytes.now result }
{
    shown(
        bytes,
        |words: &[u32]| -> Result<usize, Fault>
            ensures { Answers words.now result }
        { calls::load(&mut Table::cleared(), words) },
    )
}
