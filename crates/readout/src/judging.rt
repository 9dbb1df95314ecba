//! What the panel shows for the bytes of an image.
ghost use Rattle.std.specs.Fn.{FnOnceReturnsAt};
ghost use Rattle.readout.specs.Shown.{Shown};

use crate::bytes::pack;
use crate::line::Line;
use words::Reason;

/// How many words of an image are judged at most.
const WORDS: usize = 4096;

/// The panel's line for the image that the bytes make, as `load` answers to its words.
/// At most 4,096 words are judged.
pub fn shown<R: Reason, F: FnOnce(&[u32]) -> Result<usize, R>>(bytes: &[u8], load: F) -> Line
    requires { F.IsAlwaysCallable load }
    ensures { Shown R.number_of R.layer_of R.place_of (FnOnceReturnsAt F.FnOnce load) bytes.now result }
{
    let mut words = [0; WORDS];
    let count = pack(bytes, &mut words);
    Line::judged(load(&words[..count]))
}
