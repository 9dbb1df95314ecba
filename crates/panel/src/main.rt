//! The panel: judges an image from the standard input, and writes the line that tells how it was judged.
#![tactic(auto)]

ghost use Rattle.panel.specs.Shown.{Answers, Shown};

use readout::{Line, fill, shown};
use std::io;
use table::{Fault, Table};

/// How many bytes of the input are read at most: those of 4,096 words.
const BYTES: usize = 16384;

/// The line for the image that the bytes make, as a cleared table judges it.
fn judged(bytes: &[u8]) -> Line
    ensures { Shown bytes.now result }
{
    shown(
        bytes,
        |words: &[u32]| -> Result<usize, Fault>
            ensures { Answers words.now result }
        { Table::cleared().load(words) },
    )
}

fn main(rt: HostRuntime) -> io::Result<()> {
    let mut bytes = [0; BYTES];
    let count = fill(&mut rt.stdin(), &mut bytes)?;
    rt.write_all(judged(&bytes[0..count]).as_bytes())
}
