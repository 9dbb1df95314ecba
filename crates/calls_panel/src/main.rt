//! The panel: judges an image from the standard input, and writes the line that tells how it was judged.
#![tactic(auto)]

use calls_readout::judged;
use readout::fill;
use std::io;

/// How many bytes of the input are read at most: those of 4,096 words.
const BYTES: usize = 16384;

fn main(rt: HostRuntime) -> io::Result<()> {
    let mut bytes = [0; BYTES];
    let count = fill(&mut rt.stdin(), &mut bytes)?;
    rt.write_all(judged(&bytes[0..count]).as_bytes())
}
