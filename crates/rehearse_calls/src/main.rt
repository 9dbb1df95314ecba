//! Plays a script from the standard input, a call on each line, and writes a line for each call.
#![tactic(auto)]

use std::io;

fn main(rt: HostRuntime) -> io::Result<()> {
    player::rehearse(&rt)
}
