//! Plays the worked cases, a script on the standard input.
#![tactic(auto)]

use std::io;

fn main(rt: HostRuntime) -> io::Result<()> {
    player::rehearse(&rt)
}
