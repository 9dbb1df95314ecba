//! How the console reads in an image.
ghost use Rattle.std.specs.Prelude.{ℕ, ◌≤◌, length, IfOk};

use std::io;
use std::io::Read;

/// Reads into `bytes` until the input ends or there is no more room, and says how many bytes came.
pub fn fill(input: &mut impl Read, bytes: &mut [u8]) -> io::Result<usize>
    ensures { IfOk result (λ n. n ≤ length bytes.old) }
{
    let mut filled = 0;
    // a read may bring fewer bytes than there is room for, and `read_to_end` would take memory
    while filled < bytes.len() {
        let more = input.read(&mut bytes[filled..])?;
        if more == 0 {
            break;
        }
        filled += more;
    }
    Ok(filled)
}
