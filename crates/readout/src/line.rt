//! A line of text that is held by value.
ghost use Rattle.std.specs.Prelude.{◌≡◌, ◌≤◌, length};
ghost use Rattle.readout.specs.Lines.{held};

mod panel;

use arrayvec::ArrayString;

/// A line of text, held by value: at most 64 bytes.
#[derive(Clone, Copy)]
pub struct Line {
    text: ArrayString<64>,
}

impl Line {
    /// The bytes of the line.
    pub fn as_bytes(&self) -> &[u8]
        ensures value { result.now ≡ held self.now }
        ensures few { length result.now ≤ 64 }
    {
        self.text.as_str().as_bytes()
    }
}
