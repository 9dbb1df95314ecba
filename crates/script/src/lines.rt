//! The lines of a script.
ghost use Rattle.std.specs.Prelude.{◌≡◌};
ghost use Rattle.script.specs.Parts.{line_text};

use crate::call::is_remark;
use crate::parts::line_text;
use std::alloc::Global;
use std::io;
use std::io::BufRead;

/// A script that is read line by line.
#[derive(Drop)]
pub struct Script<R> {
    input: R,
    number: u64,
}

/// A line of a script with its number, counted from 1.
#[derive(Drop)]
pub struct Numbered {
    /// The line as it was read, with the byte that ends it.
    pub bytes: Vec<u8>,
    /// Its number.
    pub number: u64,
}

impl Numbered {
    /// What stands on the line.
    pub fn text(&self) -> &[u8]
        ensures { result.now ≡ line_text self.now.bytes.items }
    {
        line_text(self.bytes.as_slice())
    }
}

impl<R: BufRead> Script<R> {
    /// A script, of which nothing was read yet.
    pub fn new(input: R) -> Script<R>
        ensures { result.number ≡ 0 }
    {
        Script { input, number: 0 }
    }

    /// The next line, or nothing where the script ends.
    fn line(&mut self, heap: Global) -> io::Result<Option<Numbered>> {
        let mut bytes = Vec::new(heap);
        if self.input.read_until(b'\n', &mut bytes)? == 0 {
            return Ok(None);
        }
        self.number = self.number.saturating_add(1);
        Ok(Some(Numbered {
            bytes,
            number: self.number,
        }))
    }

    /// The next line that is no remark, or nothing where the script ends.
    pub fn call_line(&mut self, heap: Global) -> io::Result<Option<Numbered>> {
        // a reader of input has no end that a measure could count down to
        for _ in 0..u64::MAX {
            match self.line(heap)? {
                Some(line) => {
                    if !is_remark(line.text()) {
                        return Ok(Some(line));
                    }
                }
                None => return Ok(None),
            }
        }
        Ok(None)
    }
}
