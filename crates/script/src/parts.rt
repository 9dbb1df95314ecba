//! A line of a script, and its parts between spaces and tabs.
ghost use Rattle.std.specs.Prelude.{◌≡◌, ◌≤◌, not, [], ◌∷◌, length, position, MatchOption};
ghost use Rattle.std.specs.Bool.{beq};
ghost use Rattle.std.specs.Str.{bytes_eq};
ghost use Rattle.script.specs.Parts.{line_text, without_last, blank, leading, parts_of};
ghost use Rattle.std.specs.Iterator.{at_most};

/// The line without the carriage return that may stand before its end.
fn without_return(line: &[u8]) -> &[u8]
    ensures { result.now ≡ without_last 13 line.now }
{
    match line {
        [text @ .., b'\r'] => text,
        text => text,
    }
}

/// The line without the byte that ends it, if it has one.
fn without_end(line: &[u8]) -> &[u8]
    ensures { result.now ≡ without_last 10 line.now }
{
    match line {
        [text @ .., b'\n'] => text,
        text => text,
    }
}

/// What stands on a line.
pub fn line_text(line: &[u8]) -> &[u8]
    ensures { result.now ≡ line_text line.now }
{
    without_return(without_end(line))
}

fn is_blank(byte: u8) -> bool
    ensures { result ≡ blank byte }
{
    byte == b' ' || byte == b'\t'
}

/// Where the first byte stands that is not blank, or the first that is.
fn first_other(bytes: &[u8], blanks: bool) -> Option<usize>
    ensures { result ≡ position (λ byte. not (beq (blank byte) blanks)) bytes.now }
{
    bytes.iter().position(|b| is_blank(*b) != blanks)
}

/// How many bytes at the front are blank, or how many are not.
fn leading(bytes: &[u8], blanks: bool) -> usize
    ensures value { result ≡ leading blanks bytes.now }
    ensures bound { result ≤ length bytes.now }
{
    first_other(bytes, blanks).unwrap_or(bytes.len())
}

/// Whether a part has these bytes.
pub fn is_same(part: &[u8], name: &[u8]) -> bool
    ensures { result ≡ bytes_eq part.now name.now }
{
    part == name
}

/// What is left of a line that is taken apart.
#[derive(Drop)]
pub struct Parts<'a> {
    rest: &'a [u8],
}

impl<'a> Parts<'a> {
    /// The parts of a line.
    pub fn of(line: &'a [u8]) -> Parts<'a>
        ensures { result.rest.now ≡ line.now }
    {
        Parts { rest: line }
    }
}

impl<'a> Iterator for Parts<'a> {
    type Item = &'a [u8];

    ghost next_gives = { λ s r t. MatchOption r (parts_of s.rest.now ≡ []) (λ x. parts_of s.rest.now ≡ x.now ∷ parts_of t.rest.now) };

    ghost remaining = { λ s. at_most (length s.rest.now) };

    fn next(&mut self) -> Option<&'a [u8]> {
        let start = leading(self.rest, true);
        let line = &self.rest[start..];
        let end = leading(line, false);
        if end == 0 {
            return None;
        }
        self.rest = &line[end..];
        Some(&line[0..end])
    }
}
