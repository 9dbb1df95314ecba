//! Lines that are gathered, in order, into the caller's memory.
ghost use Rattle.std.specs.Prelude.{◌≡◌, min, ◌++◌, map, length, take, drop};
ghost use Rattle.first_in_uses.specs.Lines.{line_of};

/// What a line says of its place.
#[derive(Clone, Copy)]
pub enum Letter {
    /// A message was sent there.
    Sent,
    /// A message was taken there.
    Taken,
}

/// A line of a chain.
#[derive(Clone, Copy)]
pub struct Line {
    /// The place that the line speaks of.
    pub place: u16,
    /// What happened there.
    pub letter: Letter,
}

/// The line that says that a message was sent at `place`.
fn sent(place: u16) -> Line
    ensures { result ≡ line_of place }
{
    Line {
        place,
        letter: Letter::Sent,
    }
}

/// Writes a line for each of `places`, in order, as far as there is room, and says how many. The lines behind them
/// stay as they were.
pub fn gather(lines: &mut [Line], places: &[u16]) -> usize
    ensures count { result ≡ min (length places.now) (length lines.old) }
    ensures lines { lines.new ≡ map line_of (take result places.now) ++ drop result lines.old }
{
    first_in::gather(lines, places, sent)
}
