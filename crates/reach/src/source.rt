//! What each rule of the book of a scene speaks of, by its number.
ghost use Rattle.std.specs.Prelude.{◌≡◌};
ghost use Rattle.reach.specs.Book.{of_place, source_of};

/// How many rules the book has: one for each of 8 lanes, and ten for each of 512 places.
pub(crate) const RULES: usize = 5128;

/// What a rule speaks of.
#[derive(Clone, Copy)]
pub enum Source {
    /// Where the lane is.
    Lane(u16),
    /// The next of the place.
    Next(u16),
    /// The order of the flow at the place.
    Flow(u16),
    /// An entry of the urgent row of the place, counted from the oldest.
    Urgent(u16, u16),
    /// An entry of the plain row of the place, counted from the oldest.
    Plain(u16, u16),
}

/// The rule of a place with the number `k` among its ten.
fn of_place(place: u16, k: u16) -> Source
    ensures { result ≡ of_place place k }
{
    match k {
        0 => Source::Next(place),
        1 => Source::Flow(place),
        _ => {
            if k < 6 {
                Source::Urgent(place, k - 2)
            } else {
                Source::Plain(place, k - 6)
            }
        }
    }
}

/// What the rule with the number `i` speaks of. A number past the book stands for the first lane again.
pub(crate) fn numbered(i: usize) -> Source
    ensures { result ≡ source_of i }
{
    if i < 8 {
        return Source::Lane(i as u16);
    }
    if i >= RULES {
        return Source::Lane(0);
    }
    of_place(((i - 8) / 10) as u16, ((i - 8) % 10) as u16)
}
