//! The outlet that a script chooses.
ghost use Rattle.std.specs.Prelude.{◌≡◌, Some};
ghost use Rattle.script.specs.Outlets.{kind_in, chosen_in, choice_in, choice_text};
ghost use Rattle.script.specs.Parts.{parts_of};

use crate::call::{LIMIT, below};
use crate::parts::{Parts, is_same};
use std::fmt;

/// Which message an outlet gives first.
#[derive(Clone, Copy)]
pub enum OutletKind {
    /// The one that came first.
    FirstIn,
    /// The one that is due first.
    EarliestDue,
}

/// An outlet as a script asks for it.
#[derive(Clone, Copy)]
pub struct Choice {
    /// Which message it gives first.
    pub kind: OutletKind,
    /// How many messages can wait in it.
    pub capacity: u32,
}

fn kind(part: &[u8]) -> Option<OutletKind>
    ensures { result ≡ kind_in part.now }
{
    if is_same(part, b"first-in") {
        Some(OutletKind::FirstIn)
    } else if is_same(part, b"earliest-due") {
        Some(OutletKind::EarliestDue)
    } else {
        None
    }
}

/// The outlet that the parts after the name of the call ask for.
fn chosen(mut parts: Parts) -> Option<Choice>
    ensures { result ≡ chosen_in (parts_of parts.entry.rest.now) }
{
    let kind = kind(parts.next()?)?;
    let capacity = below(parts, LIMIT)?;
    Some(Choice { kind, capacity })
}

/// The outlet that a line asks for, if it asks for one.
pub fn chosen_by(line: &[u8]) -> Option<Choice>
    ensures { result ≡ choice_in (parts_of line.now) }
{
    let mut parts = Parts::of(line);
    let name = parts.next()?;
    if is_same(name, b"outlet") {
        chosen(parts)
    } else {
        None
    }
}

impl fmt::Display for Choice {
    ghost output = { λ c. Some (choice_text c.kind c.capacity) };

    fn fmt<W: fmt::Write>(&self, f: &mut fmt::Formatter<W>) -> fmt::Result {
        let capacity = self.capacity;
        match self.kind {
            OutletKind::FirstIn => write!(f, "outlet first-in {capacity}"),
            OutletKind::EarliestDue => write!(f, "outlet earliest-due {capacity}"),
        }
    }
}
