//! Rows as they lie in a table.
ghost use Rattle.std.specs.Prelude.{◌≡◌, length};
ghost use Rattle.rows.specs.Rows.{Canonical, ToldByWaiting, empty_row, moved_up, forgotten};

use crate::entry;
use words::{Entry, Pass};

/// What an unused slot holds: a pass that is good for no visit.
pub const BLANK: Entry = Entry::Pass(Pass {
    repeats: 0,
    urgent: false,
});

/// A row as it lies in a table.
///
/// The first `count` slots hold the waiting entries, the oldest first. Each other slot holds `BLANK`, so that rows with
/// the same entries are equal.
// A count beside slots, since a table is plain data of a fixed size.
#[derive(Clone, Copy)]
pub struct PlainRow {
    /// How many entries wait.
    pub count: u8,
    /// The slots.
    pub entries: [Entry; 4],
}

impl PlainRow {
    /// A row in which nothing waits.
    pub fn empty() -> PlainRow
        ensures { result ≡ empty_row }
    {
        PlainRow {
            count: 0,
            entries: [BLANK; 4],
        }
    }

    /// The row with no repeats in its orders to the marked places, and all else as it was.
    pub fn forgotten(self, places: &[bool; 512]) -> PlainRow
        ensures { result ≡ forgotten places.now self }
    {
        PlainRow {
            entries: self.entries.map(|e| entry::forgotten(e, places)),
            ..self
        }
    }
}

/// A law of rows that hold `BLANK` behind their entries: the empty row is one, and two of them are equal where the same
/// entries wait.
#[tactic(auto, using(crate::proofs::Changes::told_by_waiting))]
pub fn blank_behind()
    ensures empty { Canonical empty_row }
    ensures told { ToldByWaiting }
{}

/// The entries without the first: the others move up, and the last slot is blank.
pub(crate) fn moved_up(entries: [Entry; 4]) -> [Entry; 4]
    ensures exact { result ≡ moved_up entries }
    ensures four { length entries ≡ 4 }
{
    let [_, b, c, d] = entries;
    [b, c, d, BLANK]
}
