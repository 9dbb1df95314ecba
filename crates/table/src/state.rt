//! What a table holds.
ghost use Rattle.std.specs.Prelude.{◌≡◌, slice_index_or};
ghost use Rattle.table.specs.Tables.{empty_rows, cleared};
ghost use Rattle.table.specs.Changes.{rows_at};
ghost use Rattle.table.specs.Laws.{Sound};

use lanes::Lanes;
use rows::PlainRow;
use words::Node;

/// The two rows of a block: the urgent one rules before the plain one.
#[derive(Clone, Copy)]
pub struct Rows {
    /// Entries that go first.
    pub urgent: PlainRow,
    /// Entries that go after the urgent ones.
    pub plain: PlainRow,
}

impl Rows {
    /// Two rows in which nothing waits.
    pub fn empty() -> Rows
        ensures { result ≡ empty_rows }
    {
        Rows {
            urgent: PlainRow::empty(),
            plain: PlainRow::empty(),
        }
    }
}

/// The rows with the number among all rows; behind the last, nothing waits.
pub fn rows_in(rows: &[Rows], place: usize) -> Rows
    ensures { result ≡ slice_index_or rows.now place empty_rows }
{
    rows.get(place).copied().unwrap_or(Rows::empty())
}

/// A table of 512 places and eight lanes.
// Nodes and rows are two arrays, since an image is read into nodes, judged and written by nodes alone.
#[derive(Clone, Copy)]
pub struct Table {
    /// The node of each place, if it has one.
    pub nodes: [Option<Node>; 512],
    /// The rows of each place; only those of blocks hold entries.
    pub rows: [Rows; 512],
    /// The lanes.
    pub lanes: Lanes,
    /// The pattern of the open check, if one is open.
    pub check: Option<u8>,
}

impl Table {
    fn nothing() -> Table
        ensures { result ≡ cleared }
    {
        let rows = [Rows::empty(); 512];
        Table {
            nodes: [None; 512],
            rows,
            lanes: Lanes::idle(),
            check: None,
        }
    }

    /// The rows of a place; past the places nothing waits.
    pub fn rows_at(&self, place: usize) -> Rows
        ensures { result ≡ rows_at self.now place }
    {
        rows_in(&self.rows, place)
    }

    /// A table with no node, idle lanes, counts of 0 and no open check.
    pub fn cleared() -> Table
        ensures value { result ≡ cleared }
        ensures sound { Sound result }
    {
        Table::nothing()
    }
}
