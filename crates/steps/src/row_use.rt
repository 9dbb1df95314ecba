//! What rules at a block, and what a visit makes of its rows.
ghost use Rattle.std.specs.Prelude.{◌≡◌};
ghost use Rattle.rows.specs.Entries.{repeats_of};
ghost use Rattle.steps.specs.Steps.{oldest_in, ruling, used, rows_used};

use rows::{PlainRow, Row};
use table::Rows;
use words::Entry;

/// The oldest entry of a row; a row that holds too many is read as empty.
fn oldest(row: PlainRow) -> Option<Entry>
    ensures { result ≡ oldest_in row }
{
    Row::of(row)?.first()
}

/// The first urgent entry, or else the first plain one.
pub(crate) fn ruling(rows: Rows) -> Option<Entry>
    ensures { result ≡ ruling rows }
{
    oldest(rows.urgent).or(oldest(rows.plain))
}

fn repeats(entry: Entry) -> u8
    ensures { result ≡ repeats_of entry }
{
    match entry {
        Entry::Pass(pass) => pass.repeats,
        Entry::Order(order) => order.repeats,
    }
}

/// The row after its oldest entry has ruled a visit: it loses a repeat, and leaves once it has none.
fn used(row: PlainRow) -> PlainRow
    ensures { result ≡ used row }
{
    let Some(mut checked) = Row::of(row) else {
        return row;
    };
    let Some(entry) = checked.first() else {
        return row;
    };
    if repeats(entry) <= 1 {
        checked.leave();
    } else {
        checked.spend();
    }
    checked.plain()
}

/// The rows after a visit: the one that ruled has been used, the other is as it was.
pub(crate) fn rows_used(rows: Rows) -> Rows
    ensures { result ≡ rows_used rows }
{
    match oldest(rows.urgent) {
        Some(_) => Rows {
            urgent: used(rows.urgent),
            plain: rows.plain,
        },
        None => Rows {
            urgent: rows.urgent,
            plain: used(rows.plain),
        },
    }
}
