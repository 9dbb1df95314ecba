//! Entries that join the rows of a place.
ghost use Rattle.std.specs.Prelude.{◌≡◌, if◌then◌else◌, Some, None};
ghost use Rattle.rows.specs.Rows.{joined};
ghost use Rattle.table.specs.Changes.{is_urgent, row_of, rows_at, joined_rows, queued};
ghost use Rattle.steps.specs.Limits.{has_room};

use crate::elements::put;
use rows::{PlainRow, Row};
use table::{Rows, Table};
use words::Entry;

fn is_urgent(entry: Entry) -> bool
    ensures { result ≡ is_urgent entry }
{
    match entry {
        Entry::Pass(pass) => pass.urgent,
        Entry::Order(order) => order.urgent,
    }
}

/// The row with the entry at its end, unless four wait already.
fn joined(row: PlainRow, entry: Entry) -> Option<PlainRow>
    ensures { result ≡ (if has_room row then Some (joined row entry) else None) }
{
    let mut checked = Row::of(row)?;
    if checked.join(entry) {
        Some(checked.plain())
    } else {
        None
    }
}

/// The rows with the entry at the end of the one that its urgent mark names, unless four wait there already.
fn joined_rows(rows: Rows, entry: Entry) -> Option<Rows>
    ensures { result ≡ (if has_room (row_of rows (is_urgent entry)) then Some (joined_rows rows entry) else None) }
{
    if is_urgent(entry) {
        let urgent = joined(rows.urgent, entry)?;
        Some(Rows {
            urgent,
            plain: rows.plain,
        })
    } else {
        let plain = joined(rows.plain, entry)?;
        Some(Rows {
            urgent: rows.urgent,
            plain,
        })
    }
}

/// Whether fewer than four wait in the row that the entry's urgent mark names.
pub fn has_room(rows: Rows, entry: Entry) -> bool
    ensures { result ≡ has_room (row_of rows (is_urgent entry)) }
{
    joined_rows(rows, entry).is_some()
}

/// Lets the entry wait at the place, in the row that its urgent mark names, and says whether there was room for it;
/// where there was none nothing changes.
pub fn queue(table: &mut Table, block: u16, entry: Entry) -> bool
    ensures room { result ≡ has_room (row_of (rows_at table.old block) (is_urgent entry)) }
    ensures after { table.new ≡ (if result then queued table.old block entry else table.old) }
{
    match joined_rows(table.rows_at(block as usize), entry) {
        None => false,
        Some(rows) => {
            put(&mut table.rows, block as usize, rows);
            true
        }
    }
}
