//! What happens to one entry of a row.
ghost use Rattle.std.specs.Prelude.{◌≡◌};
ghost use Rattle.rows.specs.Entries.{leads_into, spent_entry, forgotten_entry};

use words::{Entry, Exit, Order, Pass};

/// The entry with one repeat less, where it has one.
pub(crate) fn spent(entry: Entry) -> Entry
    ensures { result ≡ spent_entry entry }
{
    match entry {
        Entry::Pass(pass) => Entry::Pass(Pass {
            repeats: pass.repeats.saturating_sub(1),
            ..pass
        }),
        Entry::Order(order) => Entry::Order(Order {
            repeats: order.repeats.saturating_sub(1),
            ..order
        }),
    }
}

/// Whether the exit is one of the marked places.
fn leads_into(exit: Exit, places: &[bool; 512]) -> bool
    ensures { result ≡ leads_into places.now exit }
{
    match exit {
        Exit::End => false,
        Exit::Place(place) => places.get(usize::from(place)).copied().unwrap_or(false),
    }
}

/// The entry with no repeats where it is an order to one of the marked places, or else as it was.
pub(crate) fn forgotten(entry: Entry, places: &[bool; 512]) -> Entry
    ensures { result ≡ forgotten_entry places.now entry }
{
    match entry {
        Entry::Order(order) if leads_into(order.destination, places) => Entry::Order(Order {
            repeats: 0,
            ..order
        }),
        _ => entry,
    }
}
