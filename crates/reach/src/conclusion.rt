//! Where nodes, lanes and waiting entries lead.
ghost use Rattle.std.specs.Prelude.{◌≡◌};
ghost use Rattle.rows.specs.Rows.{slot};
ghost use Rattle.reach.specs.Book.{exit_place, state_place, next_place, is_block, entry_place, waiting_place, target_of, flow_place};

use lanes::LaneState;
use rows::{BLANK, PlainRow};
use words::{Body, Entry, Exit, Node};

fn exit_place(exit: Exit) -> Option<u16>
    ensures { result ≡ exit_place exit }
{
    match exit {
        Exit::End => None,
        Exit::Place(place) => Some(place),
    }
}

/// Where a running or held lane is.
pub(crate) fn state_place(state: LaneState) -> Option<u16>
    ensures { result ≡ state_place state }
{
    match state {
        LaneState::Idle => None,
        LaneState::Running { place, .. } | LaneState::Held { place, .. } => Some(place),
    }
}

/// The next of a node.
pub(crate) fn next_place(node: Option<Node>) -> Option<u16>
    ensures { result ≡ next_place node }
{
    match node?.body {
        Body::Message { next, .. } | Body::Flow { next, .. } => Some(next),
        Body::Block { next, .. } => exit_place(next),
    }
}

/// Whether a node is a block.
pub fn is_block(node: Option<Node>) -> bool
    ensures { result ≡ is_block node }
{
    node.is_some_and(|node| matches!(node.body, Body::Block { .. }))
}

/// Where an order leads that is good for a visit.
fn entry_place(entry: Entry) -> Option<u16>
    ensures { result ≡ entry_place entry }
{
    match entry {
        Entry::Order(order) if order.repeats > 0 => exit_place(order.destination),
        _ => None,
    }
}

fn slot(row: PlainRow, k: u16) -> Entry
    ensures { result ≡ slot row k }
{
    row.entries.get(usize::from(k)).copied().unwrap_or(BLANK)
}

/// Where the entry `k` of a row leads, counted from the oldest, if it waits and is an order that is good for a visit.
pub(crate) fn waiting_place(row: PlainRow, k: u16) -> Option<u16>
    ensures { result ≡ waiting_place row k }
{
    if k < u16::from(row.count) {
        entry_place(slot(row, k))
    } else {
        None
    }
}

/// The target of a flow; 0 for every other node.
pub(crate) fn target_of(node: Option<Node>) -> u16
    ensures { result ≡ target_of node }
{
    match node.map(|node| node.body) {
        Some(Body::Flow { target, .. }) => target,
        _ => 0,
    }
}

/// Where the order of a flow leads.
pub(crate) fn flow_place(node: Option<Node>) -> Option<u16>
    ensures { result ≡ flow_place node }
{
    match node?.body {
        Body::Flow { order, .. } => exit_place(order.destination),
        _ => None,
    }
}
