//! What is asked of each call before reach is judged, in the order of the answers: the first that fails is told.
ghost use Rattle.std.specs.Prelude.{◌≡◌};
ghost use Rattle.calls.specs.Refusals.{argument, lines_enough, not_busy, idle_state, may_wait, listed, room_for, or_else, entry_in, start_refusal, command_refusal, check_refusal};
ghost use Rattle.calls.specs.Trials.{unless};

use crate::fault::Fault;
use lanes::{LaneNumber, LaneState};
use reach::is_block;
use steps::has_room;
use structure::{Flaw, lists, node_at};
use table::Table;
use words::{Entry, Node, PLACES, entry};

/// How many patterns there are.
const PATTERNS: u32 = 256;

/// The first tick past the limit.
const TICKS: u64 = 281474976710656;

/// How many lines the longest chain may have.
const LINES: usize = 512;

/// The argument with this number, counted from 0, is within its limit.
fn argument(number: u8, within: bool) -> Result<(), Fault>
    ensures { result ≡ unless (argument number within) tt }
{
    if within {
        Ok(())
    } else {
        Err(Fault::Range(number))
    }
}

/// The chain memory holds every chain.
fn lines_enough(lines: usize) -> Result<(), Fault>
    ensures { result ≡ unless (lines_enough lines) tt }
{
    if lines < LINES {
        return Err(Fault::Memory(LINES));
    }
    Ok(())
}

/// No check is open.
pub(crate) fn not_busy(check: Option<u8>) -> Result<(), Fault>
    ensures { result ≡ unless (not_busy check) tt }
{
    match check {
        None => Ok(()),
        Some(pattern) => Err(Fault::Busy(pattern)),
    }
}

/// The lane is idle.
fn idle_state(lane: LaneNumber, state: LaneState) -> Result<(), Fault>
    ensures { result ≡ unless (idle_state lane state) tt }
{
    match state {
        LaneState::Idle => Ok(()),
        _ => Err(Fault::State(u8::from(lane))),
    }
}

/// The number of the lane that a start asks for, unless it is refused before reach is judged.
pub(crate) fn startable(
    table: &Table,
    lane: u32,
    place: u32,
    tick: u64,
    lines: usize,
) -> Result<LaneNumber, Fault>
    ensures { result ≡ unless (start_refusal table.now lane place tick lines) lane }
{
    let number = LaneNumber::new(lane).ok_or(Fault::Range(0))?;
    argument(1, place < PLACES)?;
    argument(2, tick < TICKS)?;
    lines_enough(lines)?;
    not_busy(table.check)?;
    idle_state(number, table.lanes.at(number).state)?;
    Ok(number)
}

/// What is asked of a check before reach is judged.
pub(crate) fn checkable(table: &Table, pattern: u32, lines: usize) -> Result<(), Fault>
    ensures { result ≡ unless (check_refusal table.now pattern lines) tt }
{
    argument(0, pattern < PATTERNS)?;
    lines_enough(lines)?;
    not_busy(table.check)
}

/// Whether the entry may wait at the node: a pass at every block, an order where the block lists its destination.
fn may_wait(node: Option<Node>, entry: Entry) -> bool
    ensures { result ≡ may_wait node entry }
{
    match entry {
        Entry::Pass(_) => is_block(node),
        Entry::Order(order) => lists(node, order.destination),
    }
}

/// The entry, where it may wait at the block and there is room for it.
fn admitted(table: &Table, block: u16, entry: Entry) -> Result<Entry, Fault>
    ensures { result ≡ unless (or_else (listed table.now block entry) (room_for table.now block entry)) entry }
{
    if !may_wait(node_at(&table.nodes, block), entry) {
        return Err(Fault::from(table::Fault::Flaw(Flaw::Listing(block))));
    }
    if !has_room(table.rows_at(block as usize), entry) {
        return Err(Fault::Row(block));
    }
    Ok(entry)
}

/// The entry that a command asks for, unless it is refused before reach is judged.
pub(crate) fn commanded(table: &Table, block: u32, word: u32, lines: usize) -> Result<Entry, Fault>
    ensures { result ≡ unless (command_refusal table.now block word lines) (entry_in word) }
{
    argument(0, block < PLACES)?;
    lines_enough(lines)?;
    not_busy(table.check)?;
    admitted(table, block as u16, entry(word)?)
}
