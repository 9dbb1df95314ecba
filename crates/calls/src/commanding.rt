//! Commands to a block.
ghost use Rattle.std.specs.Prelude.{◌≡◌, ◌≤◌, true, length, is_ok, if◌then◌else◌};
ghost use Rattle.table.specs.Changes.{is_urgent, row_of, rows_at, queued};
ghost use Rattle.reach.specs.Scenes.{scene_of};
ghost use Rattle.steps.specs.Limits.{has_room};
ghost use Rattle.calls.specs.Trials.{Allows};
ghost use Rattle.calls.specs.Calls.{Command};

use crate::fault::Fault;
use crate::judge::judge_table;
use crate::refusals::commanded;
use reach::Line;
use steps::{put, queue};
use table::Table;
use words::Entry;

/// Lets the entry wait where no lane can come to an empty place then; otherwise the rows are put back as they were.
fn try_entry(table: &mut Table, block: u16, entry: Entry, chain: &mut [Line]) -> Result<(), Fault>
    requires room { has_room (row_of (rows_at table.old block) (is_urgent entry)) ≡ true }
    requires memory { 512 ≤ length chain.old }
    ensures judged { Allows (scene_of (queued table.old block entry)) result chain.old chain.new }
    ensures after { table.new ≡ (if is_ok result then queued table.old block entry else table.old) }
{
    let before = table.rows_at(block as usize);
    if !queue(table, block, entry) {
        return Err(Fault::Row(block));
    }
    let answer = judge_table(table, chain);
    if answer.is_err() {
        put(&mut table.rows, block as usize, before);
    }
    answer
}

/// Lets the order or the pass of the word wait at the block, unless lanes could come to an empty place then.
/// A refusal changes nothing but the chain memory, which holds the chain that shows where they could come to.
pub fn command(table: &mut Table, block: u32, word: u32, chain: &mut [Line]) -> Result<(), Fault>
    ensures { Command table.old block word result table.new chain.old chain.new }
{
    let entry = commanded(table, block, word, chain.len())?;
    try_entry(table, block as u16, entry, chain)
}
