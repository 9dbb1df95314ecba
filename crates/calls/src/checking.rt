//! Checking that no lane can come into a pattern, and removing it.
ghost use Rattle.std.specs.Prelude.{◌≡◌, ◌≤◌, false, length, IfOk, None};
ghost use Rattle.table.specs.Changes.{check_changed};
ghost use Rattle.calls.specs.Calls.{Checked, Check, is_open, removed, Remove, Release};
ghost use Rattle.calls.specs.Permits.{permit_pattern, fault_told, HandedBack, SaysNode};

use crate::fault::Fault;
use crate::judge::used_place;
use crate::permit::{Permit, Refused};
use crate::refusals::checkable;
use reach::Line;
use table::{Table, in_pattern};

/// Whether some place is live with the pattern.
fn has_node(table: &Table, pattern: u8) -> bool
    ensures { SaysNode table.now pattern result }
{
    table.nodes.iter().any(|node| in_pattern(*node, pattern))
}

fn check_pattern(table: &mut Table, pattern: u8, chain: &mut [Line]) -> Result<Permit, Fault>
    requires { 512 ≤ length chain.old }
    ensures told { Checked table.old pattern (permit_pattern result) table.new chain.old chain.new }
    ensures unused { IfOk result (λ permit. permit.used ≡ false) }
{
    if let Some(place) = used_place(table, pattern, chain) {
        return Err(Fault::Below(reach::Fault::Reach(place)));
    }
    if !has_node(table, pattern) {
        return Err(Fault::Bare(pattern));
    }
    table.check = Some(pattern);
    Ok(Permit::of(pattern))
}

/// Opens the check of a pattern that no lane can come into, and gives the permit to remove it.
/// A refusal changes nothing but the chain memory, which holds the chain that shows where lanes can come to.
pub fn check(table: &mut Table, pattern: u32, chain: &mut [Line]) -> Result<Permit, Fault>
    ensures told { Check table.old pattern (permit_pattern result) table.new chain.old chain.new }
    ensures unused { IfOk result (λ permit. permit.used ≡ false) }
{
    checkable(table, pattern, chain.len())?;
    check_pattern(table, pattern as u8, chain)
}

fn is_open(check: Option<u8>, pattern: u8) -> bool
    ensures { result ≡ is_open check pattern }
{
    check == Some(pattern)
}

fn end_check(table: &mut Table)
    ensures { table.new ≡ check_changed table.old None }
{
    table.check = None;
}

/// Empties the places of the pattern and ends the check.
fn take_out(table: &mut Table, pattern: u8)
    ensures { table.new ≡ removed table.old pattern }
{
    table.empty(pattern);
    end_check(table);
}

/// Empties the places of the permit's pattern and ends the check. A permit of another pattern is handed back.
pub fn remove(table: &mut Table, permit: Permit) -> Result<(), Refused>
    ensures told { Remove table.old permit.pattern (fault_told result) table.new }
    ensures handed_back { HandedBack permit result }
{
    let pattern = permit.pattern();
    if !is_open(table.check, pattern) {
        return Err(Refused::of(permit));
    }
    permit.spend();
    take_out(table, pattern);
    Ok(())
}

/// Ends the check of the permit's pattern, and leaves its places as they are. A permit of another pattern is handed back.
pub fn release(table: &mut Table, permit: Permit) -> Result<(), Refused>
    ensures told { Release table.old permit.pattern (fault_told result) table.new }
    ensures handed_back { HandedBack permit result }
{
    if !is_open(table.check, permit.pattern()) {
        return Err(Refused::of(permit));
    }
    permit.spend();
    end_check(table);
    Ok(())
}
