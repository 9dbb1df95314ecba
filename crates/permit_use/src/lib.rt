//! How a permit is used: it goes into `remove` or `release`. A program that lets one go is not proved, and one that uses it twice is not compiled.
#![tactic(auto)]

ghost use Rattle.std.specs.Prelude.{◌≡◌, true, false, Some, None, MatchOption};
ghost use Rattle.table.specs.Changes.{check_changed};
ghost use Rattle.calls.specs.Calls.{removed};

use calls::{Permit, check, release, remove};
use reach::Line;
use table::Table;

/// Gives the permit of the open check back.
fn give_back(table: &mut Table, permit: Permit)
    requires { table.old.check ≡ Some permit.pattern }
    ensures { table.new ≡ check_changed table.old None }
{
    match release(table, permit) {
        Ok(()) => {}
        Err(_) => unreachable(),
    }
}

/// Uses the permit of the open check up: its pattern is removed.
fn use_up(table: &mut Table, permit: Permit)
    requires { table.old.check ≡ Some permit.pattern }
    ensures { table.new ≡ removed table.old permit.pattern }
{
    match remove(table, permit) {
        Ok(()) => {}
        Err(_) => unreachable(),
    }
}

/// Whether a pattern may be removed now. The permit is given back at once, so that nothing changes.
pub fn is_free(table: &mut Table, pattern: u32, chain: &mut [Line]) -> bool
    ensures { table.new ≡ table.old }
{
    match check(table, pattern, chain) {
        Ok(permit) => {
            give_back(table, permit);
            true
        }
        Err(_) => false,
    }
}

/// Removes a pattern if no lane can come into it, and says whether it was removed. Nothing changes if it was not.
pub fn remove_if_free(table: &mut Table, pattern: u32, chain: &mut [Line]) -> bool
    ensures removed { result ≡ true → table.new ≡ removed table.old pattern }
    ensures kept { result ≡ false → table.new ≡ table.old }
{
    match check(table, pattern, chain) {
        Ok(permit) => {
            use_up(table, permit);
            true
        }
        Err(_) => false,
    }
}

/// Removes the permit's pattern, or hands the permit on where its pattern is not open in this table: it may be another table's.
pub fn remove_or_keep(table: &mut Table, permit: Permit) -> Option<Permit>
    ensures { MatchOption result (table.new ≡ removed table.old permit.pattern) (λ kept. (kept ≡ permit) × (table.new ≡ table.old)) }
{
    match remove(table, permit) {
        Ok(()) => None,
        Err(refused) => {
            let (_, kept) = refused.parts();
            Some(kept)
        }
    }
}
