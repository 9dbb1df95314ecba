//! Whether a table as it would be is allowed.
ghost use Rattle.std.specs.Prelude.{◌≡◌, ◌≤◌, length};
ghost use Rattle.reach.specs.Views.{scene_in};
ghost use Rattle.reach.specs.Scenes.{scene_of, IsOfPattern};
ghost use Rattle.calls.specs.Trials.{Allows, Tells};

use crate::fault::Fault;
use reach::{Line, View, into_pattern, onto_empty};
use table::Table;

/// Refuses what the view shows where lanes can come to an empty place; the chain that shows it is written to the memory.
// A type for a memory of 512 lines would have to name the loan of the lines in each contract that asks for their number here.
pub(crate) fn judge(view: &View, chain: &mut [Line]) -> Result<(), Fault>
    requires { 512 ≤ length chain.old }
    ensures { Allows (scene_in view.now) result chain.old chain.new }
{
    match onto_empty(view, chain) {
        Some(place) => Err(Fault::Below(reach::Fault::Reach(place))),
        None => Ok(()),
    }
}

/// Refuses the table where lanes can come to an empty place.
pub(crate) fn judge_table(table: &Table, chain: &mut [Line]) -> Result<(), Fault>
    requires { 512 ≤ length chain.old }
    ensures { Allows (scene_of table.now) result chain.old chain.new }
{
    judge(&View::from(table), chain)
}

/// A place of the pattern that lanes can come to, if there is one; the chain that shows it is written to the memory.
pub(crate) fn used_place(table: &Table, pattern: u8, chain: &mut [Line]) -> Option<u16>
    requires { 512 ≤ length chain.old }
    ensures { Tells (scene_of table.now) (IsOfPattern (scene_of table.now) pattern) result chain.old chain.new }
{
    into_pattern(&View::from(table), pattern, chain)
}
