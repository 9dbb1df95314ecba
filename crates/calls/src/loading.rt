//! Loading an image into a table, and writing one.
ghost use Rattle.std.specs.Prelude.{◌≡◌, length};
ghost use Rattle.image.specs.Writing.{write_leaves};
ghost use Rattle.calls.specs.Calls.{Load, write_told};
ghost use Rattle.calls.specs.Writing.{LoadsBack};

use crate::fault::Fault;
use crate::refusals::not_busy;
use table::Table;

/// Loads an image: all its nodes are added, or none, and their number is told. Nothing is loaded while a check is open.
pub fn load(table: &mut Table, words: &[u32]) -> Result<usize, Fault>
    ensures { Load table.old words.now result table.new }
{
    not_busy(table.check)?;
    Ok(table.load(words)?)
}

/// Writes the image of the table, and tells how many words that are or how many are needed.
/// Words past the image keep what they held. Rows are not written.
pub fn write(table: &Table, words: &mut [u32]) -> Result<usize, Fault>
    ensures value { result ≡ write_told table.now.nodes (length words.old) }
    ensures after { words.new ≡ write_leaves table.now.nodes words.old }
    ensures loads_back { LoadsBack table.now result words.new }
{
    Ok(table.write(words)?)
}
