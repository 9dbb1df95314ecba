//! Loading an image into a table, and writing one.
ghost use Rattle.std.specs.Prelude.{◌≡◌, length};
ghost use Rattle.structure.specs.Lowest.{FoundLowest, Yes};
ghost use Rattle.image.specs.Writing.{write_answer, write_leaves};
ghost use Rattle.each.specs.Each.{zipped};
ghost use Rattle.table.specs.Tables.{taken, merged, fresh};
ghost use Rattle.table.specs.Loading.{Judges, Loads};
ghost use Rattle.table.specs.Laws.{Sound, LoadsOnce, WrittenBack, LoadsBack};

use crate::changes::{fresh, over};
use crate::fault::Fault;
use crate::state::{Rows, Table};
use each::change_each;
use image::TooShort;
use structure::{first_flaw, lowest, node_at};
use words::Node;

/// Whether a place has a node already, and the image has one for it.
fn taken(old: &[Option<Node>], new: &[Option<Node>], place: u16) -> bool
    ensures { result ≡ taken old.now new.now place }
{
    node_at(old, place).is_some() && node_at(new, place).is_some()
}

fn lowest_taken(old: &[Option<Node>; 512], new: &[Option<Node>; 512]) -> Option<u16>
    ensures { FoundLowest (Yes (taken old.now new.now)) result }
{
    lowest(|place| taken(old, new, place))
}

/// The old nodes with the new ones at their places.
fn merged(old: &[Option<Node>; 512], new: &[Option<Node>; 512]) -> [Option<Node>; 512]
    ensures { result ≡ merged old.now new.now }
{
    let mut nodes = *old;
    change_each(&mut nodes, new, over);
    nodes
}

/// The nodes as they would be, unless a place is taken or they would not hang together.
fn judged(
    old: &[Option<Node>; 512],
    new: &[Option<Node>; 512],
) -> Result<[Option<Node>; 512], Fault>
    ensures { Judges old.now new.now result }
{
    if let Some(place) = lowest_taken(old, new) {
        return Err(Fault::Taken(place));
    }
    let nodes = merged(old, new);
    match first_flaw(&nodes) {
        Some(flaw) => Err(flaw.into()),
        None => Ok(nodes),
    }
}

impl Table {
    fn load_image(&mut self, words: &[u32]) -> Result<usize, Fault>
        ensures { Loads self.old words.now result self.new }
    {
        let image = image::read(words)?;
        let nodes = judged(&self.nodes, &image.places)?;
        change_each(&mut self.rows, &image.places, fresh);
        self.nodes = nodes;
        Ok(image.nodes)
    }

    /// Loads an image: all its nodes are added, or none, and their number is told.
    /// The nodes as they would be are judged, and the lowest bad place is told.
    pub fn load(&mut self, words: &[u32]) -> Result<usize, Fault>
        ensures exact { Loads self.old words.now result self.new }
        ensures once { LoadsOnce self.old words.now result self.new }
        ensures sound { Sound self.old → Sound self.new }
        ensures written_back { WrittenBack self.old words.now result self.new }
    {
        self.load_image(words)
    }

    /// Writes all nodes in rising places as an image, and tells how many words that are or how many are needed.
    /// Words past the image keep what they held. Rows are not written.
    pub fn write(&self, words: &mut [u32]) -> Result<usize, TooShort>
        ensures value { result ≡ write_answer self.now.nodes (length words.old) }
        ensures after { words.new ≡ write_leaves self.now.nodes words.old }
        ensures loads_back { LoadsBack self.now result words.new }
    {
        image::write(&self.nodes, words)
    }
}
