//! Emptying the places of a pattern.
ghost use Rattle.std.specs.Prelude.{◌≡◌};
ghost use Rattle.each.specs.Each.{zipped};
ghost use Rattle.table.specs.Tables.{marked, without, cleaned, emptied};
ghost use Rattle.table.specs.Laws.{Sound};

use crate::changes::{cleaned, in_pattern, without};
use crate::state::{Rows, Table};
use each::change_each;
use words::Node;

/// For each place, whether it has a node of the pattern.
fn marked(nodes: &[Option<Node>; 512], pattern: u8) -> [bool; 512]
    ensures { result ≡ marked pattern nodes.now }
{
    let mut marks = [false; 512];
    change_each(&mut marks, nodes, |_, node| in_pattern(node, pattern));
    marks
}

impl Table {
    fn without_pattern(&mut self, pattern: u8)
        ensures { self.new ≡ emptied self.old pattern }
    {
        let marks = marked(&self.nodes, pattern);
        change_each(&mut self.nodes, &marks, without);
        change_each(
            &mut self.rows,
            &marks,
            |rows, mark| cleaned(&marks, rows, mark),
        );
    }

    /// Empties the places of a pattern and their rows, and takes every repeat from the orders to them that wait elsewhere.
    pub fn empty(&mut self, pattern: u8)
        ensures exact { self.new ≡ emptied self.old pattern }
        ensures sound { Sound self.old → Sound self.new }
    {
        self.without_pattern(pattern)
    }
}
