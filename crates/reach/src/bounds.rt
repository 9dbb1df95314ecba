//! What the types say of a view: 512 places, eight lanes, and four slots to a row.
ghost use Rattle.std.specs.Prelude.{◌≤◌, length};
ghost use Rattle.reach.specs.Views.{scene_in, FourSlots, AllFour, Bounded};

use crate::view::View;
use lanes::Lanes;
use table::Rows;
use words::Node;

fn places(nodes: &[Option<Node>; 512])
    ensures { length nodes.now ≤ 512 }
{}

fn eight(lanes: Lanes)
    ensures { length lanes.lanes.items ≤ 8 }
{}

fn four(rows: Rows)
    ensures { FourSlots rows }
{}

/// Rows lie behind one reference, of which no more is known than of those that are looked at: so each is.
fn all_four(rows: &[Rows])
    ensures { AllFour rows.now }
{
    for row in rows {
        four(*row);
    }
}

/// A view shows 512 places and eight lanes, with four slots to a row.
pub(crate) fn bounded(view: &View)
    ensures { Bounded (scene_in view.now) }
{
    places(view.nodes);
    let rows = view.rows;
    all_four(rows);
    eight(*view.lanes);
}
