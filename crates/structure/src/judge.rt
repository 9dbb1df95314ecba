//! The flaws of structure.
ghost use Rattle.std.specs.Prelude.{◌≡◌};
ghost use Rattle.structure.specs.Structure.{Endless, late, unlisted};
ghost use Rattle.structure.specs.Lowest.{FoundLowest, Yes};
ghost use Rattle.structure.specs.Endings.{EndedAlike};
ghost use Rattle.structure.specs.Flaws.{Told, number_of, place_of};

use crate::ending::{Endings, not_ended};
use crate::late::late;
use crate::listing::unlisted;
use crate::places::lowest;
use rules::derive;
use words::Node;

/// How nodes do not hang together, each with its place.
#[derive(Clone, Copy)]
pub enum Flaw {
    /// A message or flow has an offset too large for what comes next.
    Late(u16),
    /// From a message or flow the nexts never come to a block or an empty place.
    Loop(u16),
    /// A flow's live target is no block, or does not list where the order leads.
    Listing(u16),
}

impl Flaw {
    /// The number that the panel shows for the flaw.
    pub fn number(self) -> u8
        ensures { result ≡ number_of self }
    {
        match self {
            Flaw::Late(_) => 8,
            Flaw::Loop(_) => 9,
            Flaw::Listing(_) => 10,
        }
    }

    /// The place of the flaw.
    pub fn place(self) -> u16
        ensures { result ≡ place_of self }
    {
        match self {
            Flaw::Late(place) | Flaw::Loop(place) | Flaw::Listing(place) => place,
        }
    }
}

/// The lowest message or flow from which the nexts never come to a block or an empty place.
/// What the rule book calls well ended is exactly what they come out of.
pub fn lowest_endless(nodes: &[Option<Node>; 512]) -> Option<u16>
    ensures lowest { FoundLowest (Endless nodes.now) result }
    ensures alike { EndedAlike nodes.now }
{
    let ended = derive(&Endings { nodes });
    lowest(|place| not_ended(nodes, &ended, place))
}

fn lowest_late(nodes: &[Option<Node>; 512]) -> Option<u16>
    ensures { FoundLowest (Yes (late nodes.now)) result }
{
    lowest(|place| late(nodes, place))
}

fn lowest_unlisted(nodes: &[Option<Node>; 512]) -> Option<u16>
    ensures { FoundLowest (Yes (unlisted nodes.now)) result }
{
    lowest(|place| unlisted(nodes, place))
}

/// The flaw of these nodes that is told: late before loop before listing, and of each the lowest place.
pub fn first_flaw(nodes: &[Option<Node>; 512]) -> Option<Flaw>
    ensures { Told nodes.now result }
{
    lowest_late(nodes)
        .map(Flaw::Late)
        .or_else(|| lowest_endless(nodes).map(Flaw::Loop))
        .or_else(|| lowest_unlisted(nodes).map(Flaw::Listing))
}
