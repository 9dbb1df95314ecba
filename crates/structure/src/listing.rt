//! Flows whose target does not list where their order leads.
ghost use Rattle.std.specs.Prelude.{◌≡◌};
ghost use Rattle.structure.specs.Structure.{misses, node_unlisted, unlisted};

use crate::node::{lists, node_at};
use words::{Body, Exit, Node};

/// Whether a live node is no block that lists the exit.
fn misses(node: Option<Node>, exit: Exit) -> bool
    ensures { result ≡ misses node exit }
{
    node.is_some() && !lists(node, exit)
}

fn node_unlisted(nodes: &[Option<Node>], node: Option<Node>) -> bool
    ensures { result ≡ node_unlisted nodes.now node }
{
    node.is_some_and(|node| match node.body {
        Body::Flow { target, order, .. } => misses(node_at(nodes, target), order.destination),
        Body::Message { .. } | Body::Block { .. } => false,
    })
}

/// Whether the target of the flow at a place is live, and no block that lists the order's destination.
pub(crate) fn unlisted(nodes: &[Option<Node>], place: u16) -> bool
    ensures { result ≡ unlisted nodes.now place }
{
    node_unlisted(nodes, node_at(nodes, place))
}
