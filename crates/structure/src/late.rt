//! Messages and flows that are too late for what comes next.
ghost use Rattle.std.specs.Prelude.{◌≡◌};
ghost use Rattle.structure.specs.Structure.{outruns, node_late, late};

use crate::node::node_at;
use words::{Body, Node};

/// Whether an offset is too large for the node that comes next.
fn outruns(offset: u32, node: Option<Node>) -> bool
    ensures { result ≡ outruns offset node }
{
    node.is_some_and(|node| match node.body {
        Body::Message { offset: o, .. } | Body::Flow { offset: o, .. } => o < offset,
        Body::Block { period, .. } => period <= offset,
    })
}

fn node_late(nodes: &[Option<Node>], node: Option<Node>) -> bool
    ensures { result ≡ node_late nodes.now node }
{
    node.is_some_and(|node| match node.body {
        Body::Message { next, offset, .. } | Body::Flow { next, offset, .. } => {
            outruns(offset, node_at(nodes, next))
        }
        Body::Block { .. } => false,
    })
}

/// Whether the message or flow at a place is late.
pub(crate) fn late(nodes: &[Option<Node>], place: u16) -> bool
    ensures { result ≡ late nodes.now place }
{
    node_late(nodes, node_at(nodes, place))
}
