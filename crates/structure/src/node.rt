//! The node at a place.
ghost use Rattle.std.specs.Prelude.{◌≡◌};
ghost use Rattle.structure.specs.Nodes.{node_at, onward, among, lists};

use words::{Alternatives, Body, Exit, Node};

/// The node at a place, if it has one.
pub fn node_at(nodes: &[Option<Node>], place: u16) -> Option<Node>
    ensures { result ≡ node_at nodes.now place }
{
    *nodes.get(place as usize)?
}

/// The next of a message or a flow.
pub fn onward(node: Option<Node>) -> Option<u16>
    ensures { result ≡ onward node }
{
    match node?.body {
        Body::Message { next, .. } | Body::Flow { next, .. } => Some(next),
        Body::Block { .. } => None,
    }
}

fn among(alternatives: Alternatives, exit: Exit) -> bool
    ensures { result ≡ among alternatives exit }
{
    match alternatives {
        Alternatives::None => false,
        Alternatives::One(x) => x == exit,
        Alternatives::Two(x, y) => x == exit || y == exit,
        Alternatives::Three(x, y, z) => x == exit || y == exit || z == exit,
    }
}

/// Whether the node is a block that lists the exit.
pub fn lists(node: Option<Node>, exit: Exit) -> bool
    ensures { result ≡ lists node exit }
{
    node.is_some_and(|node| match node.body {
        Body::Block {
            next,
            alternatives,
            ..
        } => next == exit || among(alternatives, exit),
        Body::Message { .. } | Body::Flow { .. } => false,
    })
}
