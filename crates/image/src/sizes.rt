//! How many words the nodes of an image take.
ghost use Rattle.std.specs.Prelude.{◌≡◌, ◌+◌, ◌≤◌};
ghost use Rattle.image.specs.Reading.{body_size};

use words::{Alternatives, Body, Node};

/// How many words a node takes, with its head.
pub fn size(node: Node) -> usize
    ensures value { result ≡ 1 + body_size node.body }
    ensures bound { result ≤ 6 }
{
    match node.body {
        Body::Message { .. } => 4,
        Body::Flow { .. } => 5,
        Body::Block { alternatives, .. } => match alternatives {
            Alternatives::None => 3,
            Alternatives::One(_) => 4,
            Alternatives::Two(_, _) => 5,
            Alternatives::Three(_, _, _) => 6,
        },
    }
}
