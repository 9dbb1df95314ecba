//! What a lasting order makes of a block.
ghost use Rattle.std.specs.Prelude.{◌≡◌};
ghost use Rattle.table.specs.Changes.{exchanged, turned_body};
ghost use Rattle.steps.specs.Steps.{node_after};

use words::{Alternatives, Body, Entry, Exit, Node};

/// The alternatives with `exit` in the slot of the first that is the destination.
fn exchanged(alternatives: Alternatives, destination: Exit, exit: Exit) -> Alternatives
    ensures { result ≡ exchanged alternatives destination exit }
{
    match alternatives {
        Alternatives::None => Alternatives::None,
        Alternatives::One(x) => Alternatives::One(if x == destination { exit } else { x }),
        Alternatives::Two(x, y) => {
            if x == destination {
                Alternatives::Two(exit, y)
            } else {
                Alternatives::Two(x, if y == destination { exit } else { y })
            }
        }
        Alternatives::Three(x, y, z) => {
            if x == destination {
                Alternatives::Three(exit, y, z)
            } else if y == destination {
                Alternatives::Three(x, exit, z)
            } else {
                Alternatives::Three(x, y, if z == destination { exit } else { z })
            }
        }
    }
}

/// The destination becomes the next of a block, and the old next takes its slot among the alternatives.
fn turned_body(body: Body, destination: Exit) -> Body
    ensures { result ≡ turned_body body destination }
{
    match body {
        Body::Block {
            next,
            period,
            alternatives,
        } => Body::Block {
            next: destination,
            period,
            alternatives: exchanged(alternatives, destination, next),
        },
        Body::Message { .. } | Body::Flow { .. } => body,
    }
}

/// The node after the entry has ruled a visit: only a lasting order that has repeats changes it.
pub(crate) fn node_after(node: Node, ruling: Option<Entry>) -> Node
    ensures { result ≡ node_after node ruling }
{
    match ruling {
        Some(Entry::Order(order)) if order.repeats > 0 && order.lasting => Node {
            body: turned_body(node.body, order.destination),
            ..node
        },
        _ => node,
    }
}
