//! Messages and flows from which the nexts never come out.
ghost use Rattle.std.specs.Prelude.{◌≡◌, not, ◌&&◌, is_some};
ghost use Rattle.rules.specs.Found.{marks};
ghost use Rattle.structure.specs.Nodes.{node_at, onward};
ghost use Rattle.structure.specs.Endings.{ground_of, ending_rule, endings_book};

use crate::node::{node_at, onward};
use rules::{Book, Derived, Rule};
use words::Node;

/// The ground that a place is well ended by: a message or flow, which has to be well ended itself, or none.
fn ground(nodes: &[Option<Node>], next: u16) -> Option<u16>
    ensures { result ≡ ground_of nodes.now next }
{
    onward(node_at(nodes, next)).and(Some(next))
}

/// The rule by which the message or flow at a place is well ended.
fn ending_rule(nodes: &[Option<Node>], place: u16) -> Rule
    ensures { result ≡ ending_rule nodes.now place }
{
    let Some(next) = onward(node_at(nodes, place)) else {
        return Rule::NONE;
    };
    Rule {
        first: ground(nodes, next),
        conclusion: Some(place),
        ..Rule::NONE
    }
}

/// The book by which messages and flows are well ended: a rule for each place.
#[derive(Clone, Copy)]
pub struct Endings<'a> {
    /// The node of each place, if it has one.
    pub nodes: &'a [Option<Node>],
}

impl Book for Endings<'_> {
    ghost size = { λ _. 512 };

    ghost rules = { λ s. endings_book s.nodes.now };

    fn count(&self) -> usize {
        512
    }

    fn rule(&self, i: usize) -> Rule {
        if i < 512 {
            ending_rule(self.nodes, i as u16)
        } else {
            Rule::NONE
        }
    }
}

/// Whether the message or flow at a place is not among those that are well ended.
pub(crate) fn not_ended(nodes: &[Option<Node>], ended: &Derived, place: u16) -> bool
    ensures { result ≡ (is_some (onward (node_at nodes.now place)) && not (marks ended.now place)) }
{
    onward(node_at(nodes, place)).is_some() && !ended.has(place)
}
