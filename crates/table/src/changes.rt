//! What becomes of one place of a table, beside a node or a mark.
ghost use Rattle.std.specs.Prelude.{◌≡◌};
ghost use Rattle.table.specs.Tables.{over, fresh, in_pattern, without, cleaned};

use crate::state::Rows;
use words::Node;

/// A node of an image goes to its place; where there is none, the old one stays.
pub(crate) fn over(old: Option<Node>, new: Option<Node>) -> Option<Node>
    ensures { result ≡ over old new }
{
    new.or(old)
}

/// The rows of a place that is loaded become empty.
pub(crate) fn fresh(rows: Rows, new: Option<Node>) -> Rows
    ensures { result ≡ fresh rows new }
{
    new.map_or(rows, |_| Rows::empty())
}

/// Whether a place with the node is one of the pattern: it is live, and its node is of the pattern.
pub fn in_pattern(node: Option<Node>, pattern: u8) -> bool
    ensures { result ≡ in_pattern pattern node }
{
    node.is_some_and(|node| node.pattern == pattern)
}

/// A marked place loses its node.
pub(crate) fn without(node: Option<Node>, mark: bool) -> Option<Node>
    ensures { result ≡ without node mark }
{
    if mark { None } else { node }
}

/// A marked place loses its rows; in all others the orders to marked places lose their repeats.
pub(crate) fn cleaned(marks: &[bool; 512], rows: Rows, mark: bool) -> Rows
    ensures { result ≡ cleaned marks.now rows mark }
{
    if mark {
        return Rows::empty();
    }
    Rows {
        urgent: rows.urgent.forgotten(marks),
        plain: rows.plain.forgotten(marks),
    }
}
