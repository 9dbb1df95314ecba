//! What holds after any calls.
#![tactic(auto)]

ghost use Rattle.uses.specs.Law.{Law};

use outlets::Outlet;

/// The law over uses. Calls are made one after another of a table and an outlet, from a cleared table and an outlet in
/// which nothing waits, in any order, with any arguments, refused calls included; `O` is any outlet. At every point:
///
/// - No lane is on an empty place, and no lawful chain of grounds ends on one.
/// - While a check is open, no lawful chain ends in its pattern, and remove accepts its permit.
/// - A start, a command or a check that is not refused for an earlier reason is refused for reach exactly where a lawful
///   chain says so. It then tells the place on which such a chain ends, and the memory lent to it holds the chain;
///   otherwise it is accepted, but for a check of a pattern that has no node.
/// - Of each message, as many were sent as were taken and wait in the outlet.
/// - The table hangs together: every node is allowed, and none is late, endless or unlisted, so that what is written of
///   the table loads into a cleared one as the same nodes; lanes, ticks and counts are within their limits; and at most
///   four entries wait in a row, each of which its block may have.
pub fn law_of_uses<O: Outlet>()
    ensures { Law O.Outlet.meaning }
{}
