//! What changes of a table do to reach.
ghost use Rattle.reach.specs.Laws.{ReachLaws};

/// The laws of reach: what a change of a table does to the places that lanes can come to. They hold of every table.
///
/// - A scene has no more in reach than another, if its grounds lead from places in reach in the other only to places in
///   reach there; so it is where each of its grounds is a ground of the other.
/// - A lane that becomes idle adds nothing to reach.
/// - Emptying a pattern adds nothing, since it takes the repeats from every order to a place of the pattern.
/// - Loading nodes at places that are empty and not in reach leaves reach as it was.
/// - A lane that moves to a place in reach adds nothing.
/// - An order that joins a row of a block adds nothing, if its destination is in reach wherever the block is.
/// - A lasting change of a block's next adds nothing, if the new next is in reach wherever the block is.
pub fn laws_of_reach()
    ensures { ReachLaws }
{}
