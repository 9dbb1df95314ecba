//! Whether lanes can come to a place of some kind, and the chain that shows it.
ghost use Rattle.std.specs.Prelude.{◌≡◌, ℕ, Bool, true};
ghost use Rattle.structure.specs.Lowest.{Computes, Yes};
ghost use Rattle.reach.specs.Chains.{InReach};
ghost use Rattle.reach.specs.Laws.{ReachSaid};
ghost use Rattle.reach.specs.Scenes.{Empty, IsOfPattern};
ghost use Rattle.reach.specs.Verdicts.{Verdict};
ghost use Rattle.reach.specs.Views.{scene_in};

use crate::bounds::bounded;
use crate::gather::gather;
use crate::line::Line;
use crate::view::View;
use rules::derive;
use structure::{lowest, node_at};
use table::in_pattern;

/// The lowest place of the kind that lanes can come to, with a chain that ends on it.
/// The closure answers whether a place is of the kind.
fn judge<F: Fn(u16) -> bool>(view: &View, kind: F, chain: &mut [Line]) -> Option<u16>
    requires { F.IsAlwaysCallable kind }
    ensures { (says : ℕ → Bool) → Computes (F.post kind) says → Verdict (scene_in view.now) (Yes says) result chain.old chain.new }
{
    bounded(view);
    let found = derive(view);
    let place = lowest(|place| found.has(place) && kind(place))?;
    let steps = found.chain_to(view, place)?;
    gather(view, steps.lines(), chain);
    Some(place)
}

/// A place with a node of the pattern that lanes can come to, if there is one. Its chain is written to the memory,
/// which is unchanged where there is none.
pub fn into_pattern(view: &View, pattern: u8, chain: &mut [Line]) -> Option<u16>
    ensures { Verdict (scene_in view.now) (IsOfPattern (scene_in view.now) pattern) result chain.old chain.new }
{
    let nodes = view.nodes;
    judge(
        view,
        |place| in_pattern(node_at(nodes, place), pattern),
        chain,
    )
}

/// A place without a node that lanes can come to, if there is one. Its chain is written to the memory, which is
/// unchanged where there is none.
pub fn onto_empty(view: &View, chain: &mut [Line]) -> Option<u16>
    ensures { Verdict (scene_in view.now) (Empty (scene_in view.now)) result chain.old chain.new }
{
    let nodes = view.nodes;
    judge(view, |place| node_at(nodes, place).is_none(), chain)
}

/// The place, if lanes can come to it. Its chain is written to the memory, which is unchanged where they cannot.
pub fn to_place(view: &View, place: u16, chain: &mut [Line]) -> Option<u16>
    ensures { Verdict (scene_in view.now) (λ (p : ℕ). p ≡ place) result chain.old chain.new }
{
    judge(view, |p| p == place, chain)
}

/// Whether lanes can come to a place.
pub fn in_reach(view: &View, place: u16) -> bool
    ensures sound { result ≡ true → InReach (scene_in view.now) place }
    ensures complete { InReach (scene_in view.now) place → result ≡ true }
    ensures said { ReachSaid (scene_in view.now) }
{
    bounded(view);
    derive(view).has(place)
}
