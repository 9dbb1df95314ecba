//! A fixed number of slots, any one of which can be lent to be changed in place.
#![tactic(auto)]

ghost use Rattle.std.specs.Prelude.{◌≡◌, ◌<◌, get_or, set};
ghost use Rattle.std.specs.Borrow.{sem, follows};
ghost use Rattle.slots.specs.contracts.Slots.{the_row};

/// As many items as `N` says.
#[derive(Clone, Copy)]
pub struct Slots<T, const N: usize> {
    /// The items, in the order of their slots.
    pub items: [T; N],
}

impl<T, const N: usize> Slots<T, N> {
    /// Lends the item in slot `i`, which has to be below `N`. When the loan ends, the slot holds what was left in the item,
    /// and every other slot holds what it held.
    // Its proof stands by hand: none is generated for what an array in a field lends.
    pub fn slot_mut(&mut self, i: usize) -> &mut T
        requires { i < N }
        ensures* follows { sem 𝓛 (follows (the_row T.row N.row) T.row self.entry.ghost_name result.ghost_name (λ w. record { items = set self.old.items i w })) }
        ensures value { (d : T) → result.now ≡ get_or self.old.items i d }
    {
        &mut self.items[i]
    }
}
