//! A change made to each element of a list, beside another list.
#![tactic(auto)]

ghost use Rattle.std.specs.Prelude.{◌≡◌};
ghost use Rattle.each.specs.Each.{zipped, ChangedEach, Computes};

/// Changes each element beside the element of the other list with the same number; elements without one stay.
/// What the closure returns for the two is the element after the change.
pub fn change_each<T: Copy, M: Copy, F: Fn(T, M) -> T>(items: &mut [T], marks: &[M], change: F)
    requires { F.IsAlwaysCallable change }
    ensures changed { ChangedEach (F.post change) items.old marks.now items.new }
    ensures value { (f : T → M → T) → Computes (F.post change) f → items.new ≡ zipped f items.old marks.now }
{
    // by number, since a proof does not see what is written through `iter_mut().zip(..)`
    for i in 0..items.len().min(marks.len()) {
        items[i] = change(items[i], marks[i]);
    }
}
