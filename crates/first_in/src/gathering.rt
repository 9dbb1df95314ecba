//! Items of which each gives one for the caller's slots.
ghost use Rattle.std.specs.Prelude.{◌≡◌, min, length, take, drop};
ghost use Rattle.std.specs.List.{AllZip};

use crate::list::FirstIn;

/// Writes what `line` gives for each of `items`, in order, from the first slot on, as far as there is room, and says how
/// many it wrote. The slots behind them hold what they held.
pub fn gather<S: Copy, T: Copy, F: Fn(S) -> T>(slots: &mut [T], items: &[S], line: F) -> usize
    requires { F.IsAlwaysCallable line }
    ensures count { result ≡ min (length items.now) (length slots.old) }
    ensures each { AllZip (F.post line) (take result items.now) (take result slots.new) }
    ensures behind { drop result slots.new ≡ drop result slots.old }
{
    let mut list = FirstIn::new(slots);
    for item in items {
        let _ = list.push(line(*item));
    }
    list.finish()
}
