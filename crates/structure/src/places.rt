//! The lowest place of which something holds.
ghost use Rattle.std.specs.Prelude.{ℕ, Bool};
ghost use Rattle.structure.specs.Lowest.{Computes, FoundLowest, LowestBy, Yes};

/// The lowest of the 512 places for which the closure answers yes.
/// Where its answers are those of a spec function, that is the lowest place where the function is true.
pub fn lowest<F: Fn(u16) -> bool>(says: F) -> Option<u16>
    requires { F.IsAlwaysCallable says }
    ensures answered { LowestBy (F.post says) result }
    ensures found { (f : ℕ → Bool) → Computes (F.post says) f → FoundLowest (Yes f) result }
{
    (0..512).find(|place| says(*place))
}
