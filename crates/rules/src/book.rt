//! Rules, and the books that hold them.
ghost use Rattle.std.specs.Prelude.{◌≡◌, ℕ};
ghost use Rattle.rules.specs.declared.book.Rule.{Rule};

/// From its grounds, none, one or two places, follows its conclusion.
/// A slot with no conclusion, or with one of 512 or more, is no rule, and a ground of 512 or more is never met.
#[derive(Clone, Copy)]
pub struct Rule {
    /// A place that has to follow before, if one has to.
    pub first: Option<u16>,
    /// Another such place.
    pub second: Option<u16>,
    /// The place that follows.
    pub conclusion: Option<u16>,
}

impl Rule {
    /// The slot that holds no rule.
    pub const NONE: Rule = Rule {
        first: None,
        second: None,
        conclusion: None,
    };
}

/// A fixed list of rules: those with a number below the book's count.
// A rule is computed from its number, which each book looks at for itself: no list of rules stands in memory.
pub trait Book {
    ghost size: { Self → ℕ };

    ghost rules: { Self → ℕ → Rule };

    /// How many rules there are.
    fn count(&self) -> usize
        ensures { result ≡ size self.now };

    /// The rule with the number `i`.
    fn rule(&self, i: usize) -> Rule
        ensures { result ≡ rules self.now i };
}
