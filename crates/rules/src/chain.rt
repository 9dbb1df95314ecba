//! Chains of lines.
ghost use Rattle.std.specs.Prelude.{◌≡◌, ◌≤◌, length, MatchOption};
ghost use Rattle.rules.specs.Chain.{On, Stands, lines_of};
ghost use Rattle.rules.specs.Steps.{Beginning, no_lines, pushed};

/// A line of a chain: the number of a rule, and the place that the rule gives.
#[derive(Clone, Copy)]
pub struct Line {
    /// The number of the rule in its book.
    pub rule: usize,
    /// The place.
    pub place: u16,
}

/// A list of at most 512 lines.
#[derive(Clone, Copy)]
pub struct Chain {
    // a fixed array and a length, since nothing is allocated and a chain is given by value
    lines: [Line; 512],
    len: usize,
}

impl Chain {
    /// The chain with no line.
    pub(crate) fn empty() -> Chain
        ensures { result ≡ no_lines }
    {
        Chain {
            lines: [Line { rule: 0, place: 0 }; 512],
            len: 0,
        }
    }

    /// Puts a line at the end, where there is room.
    pub(crate) fn push(&mut self, line: Line)
        ensures { self.new ≡ pushed self.old line }
    {
        if self.len < 512 {
            self.lines[self.len] = line;
            self.len += 1;
        }
    }

    /// The lines, in their order.
    pub fn lines(&self) -> &[Line]
        ensures value { result.now ≡ lines_of self.now }
        ensures few { length result.now ≤ 512 }
    {
        // so every chain has a reading, and none needs an invariant
        &self.lines[..self.len.min(512)]
    }

    /// How many lines there are.
    pub fn len(&self) -> usize
        ensures { result ≡ length (lines_of self.now) }
    {
        self.lines().len()
    }

    /// The line at the position `i`, counted from 0.
    pub fn line(&self, i: usize) -> Option<Line>
        ensures { Stands (lines_of self.now) i result }
    {
        self.lines().get(i).copied()
    }

    /// The lines up to the one that gives a place.
    pub(crate) fn up_to(&self, place: u16) -> Option<&[Line]>
        ensures { MatchOption result (On (lines_of self.now) place → ⊥) (λ l. Beginning (lines_of self.now) l.now place) }
    {
        let lines = self.lines();
        let last = lines.iter().position(|line| line.place == place)?;
        Some(&lines[..=last])
    }
}
