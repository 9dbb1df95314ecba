//! A row that has been looked at: its count is in range. Entries join at the end and leave at the front.
ghost use Rattle.std.specs.Prelude.{◌≡◌, ◌<◌, ◌≤◌, not, [], ◌∷◌, ◌++◌, map, drop, if◌then◌else◌, MatchOption};
ghost use Rattle.rows.specs.Entries.{forgotten_entry};
ghost use Rattle.rows.specs.Rows.{waiting, vacant, full, joined, first_of, spent, left, forgotten, Canonical};
ghost use Rattle.rows.specs.Lists.{oldest, first_spent};

use crate::entry;
use crate::plain::{PlainRow, moved_up};
use std::marker::Model;
use words::Entry;

/// A row in which at most four entries wait. Clauses read it as the plain row.
// A table holds plain rows, so that its memory is plain data, and the steps make one of these of a plain row once they
// have looked at its count.
#[derive(Clone, Copy)]
pub struct Row {
    plain: PlainRow,
}

impl Model for Row {
    ghost use Rattle.std.specs.Prelude.{◌≤◌};
    ghost use Rattle.rows.specs.declared.plain.PlainRow.{PlainRow};

    ghost Value = { PlainRow };

    ghost view = { λ row. row.plain };

    ghost invariant = { λ row. row.plain.count ≤ 4 };

    ghost inverse = { λ plain. record { plain = plain } };
}

impl Row {
    /// The plain row, unless its count is over four.
    pub fn of(plain: PlainRow) -> Option<Row>
        ensures { MatchOption result (4 < plain.count) (λ row. (plain.count ≤ 4) × (row ≡ plain)) }
    {
        if plain.count > 4 {
            return None;
        }
        Some(Row { plain })
    }

    /// The row as it lies in a table.
    pub fn plain(self) -> PlainRow
        ensures value { result ≡ self }
        ensures few { result.count ≤ 4 }
    {
        let Row { plain } = self;
        plain
    }

    /// How many entries wait.
    pub fn len(&self) -> usize
        ensures value { result ≡ self.now.count }
        ensures few { result ≤ 4 }
    {
        usize::from(self.plain.count)
    }

    /// Whether no entry waits.
    pub fn is_empty(&self) -> bool
        ensures value { result ≡ vacant self.now }
        ensures few { self.now.count ≤ 4 }
    {
        self.plain.count == 0
    }

    /// Whether four entries wait.
    pub fn is_full(&self) -> bool
        ensures value { result ≡ full self.now }
        ensures few { self.now.count ≤ 4 }
    {
        self.plain.count == 4
    }

    /// Puts an entry at the end, and says whether there was room for it; a row of four stays as it is.
    pub fn join(&mut self, e: Entry) -> bool
        ensures room { result ≡ not (full self.old) }
        ensures exact { self.new ≡ (if result then joined self.old e else self.old) }
        ensures listed { waiting self.new ≡ (if result then waiting self.old ++ e ∷ [] else waiting self.old) }
        ensures canonical { Canonical self.old → Canonical self.new }
        ensures few { self.new.count ≤ 4 }
    {
        if self.is_full() {
            return false;
        }
        let end = self.len();
        self.plain.entries[end] = e;
        self.plain.count += 1;
        true
    }

    /// The oldest entry, if any waits.
    pub fn first(&self) -> Option<Entry>
        ensures exact { result ≡ first_of self.now }
        ensures listed { result ≡ oldest (waiting self.now) }
        ensures few { self.now.count ≤ 4 }
    {
        match self.plain.count {
            0 => None,
            _ => Some(self.plain.entries[0]),
        }
    }

    /// Takes one repeat from the oldest entry, if any waits and it has one.
    pub fn spend(&mut self)
        ensures exact { self.new ≡ spent self.old }
        ensures listed { waiting self.new ≡ first_spent (waiting self.old) }
        ensures canonical { Canonical self.old → Canonical self.new }
        ensures few { self.new.count ≤ 4 }
    {
        if self.is_empty() {
            return;
        }
        self.plain.entries[0] = entry::spent(self.plain.entries[0]);
    }

    /// Lets the oldest entry go, if any waits; the others move up.
    pub fn leave(&mut self)
        ensures exact { self.new ≡ left self.old }
        ensures listed { waiting self.new ≡ drop 1 (waiting self.old) }
        ensures canonical { Canonical self.old → Canonical self.new }
        ensures few { self.new.count ≤ 4 }
    {
        if self.is_empty() {
            return;
        }
        self.plain.entries = moved_up(self.plain.entries);
        self.plain.count -= 1;
    }

    /// Takes every repeat from the orders to the marked places.
    #[tactic(auto, using(crate::proofs::Changes::waiting_forgotten, crate::proofs::Changes::canonical_forgotten))]
    pub fn forget(&mut self, places: &[bool; 512])
        ensures exact { self.new ≡ forgotten places.now self.old }
        ensures listed { waiting self.new ≡ map (forgotten_entry places.now) (waiting self.old) }
        ensures canonical { Canonical self.old → Canonical self.new }
        ensures few { self.new.count ≤ 4 }
    {
        self.plain = self.plain.forgotten(places);
    }
}
