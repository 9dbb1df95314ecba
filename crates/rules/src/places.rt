//! Sets of places.
ghost use Rattle.std.specs.Prelude.{◌≡◌, true};
ghost use Rattle.rules.specs.Chain.{Met};
ghost use Rattle.rules.specs.Found.{holds};
ghost use Rattle.rules.specs.Steps.{no_places, with_place, with_ground, with_grounds};

use super::book::Rule;

/// A set of places below 512.
// A mark for each place, since the library takes no memory.
#[derive(Clone, Copy)]
pub struct Places {
    marked: [bool; 512],
}

impl Places {
    /// The empty set.
    pub fn none() -> Places
        ensures { result ≡ no_places }
    {
        Places {
            marked: [false; 512],
        }
    }

    /// Whether a place is in the set.
    pub fn has(&self, place: u16) -> bool
        ensures { result ≡ holds self.now place }
    {
        self.marked.get(place as usize).copied().unwrap_or(false)
    }

    /// Whether a ground is met: it is none, or a place of the set.
    pub fn meets(&self, ground: Option<u16>) -> bool
        ensures met { result ≡ true → Met (λ p. holds self.now p ≡ true) ground }
        ensures told { Met (λ p. holds self.now p ≡ true) ground → result ≡ true }
    {
        ground.is_none_or(|place| self.has(place))
    }

    /// Puts a place into the set; there is none of 512 or more.
    pub fn add(&mut self, place: u16)
        ensures { self.new ≡ with_place self.old place }
    {
        // by number, since a proof does not see what is written through `get_mut`
        let at = place as usize;
        if at < 512 {
            self.marked[at] = true;
        }
    }

    /// Puts a ground into the set, where it is a place.
    pub fn add_ground(&mut self, ground: Option<u16>)
        ensures { self.new ≡ with_ground self.old ground }
    {
        if let Some(place) = ground {
            self.add(place);
        }
    }

    /// Puts the grounds of a rule into the set, where the place that it gave is in it.
    pub fn want(&mut self, place: u16, rule: Rule)
        ensures { self.new ≡ with_grounds self.old place rule }
    {
        if self.has(place) {
            self.add_ground(rule.first);
            self.add_ground(rule.second);
        }
    }
}
