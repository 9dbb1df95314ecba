//! All that follows by a book.
ghost use Rattle.std.specs.Prelude.{◌≡◌, true, false, length, MatchOption, ◌≢◌};
ghost use Rattle.rules.specs.Chain.{Derivable, Leads, Stands, lines_of};
ghost use Rattle.rules.specs.Found.{marks, recorded, Found};
ghost use Rattle.rules.specs.Laws.{Laws};
ghost use Rattle.rules.specs.Steps.{nothing_found, Step, Swept};

use super::book::{Book, Rule};
use super::chain::{Chain, Line};
use super::need::narrow;
use super::places::Places;

/// The places that follow by a book, and a chain that has them all.
#[derive(Clone, Copy)]
pub struct Derived {
    places: Places,
    chain: Chain,
}

impl Derived {
    fn nothing() -> Derived
        ensures { result ≡ nothing_found }
    {
        Derived {
            places: Places::none(),
            chain: Chain::empty(),
        }
    }

    /// Whether a place follows.
    pub fn has(&self, place: u16) -> bool
        ensures { result ≡ marks self.now place }
    {
        self.places.has(place)
    }

    /// How many places follow, each on one line.
    pub fn len(&self) -> usize
        ensures { result ≡ length (recorded self.now) }
    {
        self.chain.len()
    }

    /// The line at the position `i` of the chain, counted from 0.
    pub fn line(&self, i: usize) -> Option<Line>
        ensures { Stands (recorded self.now) i result }
    {
        self.chain.line(i)
    }

    /// A chain that ends on a place and has no line but what that needs, or none where the place does not follow.
    pub fn chain_to<B: Book>(&self, book: &B, place: u16) -> Option<Chain>
        ensures { Found (B.size book.now) (B.rules book.now) self.now → MatchOption result (Derivable (B.size book.now) (B.rules book.now) place → ⊥) (λ c. Leads (B.size book.now) (B.rules book.now) (lines_of c) place) }
    {
        let lines = self.chain.up_to(place)?;
        Some(narrow(lines, book, place))
    }

    /// Puts down the conclusion of the rule with the number `k`, where it is new and the grounds are there.
    fn consider(&mut self, k: usize, rule: Rule)
        ensures { Step rule k self.old self.new }
    {
        let Some(place) = rule.conclusion else {
            return;
        };
        if place >= 512 || self.has(place) {
            return;
        }
        if !self.places.meets(rule.first) || !self.places.meets(rule.second) {
            return;
        }
        self.places.add(place);
        self.chain.push(Line { rule: k, place });
    }

    /// Considers each rule of the book once.
    fn sweep<B: Book>(&mut self, book: &B)
        ensures { Swept (B.rules book.now) (B.size book.now) self.old self.new }
    {
        // a book's rules are computed from their numbers, and stand in no list
        for k in 0..book.count() {
            self.consider(k, book.rule(k));
        }
    }

    /// Considers each rule of the book once, and says whether that found a place.
    fn grows<B: Book>(&mut self, book: &B) -> bool
        ensures swept { Swept (B.rules book.now) (B.size book.now) self.old self.new }
        ensures told { result ≡ false → length (recorded self.new) ≡ length (recorded self.old) }
        ensures more { result ≡ true → length (recorded self.new) ≢ length (recorded self.old) }
    {
        let before = self.len();
        self.sweep(book);
        self.len() != before
    }
}

/// All that follows by the book.
pub fn derive<B: Book>(book: &B) -> Derived
    ensures found { Found (B.size book.now) (B.rules book.now) result }
    ensures laws { Laws (B.size book.now) (B.rules book.now) }
{
    let mut found = Derived::nothing();
    while found.grows(book) {}
    found
}
