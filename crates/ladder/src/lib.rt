//! Two small books of rules, and what follows by them.
#![tactic(auto)]

ghost use Rattle.std.specs.Prelude.{◌≡◌, ◌<◌, ◌≤◌, true, MatchOption};
ghost use Rattle.rules.specs.Chain.{Leads, lines_of};
ghost use Rattle.ladder.specs.Books.{knot_rule, ladder_rule};

use rules::{Book, Chain, Rule, derive};

const RULES: [Rule; 4] = [
    Rule {
        conclusion: Some(0),
        ..Rule::NONE
    },
    Rule {
        first: Some(0),
        conclusion: Some(1),
        ..Rule::NONE
    },
    Rule {
        first: Some(1),
        second: Some(0),
        conclusion: Some(2),
    },
    Rule {
        first: Some(3),
        conclusion: Some(3),
        ..Rule::NONE
    },
];

/// Place 0 follows from nothing, 1 from 0, 2 from 1 and 0, and 3 from itself.
#[derive(Clone, Copy)]
pub struct Knot;

impl Book for Knot {
    ghost size = { λ _. 4 };

    ghost rules = { λ _. knot_rule };

    fn count(&self) -> usize {
        4
    }

    fn rule(&self, i: usize) -> Rule {
        RULES.get(i).copied().unwrap_or(Rule::NONE)
    }
}

/// Whether a place follows by the knot: exactly 0, 1 and 2 do.
pub fn follows(place: u16) -> bool
    ensures only { result ≡ true → place < 3 }
    ensures each { place < 3 → result ≡ true }
{
    derive(&Knot).has(place)
}

/// Place 0 follows from nothing, and each other from the one below it; the rules stand in the worst order for sweeps.
#[derive(Clone, Copy)]
pub struct Ladder;

impl Book for Ladder {
    ghost size = { λ _. 512 };

    ghost rules = { λ _. ladder_rule };

    fn count(&self) -> usize {
        512
    }

    fn rule(&self, i: usize) -> Rule {
        if i < 511 {
            Rule {
                first: Some((510 - i) as u16),
                conclusion: Some((511 - i) as u16),
                ..Rule::NONE
            }
        } else {
            Rule {
                conclusion: Some(0),
                ..Rule::NONE
            }
        }
    }
}

/// A chain up the ladder to a place: there is one to each place.
pub fn climb(place: u16) -> Option<Chain>
    ensures { MatchOption result (512 ≤ place) (λ c. Leads 512 ladder_rule (lines_of c) place) }
{
    derive(&Ladder).chain_to(&Ladder, place)
}
