//! The rule of the average: how many neighbours a station of the level has within it.

ghost use Rattle.std.specs.Prelude.{◌≤◌};

use crate::{Rule, Tally};
use std::cmp::Ordering;

/// The score is the fraction 2 × inside / members, as a link inside has two ends.
#[derive(Clone, Copy, PartialEq, Eq, Debug)]
pub struct Average;

/// A fraction, with a denominator of at least 1. It need not be in its lowest terms, so it has no `==`: 1/2 and 2/4 are
/// level.
#[derive(Clone, Copy, Debug)]
pub struct Fraction {
    /// What is above the line.
    pub numerator: u32,
    /// What is below the line.
    pub denominator: u32,
    ghost nonzero: { 1 ≤ denominator },
}

impl Rule for Average {
    ghost use Rattle.rules.specs.Scores.{average, by_fraction};
    ghost use Rattle.rules.specs.OrderLaws.{lawful_fractions};

    type Score = Fraction;

    ghost scores = { λ _. average };

    ghost orders = { λ _. by_fraction };

    ghost lawful = { λ _. lawful_fractions };

    fn score(&self, tally: &Tally) -> Fraction {
        Fraction {
            numerator: 2 * tally.inside(),
            denominator: tally.members(),
        }
    }

    /// By the two products across, so that nothing is rounded.
    fn compare(&self, a: &Fraction, b: &Fraction) -> Ordering {
        let left = u64::from(a.numerator) * u64::from(b.denominator);
        let right = u64::from(b.numerator) * u64::from(a.denominator);
        left.cmp(&right)
    }
}
