//! The rule of the net gain: what the links inside gain, less what all else costs.

ghost use Rattle.std.specs.Prelude.{◌≡◌, ◌<◌, ◌*◌, ◌^◌, pos};
ghost use Rattle.std.specs.Ordering.{int_cmp};
ghost use Rattle.rules.specs.Scores.{net};
ghost use Rattle.rules.specs.OrderLaws.{lawful_numbers};

use crate::{Rule, Tally};
use std::cmp::Ordering;

/// The score is gain × inside − boundary cost × boundary − member cost × members.
#[derive(Clone, Copy, PartialEq, Eq, Debug)]
pub struct Net {
    /// What a link with both ends in the level gains.
    pub inside_gain: u16,
    /// What a link with one end in the level costs.
    pub boundary_cost: u16,
    /// What a station of the level costs.
    pub member_cost: u16,
}

/// How much that many come to, at so much each.
fn amount(each: u16, count: u32) -> i64
    ensures value { result ≡ pos (each * count) }
    ensures small { each * count < 2 ^ 48 }
{
    i64::from(each) * i64::from(count)
}

impl Rule for Net {
    type Score = i64;

    ghost scores = { net };

    ghost orders = { λ _. int_cmp };

    ghost lawful = { λ _. lawful_numbers };

    fn score(&self, tally: &Tally) -> i64 {
        amount(self.inside_gain, tally.inside())
            - amount(self.boundary_cost, tally.boundary())
            - amount(self.member_cost, tally.members())
    }

    fn compare(&self, a: &i64, b: &i64) -> Ordering {
        a.cmp(b)
    }
}
