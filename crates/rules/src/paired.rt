//! Two rules, the second of which counts where the first is level.

ghost use Rattle.rules.specs.Scores.{paired, by_pair};
ghost use Rattle.rules.specs.OrderLaws.{lawful_pairs};

use crate::{Rule, Tally};
use std::cmp::Ordering;

/// Two rules. The second counts where the first is level.
#[derive(Clone, Copy, PartialEq, Eq, Debug)]
pub struct Paired<First, Second> {
    /// The rule that counts.
    pub first: First,
    /// The rule that counts where the first is level.
    pub second: Second,
}

/// The scores by two rules.
#[derive(Clone, Copy, PartialEq, Eq, Debug)]
pub struct Pair<S, T> {
    /// The score by the first rule.
    pub first: S,
    /// The score by the second rule.
    pub second: T,
}

impl<First: Rule, Second: Rule> Rule for Paired<First, Second> {
    type Score = Pair<First::Score, Second::Score>;

    ghost scores = { λ rule. paired (First.Rule.scores rule.first) (Second.Rule.scores rule.second) };

    ghost orders = { λ rule. by_pair (First.Rule.orders rule.first) (Second.Rule.orders rule.second) };

    ghost lawful = { λ rule. lawful_pairs (First.Rule.lawful rule.first) (Second.Rule.lawful rule.second) };

    fn score(&self, tally: &Tally) -> Pair<First::Score, Second::Score> {
        Pair {
            first: self.first.score(tally),
            second: self.second.score(tally),
        }
    }

    fn compare(
        &self,
        a: &Pair<First::Score, Second::Score>,
        b: &Pair<First::Score, Second::Score>,
    ) -> Ordering {
        let first = self.first.compare(&a.first, &b.first);
        first.then_with(|| self.second.compare(&a.second, &b.second))
    }
}
