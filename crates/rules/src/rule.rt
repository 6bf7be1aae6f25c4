//! What a scoring rule is. A rule of one's own defines its two ghost members, and cites `OrderLaws` for its law: the crate
//! `quietest` shows how.

ghost use Rattle.std.specs.Prelude.{◌≡◌};
ghost use Rattle.std.specs.declared.cmp.Ordering.{Ordering};
ghost use Rattle.rules.specs.declared.tally.Tally.{Tally};
ghost use Rattle.rules.specs.Orders.{LawfulOrder};

use crate::Tally;
use std::cmp::Ordering;

/// A rule scores the tally of a level, and orders any two scores.
pub trait Rule {
    /// What the rule makes of a tally.
    type Score: Copy;

    /// The score of a tally.
    ghost scores: { Self → Tally → Self.Score };

    /// Where one score stands to another. An ordering is exactly one of below, level and above.
    ghost orders: { Self → Self.Score → Self.Score → Ordering };

    /// The score of a level, by its tally.
    fn score(&self, tally: &Tally) -> Self::Score
        ensures { result ≡ scores self.now tally.now };

    /// Where score `a` stands to score `b`: `Less` is below it, `Equal` level with it and `Greater` above it.
    fn compare(&self, a: &Self::Score, b: &Self::Score) -> Ordering
        ensures { result ≡ orders self.now a.now b.now };

    /// The law of a rule: swapped scores give the swapped answer, and not-below carries over.
    ghost lawful: { (rule : Self) → LawfulOrder (orders rule) };
}
