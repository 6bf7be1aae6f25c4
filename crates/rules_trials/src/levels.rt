//! Levels by their three counts: members, inside and boundary.

use rules::{Counts, Rule, Tally};
use std::cmp::Ordering;

/// The tally of a level, or none where it is off limits.
pub(crate) fn tally([members, inside, boundary]: [u32; 3]) -> Option<Tally> {
    Tally::new(Counts {
        members,
        inside,
        boundary,
    })
}

/// What a level scores by a rule.
pub(crate) fn scored<R: Rule>(rule: &R, level: [u32; 3]) -> Option<R::Score> {
    Some(rule.score(&tally(level)?))
}

/// Where a level stands to another by a rule.
pub(crate) fn compared<R: Rule>(rule: &R, a: [u32; 3], b: [u32; 3]) -> Option<Ordering> {
    Some(rule.compare(&scored(rule, a)?, &scored(rule, b)?))
}
