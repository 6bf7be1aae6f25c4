//! The average, compared exactly.

use crate::levels::{compared, scored};
use rules::Average;
use std::cmp::Ordering::{Equal, Greater, Less};

/// The fraction that a level scores.
fn fraction(level: [u32; 3]) -> Option<(u32, u32)> {
    let score = scored(&Average, level)?;
    Some((score.numerator, score.denominator))
}

#[test]
fn both_ends_of_a_link_inside_count(rt: HostRuntime) {
    for (level, expected) in [
        ([4, 6, 1], (12, 4)),
        ([7, 10, 1], (20, 7)),
        ([8, 11, 0], (22, 8)),
        ([512, 130_816, 65_536], (261_632, 512)),
    ] {
        assert_eq!(rt; fraction(level), Some(expected));
    }
}

/// 3 is above 20/7, which is above 22/8: the last two are 2 and a part. 1/1 and 2/2 are level. And 511 is above 510, where
/// all stations of the two largest levels hear one another.
#[test]
fn fractions_are_compared_without_rounding(rt: HostRuntime) {
    for (a, b, expected) in [
        ([4, 6, 1], [7, 10, 1], Greater),
        ([7, 10, 1], [8, 11, 0], Greater),
        ([4, 6, 1], [8, 11, 0], Greater),
        ([8, 11, 0], [7, 10, 1], Less),
        ([2, 1, 0], [4, 2, 0], Equal),
        ([5, 0, 2], [1, 0, 0], Equal),
        ([512, 130_816, 0], [511, 130_305, 0], Greater),
        ([511, 130_305, 0], [512, 130_816, 0], Less),
    ] {
        assert_eq!(rt; compared(&Average, a, b), Some(expected));
    }
}
