//! The net gain, with no count left out and no score cut.

use crate::levels::{compared, scored};
use rules::Net;
use std::cmp::Ordering::{Equal, Greater, Less};

/// The rule with these weights: of a link inside, of a link at the boundary and of a member.
pub(crate) fn net([inside_gain, boundary_cost, member_cost]: [u16; 3]) -> Net {
    Net {
        inside_gain,
        boundary_cost,
        member_cost,
    }
}

#[test]
fn each_count_has_its_weight(rt: HostRuntime) {
    let largest = [u16::MAX; 3];
    for (weights, level, expected) in [
        ([1, 1, 1], [4, 6, 1], 1),
        ([1, 1, 1], [7, 10, 1], 2),
        ([1, 1, 1], [8, 11, 0], 3),
        ([1, 1, 1], [4, 0, 3], -7),
        ([100, 10, 1], [4, 6, 1], 586),
        (largest, [1, 130_816, 0], 8_572_961_025),
        ([u16::MAX, 0, 0], [512, 130_816, 65_536], 8_573_026_560),
        (largest, [512, 0, 65_536], -4_328_455_680),
        (largest, [512, 130_816, 65_536], 4_244_570_880),
    ] {
        assert_eq!(rt; scored(&net(weights), level), Some(expected));
    }
}

#[test]
fn more_stands_above(rt: HostRuntime) {
    let even = net([1, 1, 1]);
    for (a, b, expected) in [
        ([8, 11, 0], [7, 10, 1], Greater),
        ([4, 6, 1], [7, 10, 1], Less),
        ([4, 6, 1], [5, 6, 0], Equal),
        ([4, 0, 3], [4, 6, 1], Less),
        ([4, 0, 3], [4, 0, 4], Greater),
    ] {
        assert_eq!(rt; compared(&even, a, b), Some(expected));
    }
}
