//! The second rule, which counts only where the first is level.

use crate::levels::compared;
use crate::net::net;
use quietest::Quietest;
use rules::{Average, Paired};
use std::cmp::Ordering::{Equal, Greater, Less};

/// The averages 3 and 22/8 differ from the net gains 1 and 3. Where the averages are 1/1 and 2/2, the net gains are -1 and -2.
#[test]
fn the_average_and_then_the_net_gain(rt: HostRuntime) {
    let rule = Paired {
        first: Average,
        second: net([1, 1, 1]),
    };
    for (a, b, expected) in [
        ([4, 6, 1], [8, 11, 0], Greater),
        ([8, 11, 0], [4, 6, 1], Less),
        ([2, 1, 0], [4, 2, 0], Greater),
        ([4, 2, 0], [2, 1, 0], Less),
        ([4, 2, 0], [4, 2, 0], Equal),
    ] {
        assert_eq!(rt; compared(&rule, a, b), Some(expected));
    }
}

#[test]
fn the_net_gain_and_then_the_average(rt: HostRuntime) {
    let rule = Paired {
        first: net([1, 1, 1]),
        second: Average,
    };
    assert_eq!(rt; compared(&rule, [4, 6, 1], [8, 11, 0]), Some(Less));
    // both net gains are 1, and the averages 12/4 and 12/5
    assert_eq!(rt; compared(&rule, [4, 6, 1], [5, 6, 0]), Some(Greater));
}

/// Without weights all net gains are level.
#[test]
fn pairs_of_pairs(rt: HostRuntime) {
    let level = net([0, 0, 0]);
    let left = Paired {
        first: Paired {
            first: Average,
            second: level,
        },
        second: Quietest,
    };
    let right = Paired {
        first: Average,
        second: Paired {
            first: level,
            second: Quietest,
        },
    };
    for (a, b, expected) in [
        ([4, 6, 1], [8, 11, 0], Greater),
        ([2, 1, 0], [4, 2, 0], Less),
        ([2, 1, 0], [4, 2, 1], Greater),
        ([2, 1, 0], [2, 1, 0], Equal),
    ] {
        assert_eq!(rt; compared(&left, a, b), Some(expected));
        assert_eq!(rt; compared(&right, a, b), Some(expected));
    }
}
