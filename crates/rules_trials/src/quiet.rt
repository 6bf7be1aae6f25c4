//! The rule of a customer's own.

use crate::levels::compared;
use quietest::Quietest;
use std::cmp::Ordering::{Equal, Greater, Less};

#[test]
fn fewer_boundary_links_and_then_more_members(rt: HostRuntime) {
    for (a, b, expected) in [
        ([8, 11, 0], [7, 10, 1], Greater),
        ([512, 11, 3], [1, 0, 2], Less),
        ([4, 6, 1], [7, 10, 1], Less),
        ([7, 10, 1], [4, 6, 1], Greater),
        ([4, 6, 1], [4, 2, 1], Equal),
    ] {
        assert_eq!(rt; compared(&Quietest, a, b), Some(expected));
    }
}
