//! Counts at the limits and just past them.

use crate::levels::tally;

/// What the tally of a level shows.
fn shown(level: [u32; 3]) -> Option<[u32; 3]> {
    let tally = tally(level)?;
    Some([tally.members(), tally.inside(), tally.boundary()])
}

#[test]
fn counts_at_the_limits_make_a_tally(rt: HostRuntime) {
    for level in [
        [4, 6, 1],
        [1, 0, 0],
        [512, 0, 0],
        [1, 130_816, 0],
        [1, 0, 65_536],
        [512, 130_816, 65_536],
    ] {
        assert_eq!(rt; shown(level), Some(level));
    }
}

#[test]
fn counts_past_a_limit_make_none(rt: HostRuntime) {
    for level in [
        [0, 0, 0],
        [0, 6, 1],
        [513, 6, 1],
        [4, 130_817, 1],
        [4, 6, 65_537],
        [u32::MAX, 6, 1],
        [4, u32::MAX, 1],
        [4, 6, u32::MAX],
    ] {
        assert!(rt; tally(level).is_none());
    }
}
