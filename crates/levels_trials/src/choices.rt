//! The level that a rule chooses, by scores that were worked out by hand.

use crate::sites::{
    APART, BRIDGE, COMPLETE, EIGHT, EIGHT_AND_A_LINK, EIGHT_LESS_A_LINK, FIVE, NONE, ONE,
};
use quietest::Quietest;
use rules::levels::choose;
use rules::{Average, Net, Paired, Refusal, Rule};
use view::listed::{Listed, Listing};
use view::service::ServiceList;
use view::struck::Struck;

/// The level that a rule chooses on a listed site.
fn chosen<R: Rule>(listing: Listing<'static, 'static>, rule: &R) -> Result<usize, Refusal> {
    choose(&Listed::open(listing), rule)
}

/// The net gain with these weights: of a link inside, of a link at the boundary and of a member.
fn net([inside_gain, boundary_cost, member_cost]: [u16; 3]) -> Net {
    Net {
        inside_gain,
        boundary_cost,
        member_cost,
    }
}

/// Of eight, the averages are 22/8, 22/8, 20/7 and 12/4 from level 0 up. With a link more, all are 3. With a link less,
/// they are 20/8, 20/8 and 18/7, and where two groups are bridged, three times 28/9 and then 24/8.
#[test]
fn the_average(rt: HostRuntime) {
    for (listing, level) in [
        (EIGHT, 3),
        (EIGHT_AND_A_LINK, 3),
        (EIGHT_LESS_A_LINK, 2),
        (BRIDGE, 2),
        (FIVE, 3),
        (COMPLETE, 4),
        (APART, 0),
        (ONE, 0),
    ] {
        assert_eq!(rt; chosen(listing, &Average), Ok(level));
    }
}

/// Of eight, the net gains are 3, 3, 2 and 1 from level 0 up. With a link more, they are 4, 4, 4 and 1, with a link less
/// 2, 2 and 1, and where two groups are bridged, 5, 5, 5 and 2.
#[test]
fn the_net_gain(rt: HostRuntime) {
    for (listing, level) in [
        (EIGHT, 1),
        (EIGHT_AND_A_LINK, 2),
        (EIGHT_LESS_A_LINK, 1),
        (BRIDGE, 2),
        (FIVE, 1),
        (COMPLETE, 4),
        (APART, 0),
        (ONE, 0),
    ] {
        assert_eq!(rt; chosen(listing, &net([1, 1, 1])), Ok(level));
    }
}

/// By 4, 0 and 5 the net gains of eight are 4, 4, 5 and 4. Without weights all are level, and by the members alone they
/// are -8, -8, -7 and -4.
#[test]
fn other_weights(rt: HostRuntime) {
    for (weights, level) in [
        ([4, 0, 5], 2),
        ([0, 0, 0], 3),
        ([0, 0, 1], 3),
        ([0, 1, 0], 1),
        ([1, 0, 0], 1),
    ] {
        assert_eq!(rt; chosen(EIGHT, &net(weights)), Ok(level));
    }
}

/// The average tells level 3 of eight from all others; the net gain leaves two, whose averages are level.
#[test]
fn paired_rules(rt: HostRuntime) {
    let average_first = Paired {
        first: Average,
        second: net([1, 1, 1]),
    };
    assert_eq!(rt; chosen(EIGHT, &average_first), Ok(3));
    assert_eq!(rt; chosen(EIGHT_AND_A_LINK, &average_first), Ok(2));
    let net_first = Paired {
        first: net([1, 1, 1]),
        second: Average,
    };
    assert_eq!(rt; chosen(EIGHT, &net_first), Ok(1));
    let level_first = Paired {
        first: net([0, 0, 0]),
        second: Quietest,
    };
    assert_eq!(rt; chosen(EIGHT, &level_first), Ok(1));
}

/// Levels 0 and 1 of eight have no boundary and eight members each, and the others a link at the boundary.
#[test]
fn a_rule_from_outside(rt: HostRuntime) {
    for (listing, level) in [
        (EIGHT, 1),
        (EIGHT_AND_A_LINK, 2),
        (EIGHT_LESS_A_LINK, 1),
        (BRIDGE, 2),
        (FIVE, 1),
        (COMPLETE, 4),
    ] {
        assert_eq!(rt; chosen(listing, &Quietest), Ok(level));
    }
}

/// With 7 struck, the tallies are 8/10/0, 7/10/0, 7/10/0 and 4/6/1 from level 0 up.
#[test]
fn one_station_struck(rt: HostRuntime) {
    let view = Listed::open(EIGHT);
    let mut service = ServiceList::new();
    assert_eq!(rt; service.mark(7), Ok(()));
    let struck = Struck::new(&view, &service);
    assert_eq!(rt; choose(&struck, &Average), Ok(3));
    assert_eq!(rt; choose(&struck, &net([1, 1, 1])), Ok(2));
    assert_eq!(rt; choose(&struck, &Quietest), Ok(0));
}

#[test]
fn no_stations_are_refused(rt: HostRuntime) {
    let refused = chosen(NONE, &Average);
    assert_eq!(rt; refused, Err(Refusal::CountOutOfRange));
    assert_eq!(rt; refused.err().map(|refusal| refusal.number()), Some(1));
}
