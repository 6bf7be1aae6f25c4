//! Homes and ups by a table of numbers.

use crate::sites::EIGHT;
use view::Refusal;
use view::forest::homes_and_ups;
use view::listed::{Listed, Listing};

/// The numbers of the eight stations.
const NUMBERS: [u16; 8] = [3, 3, 3, 3, 2, 2, 2, 1];

/// Two groups of four, and station 8 between 3 and 4.
const BRIDGED: Listing<'static, 'static> = Listing {
    starts: &[0, 3, 6, 9, 13, 17, 20, 23, 26, 28],
    ends: &[
        1, 2, 3, 0, 2, 3, 0, 1, 3, 0, 1, 2, 8, 5, 6, 7, 8, 4, 6, 7, 4, 5, 7, 4, 5, 6, 3, 4,
    ],
};

/// Stations 0 and 2 are linked, 1 and 3 likewise, and 4 stands alone.
const PARTED: Listing<'static, 'static> = Listing {
    starts: &[0, 1, 2, 3, 4, 4],
    ends: &[2, 3, 0, 1],
};

/// No up.
const NONE: u16 = 65_535;

/// What stands in a table before a call.
const OLD: u16 = 7_777;

/// The numbers of the eight stations, their homes and their ups.
type Case = ([u16; 8], [u16; 8], [u16; 8]);

const CASES: [Case; 8] = [
    // each carries the same, least and greatest
    ([0; 8], [0; 8], [NONE; 8]),
    ([65_535; 8], [0; 8], [NONE; 8]),
    // station 1 carries more than all around it
    (
        [0, 5, 0, 0, 0, 0, 0, 0],
        [0, 1, 0, 0, 0, 0, 0, 0],
        [NONE, 0, NONE, NONE, NONE, NONE, NONE, NONE],
    ),
    // station 7 is of the level below 3, but not around station 0
    (
        [3, 3, 3, 3, 1, 1, 1, 2],
        [0, 0, 0, 0, 4, 4, 4, 7],
        [4, NONE, NONE, NONE, NONE, NONE, NONE, 4],
    ),
    // stations 0 and 7 carry the same, and are connected only by those that carry less
    (
        [1, 0, 0, 0, 0, 0, 0, 1],
        [0, 1, 1, 1, 1, 1, 1, 7],
        [1, NONE, NONE, NONE, NONE, NONE, NONE, 1],
    ),
    // station 7 has its home by way of 6, which carries more
    (
        [0, 0, 0, 0, 2, 0, 6, 2],
        [0, 0, 0, 0, 4, 0, 6, 4],
        [NONE, NONE, NONE, NONE, 0, NONE, 4, NONE],
    ),
    // one up over the other, and levels between them that no station around carries
    (
        [9, 9, 9, 4, 2, 6, 2, 0],
        [0, 0, 0, 3, 4, 5, 4, 7],
        [3, NONE, NONE, 4, 7, 4, NONE, NONE],
    ),
    // the greatest numbers that there can be
    (
        [0, 0, 0, 65_535, 65_534, 0, 0, 65_535],
        [0, 0, 0, 3, 4, 0, 0, 7],
        [NONE, NONE, NONE, 4, 0, NONE, NONE, 0],
    ),
];

/// What is answered for tables of so many homes and ups, and what stands in them then.
fn forest<const H: usize, const U: usize>(
    listing: Listing,
    numbers: &[u16],
) -> (Result<usize, Refusal>, [u16; H], [u16; U]) {
    let (mut homes, mut ups) = ([OLD; H], [OLD; U]);
    let answer = homes_and_ups(&Listed::open(listing), numbers, &mut homes, &mut ups);
    (answer, homes, ups)
}

#[test]
fn the_eight_stations(rt: HostRuntime) {
    let homes = [0, 0, 0, 0, 4, 4, 4, 7, OLD, OLD];
    let ups = [4, NONE, NONE, NONE, 7, NONE, NONE, NONE, OLD];
    assert_eq!(rt; forest(EIGHT, &NUMBERS), (Ok(8), homes, ups));
}

#[test]
fn the_eight_stations_by_other_numbers(rt: HostRuntime) {
    for (numbers, homes, ups) in CASES {
        assert_eq!(rt;
            forest(EIGHT, &numbers),
            (Ok(8), homes, ups),
            "by {numbers:?}"
        );
    }
}

#[test]
fn two_groups_and_a_bridge(rt: HostRuntime) {
    let homes = [0, 0, 0, 0, 4, 4, 4, 4, 8];
    let ups = [8, NONE, NONE, NONE, 8, NONE, NONE, NONE, NONE];
    assert_eq!(rt;
        forest(BRIDGED, &[3, 3, 3, 3, 3, 3, 3, 3, 2]),
        (Ok(9), homes, ups)
    );
}

#[test]
fn stations_that_are_not_connected(rt: HostRuntime) {
    let none = [NONE; 5];
    assert_eq!(rt;
        forest(PARTED, &[1, 1, 1, 1, 0]),
        (Ok(5), [0, 1, 0, 1, 4], none)
    );
    assert_eq!(rt;
        forest(PARTED, &[2, 0, 1, 0, 3]),
        (Ok(5), [0, 1, 2, 1, 4], [2, NONE, NONE, NONE, NONE])
    );
    let starts = &[0, 0];
    let ends = &[];
    assert_eq!(rt;
        forest(Listing { starts, ends }, &[0]),
        (Ok(1), [0, OLD], [NONE, OLD])
    );
}

#[test]
fn each_of_512_stations_alone(rt: HostRuntime) {
    let starts = &[0; 513];
    let ends = &[];
    let mut own = [0; 512];
    for s in 0..512u16 {
        own[usize::from(s)] = s;
    }
    assert_eq!(rt;
        forest(Listing { starts, ends }, &own),
        (Ok(512), own, [NONE; 512])
    );
}

#[test]
fn counts_are_judged_before_the_room(rt: HostRuntime) {
    let refused = Err(Refusal::CountOutOfRange);
    let starts = &[0];
    let ends = &[];
    assert_eq!(rt;
        forest(Listing { starts, ends }, &[]),
        (refused, [OLD; 1], [OLD; 1]),
        "no stations"
    );
    assert_eq!(rt;
        forest(EIGHT, &NUMBERS[..7]),
        (refused, [OLD; 8], [OLD; 8]),
        "a number short"
    );
    assert_eq!(rt;
        forest(EIGHT, &[3, 3, 3, 3, 2, 2, 2, 1, 1]),
        (refused, [OLD; 9], [OLD; 7]),
        "a number too many"
    );
    assert_eq!(rt; forest(EIGHT, &[]), (refused, [], []), "nothing at all");
}

#[test]
fn each_table_needs_room(rt: HostRuntime) {
    let refused = Err(Refusal::BufferShort { needed: 8 });
    assert_eq!(rt; forest(EIGHT, &NUMBERS), (refused, [OLD; 7], [OLD; 8]));
    assert_eq!(rt; forest(EIGHT, &NUMBERS), (refused, [OLD; 9], [OLD; 7]));
    assert_eq!(rt; forest(EIGHT, &NUMBERS), (refused, [], []));
}
