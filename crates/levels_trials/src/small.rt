//! Small sites, level by level.

use crate::sites::{APART, BRIDGE, COMPLETE, EIGHT, EIGHT_AND_A_LINK, FIVE, NONE, ONE};
use rules::levels::tally;
use rules::{Counts, Refusal};
use view::listed::Listed;
use view::service::ServiceList;
use view::struck::Struck;

/// What stands in a list before a call, and stays behind what it writes.
const OLD: Counts = Counts {
    members: 7,
    inside: 77,
    boundary: 777,
};

/// Counts, in the order of a list.
fn counts(list: &[Counts; 6]) -> [(u32, u32, u32); 6] {
    list.map(|level| (level.members, level.inside, level.boundary))
}

#[test]
fn levels_are_counted(rt: HostRuntime) {
    let old = (7, 77, 777);
    let cases = [
        (
            EIGHT,
            4,
            [(8, 11, 0), (8, 11, 0), (7, 10, 1), (4, 6, 1), old, old],
        ),
        (
            EIGHT_AND_A_LINK,
            4,
            [(8, 12, 0), (8, 12, 0), (8, 12, 0), (4, 6, 1), old, old],
        ),
        (
            BRIDGE,
            4,
            [(9, 14, 0), (9, 14, 0), (9, 14, 0), (8, 12, 2), old, old],
        ),
        (
            FIVE,
            4,
            [(5, 7, 0), (5, 7, 0), (4, 6, 1), (4, 6, 1), old, old],
        ),
        (
            COMPLETE,
            5,
            [
                (5, 10, 0),
                (5, 10, 0),
                (5, 10, 0),
                (5, 10, 0),
                (5, 10, 0),
                old,
            ],
        ),
        (APART, 1, [(3, 0, 0), old, old, old, old, old]),
        (ONE, 1, [(1, 0, 0), old, old, old, old, old]),
    ];
    for (listing, levels, wanted) in cases {
        let mut list = [OLD; 6];
        assert_eq!(rt; tally(&Listed::open(listing), &mut list), Ok(levels));
        assert_eq!(rt; counts(&list), wanted);
    }
}

/// Station 7 is struck: it is on the site still, and has the number 0.
#[test]
fn struck_stations_count_at_the_bottom_alone(rt: HostRuntime) {
    let view = Listed::open(EIGHT);
    let mut service = ServiceList::new();
    assert_eq!(rt; service.mark(7), Ok(()));
    let mut list = [OLD; 6];
    assert_eq!(rt; tally(&Struck::new(&view, &service), &mut list), Ok(4));
    assert_eq!(rt;
        counts(&list),
        [
            (8, 10, 0),
            (7, 10, 0),
            (7, 10, 0),
            (4, 6, 1),
            (7, 77, 777),
            (7, 77, 777)
        ]
    );
}

#[test]
fn a_list_of_the_length_needed_is_enough(rt: HostRuntime) {
    let mut list = [OLD; 4];
    assert_eq!(rt; tally(&Listed::open(EIGHT), &mut list), Ok(4));
    assert_eq!(rt;
        list[3],
        Counts {
            members: 4,
            inside: 6,
            boundary: 1
        }
    );
}

#[test]
fn a_short_list_is_left_as_it_was(rt: HostRuntime) {
    let view = Listed::open(EIGHT);
    let mut list = [OLD; 3];
    assert_eq!(rt;
        tally(&view, &mut list),
        Err(Refusal::BufferShort { needed: 4 })
    );
    assert_eq!(rt; list, [OLD; 3]);
    assert_eq!(rt;
        tally(&view, &mut []),
        Err(Refusal::BufferShort { needed: 4 })
    );
}

#[test]
fn no_stations_are_refused_before_all_else(rt: HostRuntime) {
    let view = Listed::open(NONE);
    let mut list = [OLD; 3];
    assert_eq!(rt; tally(&view, &mut list), Err(Refusal::CountOutOfRange));
    assert_eq!(rt; list, [OLD; 3]);
    assert_eq!(rt; tally(&view, &mut []), Err(Refusal::CountOutOfRange));
}
