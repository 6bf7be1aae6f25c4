//! Tables of links, judged and opened.

use crate::sites::EIGHT;
use view::links::count_links;
use view::listed::{Extent, Listed, Listing};
use view::{Refusal, View};

const SHAPE: Option<usize> = Some(65_535);

/// The starts and the ends of a table, and the place of its refusal, if it is refused.
type Case = (&'static [u32], &'static [u16], Option<usize>);

const CASES: &[Case] = &[
    // one station, and two that are linked
    (&[0, 0], &[], None),
    (&[0, 1, 2], &[1, 0], None),
    // no starts, and no stations
    (&[], &[], SHAPE),
    (&[0], &[], SHAPE),
    // the first start is not 0
    (&[1, 1, 2], &[1, 0], SHAPE),
    // a start falls
    (&[0, 2, 1, 2], &[1, 0], SHAPE),
    // the last start is below the length, and past it
    (&[0, 1, 1], &[1, 0], SHAPE),
    (&[0, 1, 3], &[1, 0], SHAPE),
    // a row lists its own station
    (&[0, 1], &[0], Some(0)),
    // a row lists a station off the site
    (&[0, 1, 3], &[1, 0, 2], Some(1)),
    // a row repeats an entry, and a row falls
    (&[0, 2, 3], &[1, 1, 0], Some(0)),
    (&[0, 1, 2, 4], &[2, 2, 1, 0], Some(2)),
    // a row lists a station that does not list it in return
    (&[0, 0, 1], &[0], Some(1)),
    // of two bad rows the lower is named
    (&[0, 1, 1, 2], &[1, 1], Some(0)),
];

/// The place of a table's refusal, if it is refused.
fn refused(listing: Listing) -> Option<usize> {
    listing.check().err().map(|r| r.place())
}

#[test]
fn tables_are_judged(rt: HostRuntime) {
    for (starts, ends, place) in CASES {
        assert_eq!(rt; refused(Listing { starts, ends }), *place);
    }
    assert_eq!(rt; refused(EIGHT), None);
    let ends = &[];
    let starts = &[0; 513];
    assert_eq!(rt;
        refused(Listing { starts, ends }),
        None,
        "512 stations without a link"
    );
    let starts = &[0; 514];
    assert_eq!(rt; refused(Listing { starts, ends }), SHAPE, "513 stations");
}

#[test]
fn an_opened_table_answers(rt: HostRuntime) {
    let view = Listed::open(EIGHT);
    assert_eq!(rt; view.stations(), 8);
    let degrees: [(usize, usize); 5] = [(0, 3), (3, 4), (7, 1), (8, 0), (usize::MAX, 0)];
    for (s, degree) in degrees {
        assert_eq!(rt; view.degree(s), degree);
    }
    let neighbours: [(usize, usize, Option<usize>); 5] = [
        (3, 0, Some(0)),
        (3, 3, Some(4)),
        (3, 4, None),
        (7, 0, Some(6)),
        (8, 0, None),
    ];
    for (s, place, neighbour) in neighbours {
        assert_eq!(rt; view.neighbour(s, place), neighbour);
    }
    assert!(rt; view.neighbours(3).eq([0, 1, 2, 4]));
    assert!(rt; (&view).neighbours(8).eq([]));
    assert_eq!(rt; count_links(&&view), Ok(11));
}

#[test]
fn a_lawful_table_is_measured(rt: HostRuntime) {
    let extent = Extent {
        stations: 8,
        links: 11,
    };
    assert_eq!(rt; EIGHT.measure(), Ok(extent));
}

#[test]
fn a_refused_table_opens_without_stations(rt: HostRuntime) {
    let view = Listed::open(Listing {
        starts: &[0, 1],
        ends: &[0],
    });
    assert_eq!(rt; view.stations(), 0);
    assert_eq!(rt; view.degree(0), 0);
    assert_eq!(rt; count_links(&view), Err(Refusal::CountOutOfRange));
}
