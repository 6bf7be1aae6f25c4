//! Bytes that are no sheet for the view they are offered over.

use inspector::{Refusal, inspect};
use view::listed::{Listed, Listing};
use view::service::ServiceList;
use view::square::{Grid, Square};
use view::struck::Struck;

/// Station 0 is linked to 1, and 1 to 2.
const PATH: Listing<'static, 'static> = Listing {
    starts: &[0, 1, 3, 4],
    ends: &[1, 0, 2, 1],
};

/// The sheet of the path, with the order 0 1 2.
const SHEET: &[u8] = &[
    3, 0, 1, 1, 0, 3, 1, 0, 0, 0, 3, 1, 0, 0, 0, 0, 0, 1, 0, 2, 0,
];

/// The sheet of three stations without links.
const LINKLESS: &[u8] = &[3, 0, 0, 0, 0, 0, 0, 1, 0, 2, 0];

/// The sheet of the path without the links of station 2.
const WITHOUT_2: &[u8] = &[3, 0, 1, 1, 0, 3, 1, 0, 0, 0, 0, 2, 0, 0, 0, 1, 0];

/// The sheets of one station, and of two that are linked.
const ONE: &[u8] = &[1, 0, 0, 0, 0];

const TWO: &[u8] = &[2, 0, 1, 1, 0, 3, 1, 0, 0, 0, 0, 0, 1, 0];

#[test]
fn over_a_listed_view(rt: HostRuntime) {
    let view = Listed::open(PATH);
    let cases = [
        (SHEET, Ok(())),
        // no bytes, bytes that are cut, and one too many
        (&SHEET[..0], Err(Refusal::NotASheet { place: 0 })),
        (&SHEET[..20], Err(Refusal::NotASheet { place: 20 })),
        (
            &[
                3, 0, 1, 1, 0, 3, 1, 0, 0, 0, 3, 1, 0, 0, 0, 0, 0, 1, 0, 2, 0, 0,
            ],
            Err(Refusal::NotASheet { place: 21 }),
        ),
        // the own home of station 1, and a station that the order names twice
        (
            &[
                3, 0, 1, 1, 0, 3, 1, 0, 1, 0, 3, 1, 0, 0, 0, 0, 0, 1, 0, 2, 0,
            ],
            Err(Refusal::NotASheet { place: 8 }),
        ),
        (
            &[
                3, 0, 1, 1, 0, 3, 1, 0, 0, 0, 3, 1, 0, 0, 0, 0, 0, 1, 0, 1, 0,
            ],
            Err(Refusal::NotASheet { place: 19 }),
        ),
        // sheets of other counts
        (ONE, Err(Refusal::CountsDiffer)),
        (TWO, Err(Refusal::CountsDiffer)),
        // bytes that are no sheet of another count
        (&TWO[..13], Err(Refusal::NotASheet { place: 13 })),
        (LINKLESS, Err(Refusal::StationAtFault { station: 0 })),
    ];
    for (sheet, expected) in cases {
        assert_eq!(rt; inspect(&view, sheet), expected);
    }
}

/// The same links as rows of bits.
#[test]
fn over_a_square_view(rt: HostRuntime) {
    let view = Square::open(Grid {
        stations: 3,
        bytes: &[0b010, 0b101, 0b010],
    });
    assert_eq!(rt; inspect(&view, SHEET), Ok(()));
    assert_eq!(rt;
        inspect(&view, LINKLESS),
        Err(Refusal::StationAtFault { station: 0 })
    );
}

/// A sheet is for the links that are left.
#[test]
fn over_a_struck_view(rt: HostRuntime) {
    let mut list = ServiceList::new();
    assert_eq!(rt; list.mark(2), Ok(()));
    let view = Struck::new(Listed::open(PATH), &list);
    assert_eq!(rt; inspect(&view, WITHOUT_2), Ok(()));
    assert_eq!(rt;
        inspect(&view, SHEET),
        Err(Refusal::StationAtFault { station: 2 })
    );
    assert_eq!(rt;
        inspect(&Listed::open(PATH), WITHOUT_2),
        Err(Refusal::StationAtFault { station: 2 })
    );
}

/// A view without stations is refused before the bytes are looked at.
#[test]
fn over_no_stations(rt: HostRuntime) {
    let view = Listed::open(Listing {
        starts: &[],
        ends: &[],
    });
    assert_eq!(rt; inspect(&view, &[]), Err(Refusal::CountOutOfRange));
    assert_eq!(rt; inspect(&view, SHEET), Err(Refusal::CountOutOfRange));
}
