//! Small sites, drawn.

use drawer::{Refusal, Removal, draw, numbers, removals};
use view::listed::{Listed, Listing};

/// What stands in a table or a buffer before a call, and stays behind what it writes.
const OLD: u16 = 7_777;

pub(crate) const OLD_BYTE: u8 = 0xee;

/// A group of four, a group of three linked to it, and a last one.
pub(crate) const EIGHT: Listing<'static, 'static> = Listing {
    starts: &[0, 3, 6, 9, 13, 16, 18, 21, 22],
    ends: &[
        1, 2, 3, 0, 2, 3, 0, 1, 3, 0, 1, 2, 4, 3, 5, 6, 4, 6, 4, 5, 7, 6,
    ],
};

/// The same with a link between 5 and 7.
const EIGHT_AND_A_LINK: Listing<'static, 'static> = Listing {
    starts: &[0, 3, 6, 9, 13, 16, 19, 22, 24],
    ends: &[
        1, 2, 3, 0, 2, 3, 0, 1, 3, 0, 1, 2, 4, 3, 5, 6, 4, 6, 7, 4, 5, 7, 5, 6,
    ],
};

/// Two groups of four, and a station linked to 3 and to 4.
const BRIDGE: Listing<'static, 'static> = Listing {
    starts: &[0, 3, 6, 9, 13, 17, 20, 23, 26, 28],
    ends: &[
        1, 2, 3, 0, 2, 3, 0, 1, 3, 0, 1, 2, 8, 5, 6, 7, 8, 4, 6, 7, 4, 5, 7, 4, 5, 6, 3, 4,
    ],
};

/// One station.
const ONE: Listing<'static, 'static> = Listing {
    starts: &[0, 0],
    ends: &[],
};

/// A table that the check turns down, so it means no stations.
const NONE: Listing<'static, 'static> = Listing {
    starts: &[],
    ends: &[],
};

/// The sheet of the eight stations.
pub(crate) const EIGHT_SHEET: &[u8] = &[
    0x08, 0x00, 0x05, 0x03, 0x00, 0x04, 0x00, 0x03, 0x03, 0x00, 0x00, 0x00, 0x03, 0x03, 0x00, 0x00,
    0x00, 0x03, 0x03, 0x00, 0x00, 0x00, 0x05, 0x02, 0x00, 0x07, 0x00, 0x03, 0x02, 0x00, 0x04, 0x00,
    0x03, 0x02, 0x00, 0x04, 0x00, 0x01, 0x01, 0x00, 0x07, 0x00, 0x05, 0x00, 0x06, 0x00, 0x04, 0x00,
    0x00, 0x00, 0x01, 0x00, 0x02, 0x00, 0x03, 0x00,
];

const EIGHT_AND_A_LINK_SHEET: &[u8] = &[
    0x08, 0x00, 0x05, 0x03, 0x00, 0x04, 0x00, 0x03, 0x03, 0x00, 0x00, 0x00, 0x03, 0x03, 0x00, 0x00,
    0x00, 0x03, 0x03, 0x00, 0x00, 0x00, 0x01, 0x02, 0x00, 0x03, 0x02, 0x00, 0x04, 0x00, 0x03, 0x02,
    0x00, 0x04, 0x00, 0x03, 0x02, 0x00, 0x04, 0x00, 0x07, 0x00, 0x05, 0x00, 0x06, 0x00, 0x04, 0x00,
    0x00, 0x00, 0x01, 0x00, 0x02, 0x00, 0x03, 0x00,
];

const BRIDGE_SHEET: &[u8] = &[
    0x09, 0x00, 0x05, 0x03, 0x00, 0x08, 0x00, 0x03, 0x03, 0x00, 0x00, 0x00, 0x03, 0x03, 0x00, 0x00,
    0x00, 0x03, 0x03, 0x00, 0x00, 0x00, 0x05, 0x03, 0x00, 0x08, 0x00, 0x03, 0x03, 0x00, 0x04, 0x00,
    0x03, 0x03, 0x00, 0x04, 0x00, 0x03, 0x03, 0x00, 0x04, 0x00, 0x01, 0x02, 0x00, 0x08, 0x00, 0x00,
    0x00, 0x01, 0x00, 0x02, 0x00, 0x03, 0x00, 0x04, 0x00, 0x05, 0x00, 0x06, 0x00, 0x07, 0x00,
];

const ONE_SHEET: &[u8] = &[0x01, 0x00, 0x00, 0x00, 0x00];

#[test]
fn sheets_are_drawn(rt: HostRuntime) {
    let cases = [
        (EIGHT, EIGHT_SHEET),
        (EIGHT_AND_A_LINK, EIGHT_AND_A_LINK_SHEET),
        (BRIDGE, BRIDGE_SHEET),
        (ONE, ONE_SHEET),
    ];
    for (listing, sheet) in cases {
        let view = Listed::open(listing);
        let mut out = [OLD_BYTE; 64];
        assert_eq!(rt; draw(&view, &mut out), Ok(sheet.len()));
        assert!(rt; out.starts_with(sheet));
        assert!(rt; out[sheet.len()..].iter().all(|byte| *byte == OLD_BYTE));
    }
}

#[test]
fn a_short_buffer_is_left_as_it_was(rt: HostRuntime) {
    let view = Listed::open(EIGHT);
    let mut out = [OLD_BYTE; 55];
    assert_eq!(rt;
        draw(&view, &mut out),
        Err(Refusal::BufferShort { needed: 56 })
    );
    assert_eq!(rt; out, [OLD_BYTE; 55]);
    let mut table = [OLD; 7];
    assert_eq!(rt;
        numbers(&view, &mut table),
        Err(Refusal::BufferShort { needed: 8 })
    );
    assert_eq!(rt; table, [OLD; 7]);
    let mut noted = [Removal::default(); 7];
    assert_eq!(rt;
        removals(&view, &mut noted),
        Err(Refusal::BufferShort { needed: 8 })
    );
    assert_eq!(rt; noted, [Removal::default(); 7]);
}

#[test]
fn no_stations_are_refused_before_all_else(rt: HostRuntime) {
    let view = Listed::open(NONE);
    assert_eq!(rt; draw(&view, &mut []), Err(Refusal::CountOutOfRange));
    assert_eq!(rt; numbers(&view, &mut []), Err(Refusal::CountOutOfRange));
    assert_eq!(rt; removals(&view, &mut []), Err(Refusal::CountOutOfRange));
}

#[test]
fn numbers_and_removals(rt: HostRuntime) {
    let view = Listed::open(EIGHT);
    let mut table = [OLD; 9];
    assert_eq!(rt; numbers(&view, &mut table), Ok(8));
    assert_eq!(rt; table, [3, 3, 3, 3, 2, 2, 2, 1, OLD]);
    let mut noted = [Removal::default(); 9];
    assert_eq!(rt; removals(&view, &mut noted), Ok(8));
    let wanted = [
        (7, 1),
        (5, 2),
        (6, 1),
        (4, 1),
        (0, 3),
        (1, 2),
        (2, 1),
        (3, 0),
        (0, 0),
    ];
    for (removal, (station, left)) in noted.iter().zip(wanted) {
        assert_eq!(rt; *removal, Removal { station, left });
    }
}
