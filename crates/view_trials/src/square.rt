//! Rows of bits, judged and opened.

use crate::sites::EIGHT_BITS;
use view::links::count_links;
use view::square::{Grid, Square};
use view::{Refusal, View};

const SHAPE: Option<usize> = Some(65_535);

/// The station count and the bytes of a grid, and the place of its refusal, if it is refused.
type Case = (usize, &'static [u8], Option<usize>);

const CASES: &[Case] = &[
    // one station, two that are linked, and nine without a link
    (1, &[0], None),
    (2, &[0b10, 0b01], None),
    (9, &[0; 18], None),
    // no stations, and a byte too few or too many
    (0, &[], SHAPE),
    (1, &[], SHAPE),
    (1, &[0, 0], SHAPE),
    (9, &[0; 9], SHAPE),
    (usize::MAX, &[], SHAPE),
    // a row has its own bit set
    (1, &[1], Some(0)),
    (2, &[0b10, 0b11], Some(1)),
    // a row has the bit set of a station that does not have its bit in return
    (2, &[0b10, 0], Some(0)),
    (3, &[0b110, 0b001, 0], Some(0)),
    (3, &[0b010, 0b001, 0b010], Some(2)),
    // spare bits, the lowest and the highest
    (2, &[0b10, 0b101], Some(1)),
    (2, &[0b1000_0010, 0b1], Some(0)),
    (
        9,
        &[0, 0, 0, 0, 0, 0, 0, 0b10, 0, 0, 0, 0, 0, 0, 0, 0, 0, 0],
        Some(3),
    ),
    // the highest bit first
    (2, &[0b0100_0000, 0b1000_0000], Some(0)),
    // of two bad rows the lower is named
    (2, &[1, 0b11], Some(0)),
];

/// The place of a grid's refusal, if it is refused.
fn refused(grid: Grid) -> Option<usize> {
    grid.check().err().map(|r| r.place())
}

#[test]
fn grids_are_judged(rt: HostRuntime) {
    for (stations, bytes, place) in CASES {
        let grid = Grid {
            stations: *stations,
            bytes,
        };
        assert_eq!(rt; refused(grid), *place);
    }
    assert_eq!(rt; refused(EIGHT_BITS), None);
    let bytes = &[0; 32_768];
    let stations = 512;
    assert_eq!(rt; refused(Grid { stations, bytes }), None);
    let bytes = &[0; 33_345];
    let stations = 513;
    assert_eq!(rt; refused(Grid { stations, bytes }), SHAPE);
}

#[test]
fn an_opened_grid_answers(rt: HostRuntime) {
    let view = Square::open(EIGHT_BITS);
    assert_eq!(rt; view.stations(), 8);
    let degrees: [(usize, usize); 5] = [(0, 3), (3, 4), (7, 1), (8, 0), (usize::MAX, 0)];
    for (s, degree) in degrees {
        assert_eq!(rt; view.degree(s), degree);
    }
    let neighbours: [(usize, usize, Option<usize>); 6] = [
        (3, 0, Some(0)),
        (3, 3, Some(4)),
        (3, 4, None),
        (6, 2, Some(7)),
        (7, 0, Some(6)),
        (8, 0, None),
    ];
    for (s, place, neighbour) in neighbours {
        assert_eq!(rt; view.neighbour(s, place), neighbour);
    }
    assert!(rt; view.neighbours(4).eq([3, 5, 6]));
    assert_eq!(rt; count_links(&view), Ok(11));
}

#[test]
fn a_row_of_two_bytes_is_walked(rt: HostRuntime) {
    // nine stations, of which 0, 3 and 7 are linked with 8
    let view = Square::open(Grid {
        stations: 9,
        bytes: &[
            0,
            1,
            0,
            0,
            0,
            0,
            0,
            1,
            0,
            0,
            0,
            0,
            0,
            0,
            0,
            1,
            0b1000_1001,
            0,
        ],
    });
    assert_eq!(rt; view.stations(), 9);
    assert!(rt; view.neighbours(0).eq([8]));
    assert!(rt; view.neighbours(1).eq([]));
    assert!(rt; view.neighbours(8).eq([0, 3, 7]));
    assert_eq!(rt; view.neighbour(8, 3), None);
    assert_eq!(rt; count_links(&view), Ok(3));
}

/// 75 stations in rows of a word and two bytes more, of which 1, 63, 64 and 74 are linked with 0.
#[test]
fn a_row_of_more_than_a_word_is_walked(rt: HostRuntime) {
    let mut bytes = [0; 750];
    bytes[0] = 0b10;
    bytes[7] = 0b1000_0000;
    bytes[8] = 1;
    bytes[9] = 0b100;
    bytes[10] = 1;
    bytes[630] = 1;
    bytes[640] = 1;
    bytes[740] = 1;
    let view = Square::open(Grid {
        stations: 75,
        bytes: &bytes,
    });
    assert_eq!(rt; (view.stations(), view.degree(0)), (75, 4));
    assert!(rt; view.neighbours(0).eq([1, 63, 64, 74]));
    assert!(rt; view.neighbours(74).eq([0]));
    assert_eq!(rt; count_links(&view), Ok(4));
}

#[test]
fn a_refused_grid_opens_without_stations(rt: HostRuntime) {
    let view = Square::open(Grid {
        stations: 2,
        bytes: &[0b10, 0b11],
    });
    assert_eq!(rt; view.stations(), 0);
    assert_eq!(rt; view.degree(0), 0);
    assert_eq!(rt; view.neighbour(0, 0), None);
    assert_eq!(rt; count_links(&view), Err(Refusal::CountOutOfRange));
}

/// 512 stations in rows of 64 bytes, of which the first and the last are linked.
#[test]
fn the_widest_rows(rt: HostRuntime) {
    let mut bytes = [0; 32_768];
    bytes[63] = 0b1000_0000;
    bytes[32_704] = 1;
    let grid = Grid {
        stations: 512,
        bytes: &bytes,
    };
    assert_eq!(rt; grid.check(), Ok(()));
    let view = Square::open(grid);
    assert_eq!(rt; (view.degree(0), view.neighbour(0, 0)), (1, Some(511)));
    assert_eq!(rt; (view.degree(511), view.neighbour(511, 0)), (1, Some(0)));
    assert_eq!(rt; view.degree(255), 0);
}
