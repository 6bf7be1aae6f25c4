//! A site that several tests look at.

use view::listed::Listing;
use view::square::Grid;

/// The site of eight stations: a group of four, a group of three linked to it, and a last one.
pub const EIGHT: Listing<'static, 'static> = Listing {
    starts: &[0, 3, 6, 9, 13, 16, 18, 21, 22],
    ends: &[
        1, 2, 3, 0, 2, 3, 0, 1, 3, 0, 1, 2, 4, 3, 5, 6, 4, 6, 4, 5, 7, 6,
    ],
};

/// The same site as rows of bits.
pub const EIGHT_BITS: Grid<'static> = Grid {
    stations: 8,
    bytes: &[
        0b1110,
        0b1101,
        0b1011,
        0b1_0111,
        0b110_1000,
        0b101_0000,
        0b1011_0000,
        0b100_0000,
    ],
};
