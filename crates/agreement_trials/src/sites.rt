//! Sites, sheets and lists of calls.

use agreement::Call;
use view::listed::Listing;

/// What stands in a buffer before a run, and stays behind what it writes.
pub(crate) const OLD: u8 = 0xee;

/// A group of four, a group of three linked to it, and a last one.
pub(crate) const EIGHT: Listing<'static, 'static> = Listing {
    starts: &[0, 3, 6, 9, 13, 16, 18, 21, 22],
    ends: &[
        1, 2, 3, 0, 2, 3, 0, 1, 3, 0, 1, 2, 4, 3, 5, 6, 4, 6, 4, 5, 7, 6,
    ],
};

/// The same with the link between 5 and 7 too.
pub(crate) const ONE_LINK_MORE: Listing<'static, 'static> = Listing {
    starts: &[0, 3, 6, 9, 13, 16, 19, 22, 24],
    ends: &[
        1, 2, 3, 0, 2, 3, 0, 1, 3, 0, 1, 2, 4, 3, 5, 6, 4, 6, 7, 4, 5, 7, 5, 6,
    ],
};

/// The eight stations as rows of bits.
pub(crate) const EIGHT_ROWS: [u8; 8] = [0x0e, 0x0d, 0x0b, 0x17, 0x68, 0x50, 0xb0, 0x40];

/// The eight stations as a survey.
pub(crate) const EIGHT_SURVEY: &[u8] =
    b"S 8\nL 0 1 2 3\nL 1 2 3\nL 2 3\nL 3 4\nL 4 5 6\nL 5 6\nL 6 7\n";

/// One station.
pub(crate) const ONE: Listing<'static, 'static> = Listing {
    starts: &[0, 0],
    ends: &[],
};

pub(crate) const EIGHT_SHEET: [u8; 56] = [
    0x08, 0x00, 0x05, 0x03, 0x00, 0x04, 0x00, 0x03, 0x03, 0x00, 0x00, 0x00, 0x03, 0x03, 0x00, 0x00,
    0x00, 0x03, 0x03, 0x00, 0x00, 0x00, 0x05, 0x02, 0x00, 0x07, 0x00, 0x03, 0x02, 0x00, 0x04, 0x00,
    0x03, 0x02, 0x00, 0x04, 0x00, 0x01, 0x01, 0x00, 0x07, 0x00, 0x05, 0x00, 0x06, 0x00, 0x04, 0x00,
    0x00, 0x00, 0x01, 0x00, 0x02, 0x00, 0x03, 0x00,
];

pub(crate) const ONE_SHEET: [u8; 5] = [0x01, 0x00, 0x00, 0x00, 0x00];

/// The eight stations link by link, with calls between that are refused and a link that is taken away again.
pub(crate) const EIGHT_CALLS: [Call<'static>; 20] = [
    Call::Link { a: 0, b: 1 },
    Call::LayOut { stations: 0 },
    Call::LayOut { stations: 8 },
    Call::Link { a: 0, b: 1 },
    Call::Link { a: 1, b: 0 },
    Call::Link { a: 2, b: 0 },
    Call::Link { a: 0, b: 3 },
    Call::Link { a: 3, b: 3 },
    Call::Link { a: 1, b: 2 },
    Call::Link { a: 3, b: 1 },
    Call::Link { a: 2, b: 3 },
    Call::Link { a: 2, b: 8 },
    Call::Link { a: 3, b: 4 },
    Call::Link { a: 5, b: 7 },
    Call::Link { a: 4, b: 5 },
    Call::Link { a: 6, b: 4 },
    Call::Link { a: 5, b: 6 },
    Call::Link { a: 6, b: 7 },
    Call::Unlink { a: 7, b: 5 },
    Call::Unlink { a: 7, b: 5 },
];
