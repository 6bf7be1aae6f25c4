//! The sites of the tests.

use view::listed::Listing;

/// A group of four, a group of three linked to it, and a last one.
pub(crate) const EIGHT: Listing<'static, 'static> = Listing {
    starts: &[0, 3, 6, 9, 13, 16, 18, 21, 22],
    ends: &[
        1, 2, 3, 0, 2, 3, 0, 1, 3, 0, 1, 2, 4, 3, 5, 6, 4, 6, 4, 5, 7, 6,
    ],
};

/// A group of four with one more station, so that no station has the number 2.
pub(crate) const FIVE: Listing<'static, 'static> = Listing {
    starts: &[0, 4, 7, 10, 13, 14],
    ends: &[1, 2, 3, 4, 0, 2, 3, 0, 1, 3, 0, 1, 2, 0],
};

/// Five stations, all linked to all others.
pub(crate) const COMPLETE: Listing<'static, 'static> = Listing {
    starts: &[0, 4, 8, 12, 16, 20],
    ends: &[1, 2, 3, 4, 0, 2, 3, 4, 0, 1, 3, 4, 0, 1, 2, 4, 0, 1, 2, 3],
};

/// Three stations without links.
pub(crate) const APART: Listing<'static, 'static> = Listing {
    starts: &[0, 0, 0, 0],
    ends: &[],
};

/// The eight stations with a link between 5 and 7.
pub(crate) const EIGHT_AND_A_LINK: Listing<'static, 'static> = Listing {
    starts: &[0, 3, 6, 9, 13, 16, 19, 22, 24],
    ends: &[
        1, 2, 3, 0, 2, 3, 0, 1, 3, 0, 1, 2, 4, 3, 5, 6, 4, 6, 7, 4, 5, 7, 5, 6,
    ],
};

/// The eight stations without the link between 0 and 1.
pub(crate) const EIGHT_LESS_A_LINK: Listing<'static, 'static> = Listing {
    starts: &[0, 2, 4, 7, 11, 14, 16, 19, 20],
    ends: &[2, 3, 2, 3, 0, 1, 3, 0, 1, 2, 4, 3, 5, 6, 4, 6, 4, 5, 7, 6],
};

/// Two groups of four, and a station linked to 3 and to 4.
pub(crate) const BRIDGE: Listing<'static, 'static> = Listing {
    starts: &[0, 3, 6, 9, 13, 17, 20, 23, 26, 28],
    ends: &[
        1, 2, 3, 0, 2, 3, 0, 1, 3, 0, 1, 2, 8, 5, 6, 7, 8, 4, 6, 7, 4, 5, 7, 4, 5, 6, 3, 4,
    ],
};

/// One station.
pub(crate) const ONE: Listing<'static, 'static> = Listing {
    starts: &[0, 0],
    ends: &[],
};

/// A table that the check turns down, so it means no stations.
pub(crate) const NONE: Listing<'static, 'static> = Listing {
    starts: &[],
    ends: &[],
};
