//! Plans that are claimed for small sites, and the verdicts on them.

use inspector::{Refusal, inspect};
use sheet::{LONGEST, NO_UP, put};
use view::listed::{Listed, Listing};

/// What is claimed of a site: numbers, homes, ups and an order.
type Claim<const N: usize> = [[u16; N]; 4];

/// The verdict on a claim over a table of links.
fn verdict<const N: usize>(listing: Listing<'_, '_>, claim: &Claim<N>) -> Result<(), Refusal> {
    let [numbers, homes, ups, order] = claim;
    let mut buffer = [0; LONGEST];
    let length = put(numbers, homes, ups, order, &mut buffer)?;
    inspect(
        &Listed::open(listing),
        buffer.get(..length).unwrap_or_default(),
    )
}

/// Three stations, all linked.
const TRIANGLE: Listing<'static, 'static> = Listing {
    starts: &[0, 2, 4, 6],
    ends: &[1, 2, 0, 2, 0, 1],
};

/// What is claimed of the three stations, and the verdict.
const OF_THE_TRIANGLE: [(Claim<3>, Result<(), Refusal>); 6] = [
    ([[2; 3], [0; 3], [NO_UP; 3], [0, 1, 2]], Ok(())),
    // another order that is rightful
    ([[2; 3], [0; 3], [NO_UP; 3], [2, 0, 1]], Ok(())),
    // two neighbours come after the first station, and its number is 1
    (
        [[1; 3], [0; 3], [NO_UP; 3], [0, 1, 2]],
        Err(Refusal::StationAtFault { station: 0 }),
    ),
    (
        [[1; 3], [0; 3], [NO_UP; 3], [2, 1, 0]],
        Err(Refusal::StationAtFault { station: 2 }),
    ),
    // a home, and an up, of the lowest station
    (
        [[2; 3], [1; 3], [NO_UP; 3], [0, 1, 2]],
        Err(Refusal::HomeOrUpWrong { station: 0 }),
    ),
    (
        [[2; 3], [0; 3], [1, NO_UP, NO_UP], [0, 1, 2]],
        Err(Refusal::HomeOrUpWrong { station: 0 }),
    ),
];

/// Stations 0 and 1 are linked, and 2 stands alone.
const PAIR_AND_ONE: Listing<'static, 'static> = Listing {
    starts: &[0, 1, 2, 2],
    ends: &[1, 0],
};

const OF_THE_PAIR_AND_ONE: [(Claim<3>, Result<(), Refusal>); 7] = [
    ([[1, 1, 0], [0, 0, 2], [NO_UP; 3], [2, 0, 1]], Ok(())),
    ([[1, 1, 0], [0, 0, 2], [NO_UP; 3], [2, 1, 0]], Ok(())),
    // no neighbour of station 2 carries 1 or more
    (
        [[1, 1, 1], [0, 0, 2], [NO_UP; 3], [2, 0, 1]],
        Err(Refusal::StationAtFault { station: 2 }),
    ),
    // the number of station 1 is not enough for station 0
    (
        [[1, 0, 0], [0, 0, 2], [NO_UP; 3], [2, 1, 0]],
        Err(Refusal::StationAtFault { station: 0 }),
    ),
    // station 2 comes next after 0, and after 1, and carries less
    (
        [[1, 1, 0], [0, 0, 2], [NO_UP; 3], [0, 2, 1]],
        Err(Refusal::StationAtFault { station: 0 }),
    ),
    (
        [[1, 1, 0], [0, 0, 2], [NO_UP; 3], [0, 1, 2]],
        Err(Refusal::StationAtFault { station: 1 }),
    ),
    // a home without a station of its core
    (
        [[1, 1, 0], [0, 0, 0], [NO_UP; 3], [2, 0, 1]],
        Err(Refusal::HomeOrUpWrong { station: 2 }),
    ),
];

/// A group of four, a group of three linked to it, and a last one.
const EIGHT: Listing<'static, 'static> = Listing {
    starts: &[0, 3, 6, 9, 13, 16, 18, 21, 22],
    ends: &[
        1, 2, 3, 0, 2, 3, 0, 1, 3, 0, 1, 2, 4, 3, 5, 6, 4, 6, 4, 5, 7, 6,
    ],
};

const NUMBERS: [u16; 8] = [3, 3, 3, 3, 2, 2, 2, 1];

const HOMES: [u16; 8] = [0, 0, 0, 0, 4, 4, 4, 7];

const UPS: [u16; 8] = [4, NO_UP, NO_UP, NO_UP, 7, NO_UP, NO_UP, NO_UP];

const DRAWN: [u16; 8] = [7, 5, 6, 4, 0, 1, 2, 3];

const OF_THE_EIGHT: [(Claim<8>, Result<(), Refusal>); 11] = [
    ([NUMBERS, HOMES, UPS, DRAWN], Ok(())),
    // other orders that are rightful
    ([NUMBERS, HOMES, UPS, [7, 5, 4, 6, 0, 1, 2, 3]], Ok(())),
    ([NUMBERS, HOMES, UPS, [7, 6, 5, 4, 3, 2, 1, 0]], Ok(())),
    // all three neighbours of 4 come after it
    (
        [NUMBERS, HOMES, UPS, [7, 4, 5, 6, 0, 1, 2, 3]],
        Err(Refusal::StationAtFault { station: 4 }),
    ),
    // the last station comes last but one
    (
        [NUMBERS, HOMES, UPS, [5, 6, 4, 0, 1, 2, 7, 3]],
        Err(Refusal::StationAtFault { station: 2 }),
    ),
    // a number too great, and a home that is wrong
    (
        [
            [3, 3, 3, 3, 2, 2, 2, 2],
            [1, 1, 1, 1, 4, 4, 4, 7],
            [NO_UP, 4, NO_UP, NO_UP, 7, NO_UP, NO_UP, NO_UP],
            DRAWN,
        ],
        Err(Refusal::StationAtFault { station: 7 }),
    ),
    // the home of 6, the up of 0, no up of 4, an up of 7
    (
        [NUMBERS, [0, 0, 0, 0, 4, 4, 5, 7], UPS, DRAWN],
        Err(Refusal::HomeOrUpWrong { station: 6 }),
    ),
    (
        [
            NUMBERS,
            HOMES,
            [7, NO_UP, NO_UP, NO_UP, 7, NO_UP, NO_UP, NO_UP],
            DRAWN,
        ],
        Err(Refusal::HomeOrUpWrong { station: 0 }),
    ),
    (
        [
            NUMBERS,
            HOMES,
            [4, NO_UP, NO_UP, NO_UP, NO_UP, NO_UP, NO_UP, NO_UP],
            DRAWN,
        ],
        Err(Refusal::HomeOrUpWrong { station: 4 }),
    ),
    (
        [
            NUMBERS,
            HOMES,
            [4, NO_UP, NO_UP, NO_UP, 7, NO_UP, NO_UP, 4],
            DRAWN,
        ],
        Err(Refusal::HomeOrUpWrong { station: 7 }),
    ),
    // the home of 5 and the up of 4
    (
        [
            NUMBERS,
            [0, 0, 0, 0, 4, 6, 4, 7],
            [4, NO_UP, NO_UP, NO_UP, 0, NO_UP, NO_UP, NO_UP],
            DRAWN,
        ],
        Err(Refusal::HomeOrUpWrong { station: 4 }),
    ),
];

#[test]
fn claims_are_judged(rt: HostRuntime) {
    for (claim, expected) in &OF_THE_TRIANGLE {
        assert_eq!(rt; verdict(TRIANGLE, claim), *expected);
    }
    for (claim, expected) in &OF_THE_PAIR_AND_ONE {
        assert_eq!(rt; verdict(PAIR_AND_ONE, claim), *expected);
    }
    for (claim, expected) in &OF_THE_EIGHT {
        assert_eq!(rt; verdict(EIGHT, claim), *expected);
    }
}
