//! Offers that are refused.

use crate::sites::{EIGHT, EIGHT_SHEET, NONE, ONE, ONE_SHEET};
use cards::{Offered, Refusal};
use view::listed::{Listed, Listing};

/// The refusal of bytes that are offered over a table of links, if they are refused.
fn refusal(listing: Listing<'_, '_>, bytes: &[u8]) -> Option<Refusal> {
    Offered::new(bytes).pass(&Listed::open(listing)).err()
}

#[test]
fn offers_are_judged(rt: HostRuntime) {
    let cases = [
        (EIGHT, EIGHT_SHEET, None),
        (ONE, ONE_SHEET, None),
        // the view is judged before the bytes
        (NONE, EIGHT_SHEET, Some(Refusal::CountOutOfRange)),
        (
            EIGHT,
            &EIGHT_SHEET[..55],
            Some(Refusal::NotASheet { place: 55 }),
        ),
        (EIGHT, ONE_SHEET, Some(Refusal::CountsDiffer)),
        (ONE, EIGHT_SHEET, Some(Refusal::CountsDiffer)),
    ];
    for (listing, bytes, expected) in cases {
        assert_eq!(rt; refusal(listing, bytes), expected);
    }
}

/// The number of the first station, and then the home of the second, are turned to others.
#[test]
fn changed_sheets(rt: HostRuntime) {
    let mut bytes = [0; 56];
    bytes.copy_from_slice(EIGHT_SHEET);
    bytes[3] = 4;
    assert_eq!(rt;
        refusal(EIGHT, &bytes),
        Some(Refusal::StationAtFault { station: 0 })
    );
    bytes[3] = 3;
    bytes[10] = 2;
    assert_eq!(rt;
        refusal(EIGHT, &bytes),
        Some(Refusal::HomeOrUpWrong { station: 1 })
    );
    bytes[10] = 0;
    assert_eq!(rt; refusal(EIGHT, &bytes), None);
}

/// An offer is spent by passing, and its bytes pass again.
#[test]
fn offered_again(rt: HostRuntime) {
    assert_eq!(rt; refusal(EIGHT, EIGHT_SHEET), None);
    assert_eq!(rt; refusal(EIGHT, EIGHT_SHEET), None);
    assert_eq!(rt; refusal(EIGHT, ONE_SHEET), Some(Refusal::CountsDiffer));
    assert_eq!(rt; refusal(ONE, ONE_SHEET), None);
}
