//! Cards that are issued, and buffers that are too short for them.

use crate::sites::{EIGHT, EIGHT_CARDS, EIGHT_REORDERED, EIGHT_SHEET, OLD, ONE, ONE_SHEET};
use cards::{Offered, Refusal};
use view::listed::{Listed, Listing};

/// What comes of offering bytes over a table of links, and issuing the cards into a buffer.
fn issue(listing: Listing<'_, '_>, bytes: &[u8], out: &mut [u8]) -> Result<usize, Refusal> {
    Offered::new(bytes).pass(&Listed::open(listing))?.issue(out)
}

#[test]
fn eight_stations(rt: HostRuntime) {
    let mut out = [OLD; 20];
    assert_eq!(rt; issue(EIGHT, EIGHT_SHEET, &mut out), Ok(16));
    assert!(rt; out.starts_with(&EIGHT_CARDS));
    assert!(rt; out.ends_with(&[OLD; 4]));
}

/// Another sheet of the same site gives the same cards.
#[test]
fn another_order(rt: HostRuntime) {
    let mut out = [OLD; 16];
    assert_eq!(rt; issue(EIGHT, EIGHT_REORDERED, &mut out), Ok(16));
    assert_eq!(rt; out, EIGHT_CARDS);
}

#[test]
fn one_station(rt: HostRuntime) {
    let mut out = [OLD; 3];
    assert_eq!(rt; issue(ONE, ONE_SHEET, &mut out), Ok(2));
    assert_eq!(rt; out, [0xff, 0xff, OLD]);
}

/// A buffer one byte short is left alone, and the sheet is spent; its bytes may be offered anew.
#[test]
fn a_short_buffer(rt: HostRuntime) {
    let mut short = [OLD; 15];
    assert_eq!(rt;
        issue(EIGHT, EIGHT_SHEET, &mut short),
        Err(Refusal::BufferShort { needed: 16 })
    );
    assert_eq!(rt; short, [OLD; 15]);
    let mut out = [OLD; 16];
    assert_eq!(rt; issue(EIGHT, EIGHT_SHEET, &mut out), Ok(16));
    assert_eq!(rt; out, EIGHT_CARDS);
    assert_eq!(rt;
        issue(ONE, ONE_SHEET, &mut []),
        Err(Refusal::BufferShort { needed: 2 })
    );
}
