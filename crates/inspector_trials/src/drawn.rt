//! Sheets that were drawn, inspected.

use drawer::draw;
use inspector::{Refusal, inspect};
use sheet::LONGEST;
use view::listed::{Listed, Listing};
use view::square::{Grid, Square};

/// Rows of 512 bits, all set but for the own station.
fn complete_rows() -> [u8; 32_768] {
    std::array::from_fn(|place| {
        let (s, byte) = (place / 64, place % 64);
        if s / 8 == byte {
            255 - (1 << (s % 8))
        } else {
            255
        }
    })
}

/// 512 stations, all linked to all others, and 512 without links: each sheet passes over its own site alone.
#[test]
fn the_most_links_and_none(rt: HostRuntime) {
    let rows = complete_rows();
    let complete = Square::open(Grid {
        stations: 512,
        bytes: &rows,
    });
    let empty = Listed::open(Listing {
        starts: &[0; 513],
        ends: &[],
    });
    let (mut most, mut none) = ([0; LONGEST], [0; LONGEST]);
    assert_eq!(rt; draw(&complete, &mut most), Ok(3_584));
    assert_eq!(rt; draw(&empty, &mut none), Ok(1_538));
    let most = most.get(..3_584).unwrap_or_default();
    let none = none.get(..1_538).unwrap_or_default();
    assert_eq!(rt; inspect(&complete, most), Ok(()));
    assert_eq!(rt; inspect(&empty, none), Ok(()));
    let fault = Err(Refusal::StationAtFault { station: 0 });
    assert_eq!(rt; inspect(&complete, none), fault);
    assert_eq!(rt; inspect(&empty, most), fault);
}
