//! Sites of 512 stations, drawn.

use drawer::{Removal, draw, numbers, removals};
use sheet::{LONGEST, NO_UP, read};
use view::listed::{Listed, Listing};

/// Where the neighbours of each station start, if all are linked to all others.
fn complete_starts() -> [u32; 513] {
    std::array::from_fn(|s| (s * 511) as u32)
}

/// The neighbours of all stations, if all are linked to all others.
fn complete_ends() -> [u16; 261_632] {
    std::array::from_fn(|place| {
        let (s, t) = (place / 511, place % 511);
        (if t < s { t } else { t + 1 }) as u16
    })
}

/// All stations linked to all others: all have the number 511 and the home 0, and they are removed from 0 upwards.
#[test]
fn complete(rt: HostRuntime) {
    let starts = complete_starts();
    let ends = complete_ends();
    let view = Listed::open(Listing {
        starts: &starts,
        ends: &ends,
    });
    let mut table = [0; 512];
    assert_eq!(rt; numbers(&view, &mut table), Ok(512));
    assert_eq!(rt; table, [511; 512]);
    let mut noted = [Removal::default(); 512];
    assert_eq!(rt; removals(&view, &mut noted), Ok(512));
    assert!(rt;
        noted
            .iter()
            .zip(0..512)
            .all(|(r, station)| r.station == station)
    );
    assert!(rt;
        noted
            .iter()
            .zip((0..512).rev())
            .all(|(r, left)| r.left == left)
    );
    let mut sheet = [7; LONGEST];
    assert_eq!(rt; draw(&view, &mut sheet), Ok(3_584));
    assert!(rt; sheet.starts_with(&[0, 2, 1, 255, 1, 3, 255, 1, 0, 0, 3, 255, 1, 0, 0]));
    assert_eq!(rt;
        (sheet[3_581], sheet[3_582], sheet[3_583], sheet[3_584]),
        (1, 255, 1, 7)
    );
}

/// A sheet that was drawn is read back, station by station.
#[test]
fn complete_and_read(rt: HostRuntime) {
    let starts = complete_starts();
    let ends = complete_ends();
    let view = Listed::open(Listing {
        starts: &starts,
        ends: &ends,
    });
    let mut sheet = [7; LONGEST];
    assert_eq!(rt; draw(&view, &mut sheet), Ok(3_584));
    let (mut numbers, mut homes) = ([7; 512], [7; 512]);
    let (mut ups, mut order) = ([7; 512], [7; 512]);
    let bytes = sheet.get(..3_584).unwrap_or_default();
    assert_eq!(rt;
        read(bytes, &mut numbers, &mut homes, &mut ups, &mut order),
        Ok(512)
    );
    assert_eq!(rt; numbers, [511; 512]);
    assert_eq!(rt; homes, [0; 512]);
    assert_eq!(rt; ups, [NO_UP; 512]);
    assert!(rt; order.iter().zip(0..512).all(|(s, place)| *s == place));
}

/// No links at all: all have the number 0 and are their own homes, and they are removed from 0 upwards.
#[test]
fn empty(rt: HostRuntime) {
    let view = Listed::open(Listing {
        starts: &[0; 513],
        ends: &[],
    });
    let mut table = [1; 512];
    assert_eq!(rt; numbers(&view, &mut table), Ok(512));
    assert_eq!(rt; table, [0; 512]);
    let mut sheet = [7; LONGEST];
    assert_eq!(rt; draw(&view, &mut sheet), Ok(1_538));
    assert!(rt; sheet.starts_with(&[0, 2, 0, 0, 0]));
    assert!(rt; sheet[2..514].iter().all(|map| *map == 0));
    assert_eq!(rt;
        (sheet[1_535], sheet[1_536], sheet[1_537], sheet[1_538]),
        (1, 255, 1, 7)
    );
}
