//! Sheets that are read and put back.

use sheet::{put, read};

const NO_UP: u16 = 65_535;

/// What stands in a table before a sheet is read into it, and stays behind what is read.
const OLD: u16 = 7_777;

/// The sheet of the eight-station site.
const EIGHT: [u8; 56] = [
    0x08, 0x00, 0x05, 0x03, 0x00, 0x04, 0x00, 0x03, 0x03, 0x00, 0x00, 0x00, 0x03, 0x03, 0x00, 0x00,
    0x00, 0x03, 0x03, 0x00, 0x00, 0x00, 0x05, 0x02, 0x00, 0x07, 0x00, 0x03, 0x02, 0x00, 0x04, 0x00,
    0x03, 0x02, 0x00, 0x04, 0x00, 0x01, 0x01, 0x00, 0x07, 0x00, 0x05, 0x00, 0x06, 0x00, 0x04, 0x00,
    0x00, 0x00, 0x01, 0x00, 0x02, 0x00, 0x03, 0x00,
];

#[test]
fn the_eight_stations(rt: HostRuntime) {
    let (mut numbers, mut homes) = ([OLD; 9], [OLD; 9]);
    let (mut ups, mut order) = ([OLD; 9], [OLD; 9]);
    let count = read(&EIGHT, &mut numbers, &mut homes, &mut ups, &mut order);
    assert_eq!(rt; count, Ok(8));
    assert_eq!(rt; numbers, [3, 3, 3, 3, 2, 2, 2, 1, OLD]);
    assert_eq!(rt; homes, [0, 0, 0, 0, 4, 4, 4, 7, OLD]);
    assert_eq!(rt; ups, [4, NO_UP, NO_UP, NO_UP, 7, NO_UP, NO_UP, NO_UP, OLD]);
    assert_eq!(rt; order, [7, 5, 6, 4, 0, 1, 2, 3, OLD]);

    let mut out = [0xee; 57];
    let length = put(&numbers[..8], &homes[..8], &ups[..8], &order[..8], &mut out);
    assert_eq!(rt; length, Ok(56));
    assert!(rt; out.starts_with(&EIGHT));
    assert!(rt; out.ends_with(&[0x03, 0x00, 0xee]));
}

#[test]
fn one_station(rt: HostRuntime) {
    let sheet = [0x01, 0x00, 0x00, 0x00, 0x00];
    let (mut number, mut home, mut up, mut order) = ([OLD], [OLD], [OLD], [OLD]);
    assert_eq!(rt;
        read(&sheet, &mut number, &mut home, &mut up, &mut order),
        Ok(1)
    );
    assert_eq!(rt; (number, home, up, order), ([0], [0], [NO_UP], [0]));

    let mut out = [0xee; 5];
    assert_eq!(rt; put(&number, &home, &up, &order, &mut out), Ok(5));
    assert_eq!(rt; out, sheet);
}

/// The longest sheet: each station has a number and an up, and is its own home. The order goes downwards.
#[test]
fn the_longest_sheet(rt: HostRuntime) {
    let numbers = [1; 512];
    let ups = [0; 512];
    let mut homes = [0; 512];
    let mut order = [0; 512];
    for s in 0..512u16 {
        homes[usize::from(s)] = s;
        order[usize::from(511 - s)] = s;
    }
    let mut out = [0xee; 3_586];
    assert_eq!(rt; put(&numbers, &homes, &ups, &order, &mut out), Ok(3_586));
    assert!(rt; out.starts_with(&[0, 2, 5, 1, 0, 0, 0, 5, 1, 0, 0, 0]));
    assert!(rt; out.ends_with(&[0x01, 0x00, 0x00, 0x00]));

    let (mut numbers_read, mut homes_read) = ([OLD; 512], [OLD; 512]);
    let (mut ups_read, mut order_read) = ([OLD; 512], [OLD; 512]);
    let count = read(
        &out,
        &mut numbers_read,
        &mut homes_read,
        &mut ups_read,
        &mut order_read,
    );
    assert_eq!(rt; count, Ok(512));
    assert_eq!(rt; numbers_read, numbers);
    assert_eq!(rt; homes_read, homes);
    assert_eq!(rt; ups_read, ups);
    assert_eq!(rt; order_read, order);
}
