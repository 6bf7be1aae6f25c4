//! Bytes that are no sheet, and tables that are too short.

use sheet::{Refusal, read};

/// A sheet of three stations: station 0 has number 1 and up 2, station 1 has number 1 and home 0, station 2 has neither,
/// and the order is 2 0 1.
const SHEET: [u8; 19] = [
    3, 0, // the count
    5, 1, 0, 2, 0, // station 0, from byte 2 on
    3, 1, 0, 0, 0, // station 1, from byte 7 on
    0, // station 2, at byte 12
    2, 0, 0, 0, 1, 0, // the order, from byte 13 on
];

/// The offset of a byte, what is written there in place of it, and the place of the refusal.
const FAULTS: [(usize, u8, usize); 24] = [
    // the count: 0, and more than 512
    (0, 0, 0),
    (1, 2, 0),
    // a map byte: each of bits 3 to 7, and bits 1 and 2 together
    (2, 0x0d, 2),
    (2, 0x15, 2),
    (2, 0x25, 2),
    (2, 0x45, 2),
    (2, 0x85, 2),
    (2, 0x07, 2),
    (12, 0x08, 12),
    // a number: 0, the count, and more
    (3, 0, 3),
    (3, 3, 3),
    (4, 1, 3),
    (8, 0, 8),
    // an up: the count, and more
    (5, 3, 5),
    (6, 1, 5),
    // a home: the own station, the count, and more
    (10, 1, 10),
    (10, 3, 10),
    (11, 1, 10),
    // an entry of the order: the count, more, and one that was named before
    (13, 3, 13),
    (14, 1, 13),
    (15, 2, 15),
    (15, 1, 17),
    (17, 0, 17),
    (17, 2, 17),
];

/// What read answers for tables with so much room, and whether they are as they were.
fn read_with_room(sheet: &[u8], room: [usize; 4]) -> (Result<usize, Refusal>, bool) {
    let (mut numbers, mut homes, mut ups, mut order) = ([9; 3], [9; 3], [9; 3], [9; 3]);
    let answer = read(
        sheet,
        &mut numbers[..room[0].min(3)],
        &mut homes[..room[1].min(3)],
        &mut ups[..room[2].min(3)],
        &mut order[..room[3].min(3)],
    );
    let same = numbers == [9; 3] && homes == [9; 3] && ups == [9; 3] && order == [9; 3];
    (answer, same)
}

fn read_three(sheet: &[u8]) -> (Result<usize, Refusal>, bool) {
    read_with_room(sheet, [3; 4])
}

fn refused(place: usize) -> (Result<usize, Refusal>, bool) {
    (Err(Refusal::NotASheet { place }), true)
}

#[test]
fn each_fault_has_its_offset(rt: HostRuntime) {
    assert_eq!(rt; read_three(&SHEET), (Ok(3), false));
    for (offset, byte, place) in FAULTS {
        let mut sheet = SHEET;
        if let Some(old) = sheet.get_mut(offset) {
            *old = byte;
        }
        assert_eq!(rt;
            read_three(&sheet),
            refused(place),
            "byte {offset} is {byte}"
        );
    }
    // of two faults the first
    let mut sheet = SHEET;
    sheet[3] = 0;
    sheet[13] = 3;
    assert_eq!(rt; read_three(&sheet), refused(3));
}

#[test]
fn one_station_has_no_number_and_no_home(rt: HostRuntime) {
    assert_eq!(rt; read_three(&[1, 0, 1, 0, 0, 0, 0]), refused(3));
    assert_eq!(rt; read_three(&[1, 0, 1, 1, 0, 0, 0]), refused(3));
    assert_eq!(rt; read_three(&[1, 0, 2, 0, 0, 0, 0]), refused(3));
    // an up may be the station itself
    assert_eq!(rt; read_three(&[1, 0, 4, 0, 0, 0, 0]), (Ok(1), false));
    assert_eq!(rt; read_three(&[1, 0, 4, 1, 0, 0, 0]), refused(3));
}

#[test]
fn a_cut_sheet_is_refused_at_its_length(rt: HostRuntime) {
    for length in 0..19 {
        assert_eq!(rt;
            read_three(&SHEET[..length]),
            refused(length),
            "{length} bytes"
        );
    }
    // 512 stations are no fault, 513 are
    assert_eq!(rt; read_three(&[0x00, 0x02]), refused(2));
    assert_eq!(rt; read_three(&[0x01, 0x02]), refused(0));
}

#[test]
fn the_first_extra_byte_is_at_fault(rt: HostRuntime) {
    let mut longer = [0; 21];
    longer[..19].copy_from_slice(&SHEET);
    assert_eq!(rt; read_three(&longer[..20]), refused(19));
    assert_eq!(rt; read_three(&longer), refused(19));
}

#[test]
fn each_table_needs_room(rt: HostRuntime) {
    let short = (Err(Refusal::BufferShort { needed: 3 }), true);
    for room in [
        [2, 3, 3, 3],
        [3, 2, 3, 3],
        [3, 3, 2, 3],
        [3, 3, 3, 2],
        [0, 0, 0, 0],
    ] {
        assert_eq!(rt; read_with_room(&SHEET, room), short);
    }
    // the bytes are judged first
    assert_eq!(rt; read_with_room(&SHEET[..18], [0; 4]), refused(18));
}
