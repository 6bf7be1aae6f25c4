//! Surveys that are read.

use survey::{Book, read_survey};

/// The sheet of the site that a text says, and its length, 0 for a text that is refused.
fn sheet(text: &[u8]) -> ([u8; 56], usize) {
    let mut book = Book::new();
    let mut out = [0; 56];
    if read_survey(&mut book, text).is_err() {
        return (out, 0);
    }
    let length = book.write_out(&mut out).unwrap_or(0);
    (out, length)
}

/// The survey of eight stations and its sheet.
#[test]
fn the_eight_stations(rt: HostRuntime) {
    let text = b"S 8\nL 0 1 2 3\nL 1 2 3\nL 2 3\nL 3 4\nL 4 5 6\nL 5 6\nL 6 7\n";
    let bytes = [
        0x08, 0x00, 0x05, 0x03, 0x00, 0x04, 0x00, 0x03, 0x03, 0x00, 0x00, 0x00, 0x03, 0x03, 0x00,
        0x00, 0x00, 0x03, 0x03, 0x00, 0x00, 0x00, 0x05, 0x02, 0x00, 0x07, 0x00, 0x03, 0x02, 0x00,
        0x04, 0x00, 0x03, 0x02, 0x00, 0x04, 0x00, 0x01, 0x01, 0x00, 0x07, 0x00, 0x05, 0x00, 0x06,
        0x00, 0x04, 0x00, 0x00, 0x00, 0x01, 0x00, 0x02, 0x00, 0x03, 0x00,
    ];
    assert_eq!(rt; sheet(text), (bytes, 56));
}

/// One station, in any form that a survey can have.
#[test]
fn one_station(rt: HostRuntime) {
    let cases: [&[u8]; 8] = [
        b"S 1",
        b"S 1\n",
        b"S 1\n\n",
        b"  S   1  ",
        b"S 01",
        b"S 001\n   \n",
        b"# one station\n\nS 1\n  #L 0 1\n#\n",
        b"#\xff\t\r\n\nS 1",
    ];
    for text in cases {
        let (bytes, length) = sheet(text);
        assert_eq!(rt; length, 5);
        assert!(rt; bytes.starts_with(&[0x01, 0x00, 0x00, 0x00, 0x00]));
    }
}

/// Two linked stations: both have number 1 and home 0, and station 0 is drawn first.
#[test]
fn two_stations(rt: HostRuntime) {
    let cases: [&[u8]; 6] = [
        b"S 2\nL 0 1",
        b"S 2\nL 1 0\n",
        b"S 2\nL 000 001",
        b"S 02\n\n  L   0  1  \n",
        b"#L\nS 2\n# S 3\nL 0 1\n#",
        b"S 2\n \nL 1 00",
    ];
    for text in cases {
        let (bytes, length) = sheet(text);
        assert_eq!(rt; length, 14);
        assert!(rt; bytes.starts_with(&[2, 0, 1, 1, 0, 3, 1, 0, 0, 0, 0, 0, 1, 0]));
    }
}

/// The smallest and the largest size.
#[test]
fn sizes(rt: HostRuntime) {
    let mut book = Book::new();
    assert_eq!(rt; read_survey(&mut book, b"S 512\nL 511 0 510"), Ok(()));
    assert_eq!(rt; (book.number(511), book.number(512)), (Some(1), None));
    // an accepted survey replaces what the book held
    assert_eq!(rt; read_survey(&mut book, b"S 1"), Ok(()));
    assert_eq!(rt; (book.number(0), book.number(1)), (Some(0), None));
}

#[test]
fn the_line_of_a_refusal(rt: HostRuntime) -> Result<(), std::test::Fail> {
    let cases: [(&[u8], &str); 4] = [
        (b"S 4\n  Lx", "refused 8 layer 1 line 2 byte 3\n"),
        (b"", "refused 9 layer 2 line 0 byte 0\n"),
        (b"S 4\nL 0 1\n\nS 4", "refused 9 layer 2 line 4 byte 1\n"),
        (b"S 4\nL 0  17", "refused 2 layer 3 line 2 byte 6\n"),
    ];
    for (text, line) in cases {
        if let Err(fault) = read_survey(&mut Book::new(), text) {
            assert_eq!(rt; fault.refusal_line().to_string(rt.alloc())?.as_str(), line);
        } else {
            assert!(rt; false);
        }
    }
    Ok(())
}
