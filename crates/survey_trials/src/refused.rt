//! Surveys that are refused. Lines and bytes were counted by hand.

use survey::{Book, Layer, Refusal, Report, Spot, SurveyFault, read_survey};

/// What is told of a text that is refused, or nothing of one that is accepted.
fn told(text: &[u8]) -> Option<Report> {
    read_survey(&mut Book::new(), text)
        .err()
        .map(SurveyFault::report)
}

/// What is told of a refusal by the words or the lines of a text; its place is 0.
fn refused(refusal: Refusal, layer: Layer, line: usize, byte: usize) -> Option<Report> {
    Some(Report {
        refusal,
        layer,
        spot: Spot { line, byte },
    })
}

#[test]
fn wrong_letters_and_words(rt: HostRuntime) {
    let cases: [(&[u8], usize, usize); 36] = [
        // a lower-case letter
        (b"s 8", 1, 1),
        // another letter
        (b"X 8", 1, 1),
        // a letter twice
        (b"SS 8", 1, 1),
        // a letter with a number behind it
        (b"S8", 1, 1),
        // spaces before it
        (b"S 4\n  Lx 0 1", 2, 3),
        // a number in the place of the letter
        (b"8", 1, 1),
        // four digits
        (b"S 4\nL 0 0001", 2, 5),
        // no digit
        (b"S 4\nL 0 1 2 x9", 2, 9),
        // signs and points
        (b"S +4", 1, 3),
        (b"S -4", 1, 3),
        (b"S 4.", 1, 3),
        // a comment in the middle
        (b"S 4\nL 0 1 # 2", 2, 7),
        (b"S 4 # four", 1, 5),
        (b"S # 4", 1, 3),
        (b"S 4#", 1, 3),
        (b"S#4", 1, 1),
        (b"S 4\nL#0 1", 2, 1),
        // a letter in the middle
        (b"S S", 1, 3),
        (b"S 4 L 0 1", 1, 5),
        // TAB is no space
        (b"S\t4", 1, 1),
        (b"\tS 4", 1, 1),
        (b"S 4\t5", 1, 3),
        // CR ends no line
        (b"S 4\r\nL 0 1", 1, 3),
        (b"\r\nS 4", 1, 1),
        // bytes above 127
        (b"S 4\n\xc3\x84", 2, 1),
        (b"S 4\nL 0 \xe9", 2, 5),
        (b"S \xc2\xa04", 1, 3),
        // NUL
        (b"S 4\nL 0\x001", 2, 3),
        (b"\x00", 1, 1),
        // words are judged before their count
        (b"S 4 x", 1, 5),
        (b"S x 4", 1, 3),
        (b"L x", 1, 3),
        // and before the order of lines
        (b"L 0 x", 1, 5),
        (b"S 4\nS x", 2, 3),
        // and before size and links
        (b"S 999 x", 1, 7),
        (b"S 4\nL 0 0 x", 2, 7),
    ];
    for (text, line, byte) in cases {
        assert_eq!(rt;
            told(text),
            refused(Refusal::TextOutOfForm, Layer::Word, line, byte)
        );
    }
}

#[test]
fn wrong_counts_of_words(rt: HostRuntime) {
    let cases: [(&[u8], usize); 12] = [
        (b"S", 1),
        (b"S 4 5", 1),
        (b"   S  ", 1),
        (b"S 4\nL", 2),
        (b"S 4\nL 0", 2),
        (b"S 4\n  L  0  ", 2),
        (b"L", 1),
        (b"L 0", 1),
        (b"S 4\nS", 2),
        (b"S 4\nS 999 1", 2),
        (b"S 513 0", 1),
        (b"S 4\nL 9", 2),
    ];
    for (text, line) in cases {
        assert_eq!(rt;
            told(text),
            refused(Refusal::TextOutOfForm, Layer::Line, line, 1)
        );
    }
}

/// A second size is refused for its order, even if it is also too large.
#[test]
fn lines_out_of_order(rt: HostRuntime) {
    let cases: [(&[u8], usize); 7] = [
        (b"L 0 1", 1),
        (b"\n\n L 0 1\nS 4", 3),
        (b"# S 4\nL 0 0", 2),
        (b"S 4\nS 4", 2),
        (b"S 4\nL 0 1\n S 5", 3),
        (b"S 4\nS 999", 2),
        (b"L 999 999", 1),
    ];
    for (text, line) in cases {
        assert_eq!(rt;
            told(text),
            refused(Refusal::SizeLineMisplaced, Layer::Line, line, 1)
        );
    }
}

#[test]
fn texts_without_a_size(rt: HostRuntime) {
    let cases: [&[u8]; 5] = [
        b"",
        b"\n",
        b"\n  \n\n",
        b"# S 4",
        b"   # only\n#\n\n# comments\n",
    ];
    for text in cases {
        assert_eq!(rt;
            told(text),
            refused(Refusal::SizeLineMisplaced, Layer::Line, 0, 0)
        );
    }
}

#[test]
fn sizes_and_links_that_the_book_refuses(rt: HostRuntime) {
    let cases: [(&[u8], (u8, usize), usize, usize); 14] = [
        (b"S 0", (1, 0), 1, 3),
        (b"S 000", (1, 0), 1, 3),
        (b"S 513", (1, 0), 1, 3),
        (b"  S   999", (1, 0), 1, 7),
        (b"#\n\nS 513", (1, 0), 3, 3),
        (b"S 4\nL 4 1", (2, 4), 2, 5),
        (b"S 4\nL 0 1 4", (2, 4), 2, 7),
        (b"S 4\nL 5 6", (2, 5), 2, 5),
        (b"S 4\n  L  0   999", (2, 999), 2, 10),
        (b"S 4\nL 4 4", (2, 4), 2, 5),
        (b"S 4\nL 2 2", (3, 2), 2, 5),
        (b"S 4\nL 3 0 1 003", (3, 3), 2, 9),
        (b"S 4\nL 0 1 1", (4, 0), 2, 7),
        (b"S 4\nL 3 1\nL 1 2 3", (4, 1), 3, 7),
    ];
    for (text, (number, place), line, byte) in cases {
        let report = told(text);
        let refusal = report.map(|report| (report.refusal.number(), report.refusal.place()));
        assert_eq!(rt; refusal, Some((number, place)));
        assert_eq!(rt; report.map(|report| report.layer), Some(Layer::Book));
        assert_eq!(rt; report.map(|report| report.spot), Some(Spot { line, byte }));
    }
}
/// A station that is full when it is linked on: station 0 with 1 to 32.
#[test]
fn full_stations(rt: HostRuntime) {
    let row =
        b"L 0 1 2 3 4 5 6 7 8 9 10 11 12 13 14 15 16 17 18 19 20 21 22 23 24 25 26 27 28 29 30 31 32";
    let cases: [(&[u8], usize, usize); 3] = [
        (b" 33", 2, 92),
        (b"\nL 33 34 0", 3, 9),
        (b"\nL 0 33", 3, 5),
    ];
    for (more, line, byte) in cases {
        let mut text = [b' '; 120];
        text[..5].copy_from_slice(b"S 40\n");
        text[5..95].copy_from_slice(row);
        text[95..95 + more.len()].copy_from_slice(more);
        assert_eq!(rt;
            told(&text),
            refused(Refusal::RowFull { station: 0 }, Layer::Book, line, byte)
        );
    }
}

/// Before anything is read, the length is judged.
#[test]
fn lengths(rt: HostRuntime) {
    let mut text = [b' '; 60_000];
    assert_eq!(rt;
        told(&text),
        refused(Refusal::SizeLineMisplaced, Layer::Line, 0, 0)
    );
    text[59_997] = b'S';
    text[59_999] = b'1';
    assert_eq!(rt; told(&text), None);
    let text = [b'x'; 60_001];
    assert_eq!(rt;
        told(&text),
        refused(Refusal::TextTooLong, Layer::Line, 0, 0)
    );
    let mut text = [b' '; 60_001];
    text[0] = b'S';
    text[2] = b'1';
    assert_eq!(rt;
        told(&text),
        refused(Refusal::TextTooLong, Layer::Line, 0, 0)
    );
}

/// Where both ends are full, the first one is named.
#[test]
fn both_ends_full(rt: HostRuntime) {
    let mut book = Book::new();
    assert_eq!(rt; book.lay_out(70), Ok(()));
    for t in 1..33 {
        assert_eq!(rt; book.link(0, t), Ok(()));
        assert_eq!(rt; book.link(40, t + if t < 8 { 32 } else { 33 }), Ok(()));
    }
    assert_eq!(rt; book.link(40, 0), Err(Refusal::RowFull { station: 40 }));
}

/// The numbers and places of refusals by words and lines, and of those of the text as a whole.
#[test]
fn numbers_and_places(rt: HostRuntime) {
    let cases: [(&[u8], (u8, usize, u8)); 5] = [
        (b"x", (8, 0, 1)),
        (b"S", (8, 0, 2)),
        (b"L 0 1", (9, 0, 2)),
        (b"", (9, 0, 2)),
        (b"S 513", (1, 0, 3)),
    ];
    for (text, expected) in cases {
        let found = told(text).map(|r| (r.refusal.number(), r.refusal.place(), r.layer.number()));
        assert_eq!(rt; found, Some(expected));
    }
    let found = told(&[b'x'; 60_001]).map(|r| (
        r.refusal.number(),
        r.refusal.place(),
        r.layer.number(),
    ));
    assert_eq!(rt; found, Some((14, 0, 2)));
}

/// Whatever refuses a survey, and wherever, the book stays.
#[test]
fn a_refused_survey_leaves_the_book(rt: HostRuntime) {
    let mut book = Book::new();
    assert_eq!(rt; read_survey(&mut book, b"S 3\nL 0 1"), Ok(()));
    let cases: [&[u8]; 6] = [
        b"S 4\nL 0 2\nL 0 1 9",
        b"S 4\nL 0 2\nL 0 x",
        b"S 4\nL 0 2\nL 0",
        b"S 4\nL 0 2\nS 2",
        b"#",
        &[b'x'; 60_001],
    ];
    for text in cases {
        assert!(rt; read_survey(&mut book, text).is_err());
        assert_eq!(rt; book.link(0, 1), Err(Refusal::AlreadyLinked { lower: 0 }));
        assert_eq!(rt; book.unlink(0, 2), Err(Refusal::NotLinked { lower: 0 }));
        assert_eq!(rt; book.link(0, 3), Err(Refusal::OffSite { station: 3 }));
    }
}
