//! What is refused, in its order and with its place, and leaves the book as it was.

use crate::sites::{eight, numbers};
use book::{Book, Refusal, View};

#[test]
fn a_book_without_stations_refuses_all(rt: HostRuntime) {
    let mut book = Book::new();
    assert_eq!(rt; book.stations(), 0);
    assert_eq!(rt; book.number(0), None);
    for (a, b) in [(0, 1), (3, 3), (512, usize::MAX)] {
        assert_eq!(rt; book.link(a, b), Err(Refusal::CountOutOfRange));
        assert_eq!(rt; book.unlink(a, b), Err(Refusal::CountOutOfRange));
    }
}

#[test]
fn a_count_out_of_range_lays_nothing_out(rt: HostRuntime) {
    let mut book = eight(true).expect(&rt, "each link can be set");
    for stations in [0, 513, usize::MAX] {
        assert_eq!(rt; book.lay_out(stations), Err(Refusal::CountOutOfRange));
    }
    assert_eq!(rt; numbers(&book), [3, 3, 3, 3, 2, 2, 2, 1].map(Some));
    assert_eq!(rt; book.lay_out(1), Ok(()));
    assert_eq!(rt; book.stations(), 1);
    assert_eq!(rt; book.number(0), Some(0));
    assert_eq!(rt; book.number(1), None);
}

#[test]
fn links_are_refused_in_order(rt: HostRuntime) {
    let mut book = eight(true).expect(&rt, "each link can be set");
    let cases = [
        ((9, 8), Refusal::OffSite { station: 9 }),
        ((8, 8), Refusal::OffSite { station: 8 }),
        (
            (3, usize::MAX),
            Refusal::OffSite {
                station: usize::MAX,
            },
        ),
        ((5, 5), Refusal::EqualEnds { station: 5 }),
        ((3, 4), Refusal::AlreadyLinked { lower: 3 }),
        ((4, 3), Refusal::AlreadyLinked { lower: 3 }),
    ];
    for ((a, b), refusal) in cases {
        assert_eq!(rt; book.link(a, b), Err(refusal));
    }
    assert_eq!(rt; numbers(&book), [3, 3, 3, 3, 2, 2, 2, 1].map(Some));
}

#[test]
fn links_that_do_not_stand_are_not_taken_away(rt: HostRuntime) {
    let mut book = eight(true).expect(&rt, "each link can be set");
    let cases = [
        ((8, 9), Refusal::OffSite { station: 8 }),
        ((0, 8), Refusal::OffSite { station: 8 }),
        ((7, 7), Refusal::EqualEnds { station: 7 }),
        ((5, 7), Refusal::NotLinked { lower: 5 }),
        ((7, 5), Refusal::NotLinked { lower: 5 }),
    ];
    for ((a, b), refusal) in cases {
        assert_eq!(rt; book.unlink(a, b), Err(refusal));
    }
    assert_eq!(rt; numbers(&book), [3, 3, 3, 3, 2, 2, 2, 1].map(Some));
}

#[test]
fn a_station_takes_32_links(rt: HostRuntime) {
    let mut book = Book::new();
    assert_eq!(rt; book.lay_out(67), Ok(()));
    for s in 2..34 {
        assert_eq!(rt; book.link(0, s), Ok(()));
        assert_eq!(rt; book.link(1, s + 33), Ok(()));
    }
    let full = Refusal::RowFull { station: 0 };
    assert_eq!(rt; book.link(0, 34), Err(full));
    assert_eq!(rt; book.link(34, 0), Err(full));
    assert_eq!(rt; book.link(0, 1), Err(full));
    assert_eq!(rt; book.link(1, 0), Err(Refusal::RowFull { station: 1 }));
    // a link that stands is told first
    assert_eq!(rt; book.link(0, 33), Err(Refusal::AlreadyLinked { lower: 0 }));
    assert_eq!(rt; book.degree(0), 32);
    assert_eq!(rt; book.unlink(20, 0), Ok(()));
    assert_eq!(rt; book.link(34, 0), Ok(()));
}
