//! Numbers that follow each link.

use crate::sites::{eight, numbers};
use book::{Book, View};

#[test]
fn numbers_stand_as_links_are_set(rt: HostRuntime) {
    for from_lower in [true, false] {
        let book = eight(from_lower).expect(&rt, "each link can be set");
        assert_eq!(rt; numbers(&book), [3, 3, 3, 3, 2, 2, 2, 1].map(Some));
        assert_eq!(rt; book.number(8), None);
        assert_eq!(rt; book.number(usize::MAX), None);
    }
}

#[test]
fn one_link_more_moves_one_station(rt: HostRuntime) {
    for (a, b) in [(5, 7), (7, 5)] {
        let mut book = eight(true).expect(&rt, "each link can be set");
        assert_eq!(rt; book.link(a, b), Ok(()));
        assert_eq!(rt; numbers(&book), [3, 3, 3, 3, 2, 2, 2, 2].map(Some));
        assert_eq!(rt; book.unlink(b, a), Ok(()));
        assert_eq!(rt; numbers(&book), [3, 3, 3, 3, 2, 2, 2, 1].map(Some));
    }
}

#[test]
fn one_link_less_moves_the_group(rt: HostRuntime) {
    for (a, b) in [(0, 1), (1, 0)] {
        let mut book = eight(true).expect(&rt, "each link can be set");
        assert_eq!(rt; book.unlink(a, b), Ok(()));
        assert_eq!(rt; numbers(&book), [2, 2, 2, 2, 2, 2, 2, 1].map(Some));
        assert_eq!(rt; book.link(b, a), Ok(()));
        assert_eq!(rt; numbers(&book), [3, 3, 3, 3, 2, 2, 2, 1].map(Some));
    }
}

#[test]
fn rows_rise_and_go_both_ways(rt: HostRuntime) {
    let mut book = eight(false).expect(&rt, "each link can be set");
    assert_eq!(rt; book.stations(), 8);
    assert!(rt; book.neighbours(4).eq([3, 5, 6]) && book.neighbours(7).eq([6]));
    assert_eq!(rt; book.link(4, 0), Ok(()));
    assert_eq!(rt; book.link(4, 7), Ok(()));
    assert!(rt; book.neighbours(4).eq([0, 3, 5, 6, 7]));
    assert!(rt; book.neighbours(0).eq([1, 2, 3, 4]) && book.neighbours(7).eq([4, 6]));
    assert_eq!(rt; book.unlink(5, 4), Ok(()));
    assert!(rt; book.neighbours(4).eq([0, 3, 6, 7]) && book.neighbours(5).eq([6]));
    assert_eq!(rt; book.degree(8), 0);
}

#[test]
fn those_with_too_few_neighbours_do_not_rise(rt: HostRuntime) {
    let mut book = Book::new();
    assert_eq!(rt; book.lay_out(8), Ok(()));
    for s in 1..8 {
        assert_eq!(rt; book.link(s - 1, s), Ok(()));
    }
    assert_eq!(rt; numbers(&book), [Some(1); 8]);
    // a triangle at the end of the line
    assert_eq!(rt; book.link(0, 2), Ok(()));
    assert_eq!(rt; numbers(&book), [2, 2, 2, 1, 1, 1, 1, 1].map(Some));
    // a ring of six behind it
    assert_eq!(rt; book.link(7, 2), Ok(()));
    assert_eq!(rt; numbers(&book), [Some(2); 8]);
    assert_eq!(rt; book.unlink(1, 0), Ok(()));
    assert_eq!(rt; numbers(&book), [1, 1, 2, 2, 2, 2, 2, 2].map(Some));
}

#[test]
fn a_ring_of_all_stations_rises_and_falls(rt: HostRuntime) {
    let mut book = Book::new();
    assert_eq!(rt; book.lay_out(512), Ok(()));
    for s in 1..512 {
        assert_eq!(rt; book.link(s, s - 1), Ok(()));
    }
    assert!(rt; (0..512).all(|s| book.number(s) == Some(1)));
    assert_eq!(rt; book.link(0, 511), Ok(()));
    assert!(rt; (0..512).all(|s| book.number(s) == Some(2)));
    assert_eq!(rt; book.unlink(255, 256), Ok(()));
    assert!(rt; (0..512).all(|s| book.number(s) == Some(1)));
}
