//! Struck views of the site of eight stations, and rehearsals over it.

use crate::rehearsals::{is_heard_without, links_without, weigh_alike};
use crate::sites::{EIGHT, EIGHT_BITS};
use view::links::count_links;
use view::listed::{Listed, Listing};
use view::service::ServiceList;
use view::square::Square;
use view::struck::Struck;
use view::{Refusal, View};

/// A list that marks the stations named.
fn marking(stations: &[usize]) -> ServiceList {
    let mut list = ServiceList::new();
    for station in stations {
        let _ = list.mark(*station);
    }
    list
}

#[test]
fn a_struck_view_shows_the_links_without_a_marked_end(rt: HostRuntime) {
    let view = Struck::new(Listed::open(EIGHT), &marking(&[3, 7, 400]));
    assert_eq!(rt; view.stations(), 8);
    assert!(rt; view.neighbours(0).eq([1, 2]));
    assert!(rt; view.neighbours(3).eq([]));
    assert!(rt; view.neighbours(4).eq([5, 6]));
    assert!(rt; view.neighbours(6).eq([4, 5]));
    assert!(rt; view.neighbours(400).eq([]));
    assert_eq!(rt; view.degree(4), 2);
    assert_eq!(rt; view.neighbour(4, 1), Some(6));
    assert_eq!(rt; view.neighbour(4, 2), None);
    assert_eq!(rt; count_links(&view), Ok(6));
}

#[test]
fn a_struck_view_keeps_its_own_list(rt: HostRuntime) {
    let mut list = marking(&[4]);
    let view = Struck::new(Listed::open(EIGHT), &list);
    let _ = list.clear(4);
    let _ = list.mark(0);
    assert_eq!(rt; view.degree(4), 0);
    assert_eq!(rt; view.degree(0), 3);
}

#[test]
fn a_struck_view_may_be_struck_again(rt: HostRuntime) {
    let below = Listed::open(EIGHT);
    let once = Struck::new(&below, &marking(&[3]));
    let twice = Struck::new(&once, &marking(&[5]));
    assert!(rt; twice.neighbours(4).eq([6]));
    assert!(rt; twice.neighbours(0).eq([1, 2]));
    assert!(rt; once.neighbours(4).eq([5, 6]));
    assert_eq!(rt; count_links(&below), Ok(11));
    assert_eq!(rt; count_links(&once), Ok(7));
    assert_eq!(rt; count_links(&twice), Ok(5));
    let by_value = Struck::new(Struck::new(below, &marking(&[3])), &marking(&[5]));
    assert_eq!(rt; count_links(&by_value), Ok(5));
}

#[test]
fn a_struck_view_lies_over_rows_of_bits(rt: HostRuntime) {
    let view = Struck::new(Square::open(EIGHT_BITS), &marking(&[6, 0]));
    assert!(rt; view.neighbours(3).eq([1, 2, 4]));
    assert!(rt; view.neighbours(4).eq([3, 5]));
    assert!(rt; view.neighbours(7).eq([]));
    assert_eq!(rt; count_links(&view), Ok(5));
}

#[test]
fn a_rehearsal_leaves_the_list_as_it_was(rt: HostRuntime) {
    let view = Listed::open(EIGHT);
    let mut list = marking(&[7]);
    let before = list;
    assert_eq!(rt; links_without(&view, &mut list, 3), Ok(6));
    assert_eq!(rt; list, before);
    assert_eq!(rt; links_without(&view, &mut list, 7), Ok(10), "marked before");
    assert_eq!(rt; list, before);
    assert_eq!(rt;
        links_without(&view, &mut list, 512),
        Ok(10),
        "no mark to set"
    );
    assert_eq!(rt; list, before);
    assert_eq!(rt; weigh_alike(&view, &mut list, 0, 1), Ok(true));
    assert_eq!(rt; weigh_alike(&view, &mut list, 0, 3), Ok(false));
    assert_eq!(rt; list, before);
    assert!(rt; is_heard_without(&view, &mut list, 4, 3));
    assert!(rt;
        !is_heard_without(&view, &mut list, 4, 4),
        "the station itself"
    );
    assert!(rt; !is_heard_without(&view, &mut list, 7, 6));
    assert_eq!(rt; list, before);
}

#[test]
fn a_rehearsal_that_fails_leaves_the_list_as_it_was(rt: HostRuntime) {
    let view = Listed::open(Listing {
        starts: &[],
        ends: &[],
    });
    let mut list = marking(&[2]);
    let before = list;
    let refused = Err(Refusal::CountOutOfRange);
    assert_eq!(rt; links_without(&view, &mut list, 1), refused);
    assert_eq!(rt; links_without(&view, &mut list, 2), refused);
    assert_eq!(rt; list, before);
}
