//! Marks, set and cleared one by one.

use view::Refusal;
use view::service::ServiceList;

#[test]
fn a_mark_is_set_and_cleared_alone(rt: HostRuntime) {
    let mut list = ServiceList::new();
    assert!(rt; !list.is_marked(0) && !list.is_marked(511) && !list.is_marked(512));
    assert_eq!(rt; list.mark(0), Ok(()));
    assert_eq!(rt; list.mark(511), Ok(()));
    assert!(rt; list.is_marked(0) && list.is_marked(511));
    assert!(rt; !list.is_marked(1) && !list.is_marked(510));
    assert_eq!(rt; list.clear(511), Ok(()));
    assert!(rt; list.is_marked(0) && !list.is_marked(511));
    assert_eq!(rt; list.clear(511), Ok(()), "cleared again");
    assert_eq!(rt; list.mark(0), Ok(()), "set again");
    assert!(rt; list.is_marked(0) && !list.is_marked(511));
}

#[test]
fn a_station_past_the_list_is_refused(rt: HostRuntime) {
    let mut list = ServiceList::new();
    assert_eq!(rt; list.mark(3), Ok(()));
    let before = list;
    for station in [512, 513, usize::MAX] {
        let refusal = Refusal::OffSite { station };
        assert_eq!(rt; list.mark(station), Err(refusal));
        assert_eq!(rt; list.clear(station), Err(refusal));
        assert!(rt; list == before && !list.is_marked(station));
    }
}
