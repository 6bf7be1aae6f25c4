//! Sites with stations out of service, drawn.

use crate::small::{EIGHT, EIGHT_SHEET, OLD_BYTE};
use drawer::{Refusal, draw, draw_without};
use view::listed::Listed;
use view::service::ServiceList;
use view::struck::Struck;

/// The eight stations without 7, which has the number 0 and is its own home. Station 4 has no up.
const WITHOUT_7: &[u8] = &[
    0x08, 0x00, 0x05, 0x03, 0x00, 0x04, 0x00, 0x03, 0x03, 0x00, 0x00, 0x00, 0x03, 0x03, 0x00, 0x00,
    0x00, 0x03, 0x03, 0x00, 0x00, 0x00, 0x01, 0x02, 0x00, 0x03, 0x02, 0x00, 0x04, 0x00, 0x03, 0x02,
    0x00, 0x04, 0x00, 0x00, 0x07, 0x00, 0x05, 0x00, 0x06, 0x00, 0x04, 0x00, 0x00, 0x00, 0x01, 0x00,
    0x02, 0x00, 0x03, 0x00,
];

#[test]
fn a_station_out_of_service(rt: HostRuntime) {
    let view = Listed::open(EIGHT);
    let mut list = ServiceList::new();
    let mut out = [OLD_BYTE; 53];
    assert_eq!(rt; draw_without(&view, &mut list, 7, &mut out), Ok(52));
    assert!(rt; out.starts_with(WITHOUT_7));
    assert_eq!(rt; out[52], OLD_BYTE);
    assert_eq!(rt; list, ServiceList::new());
}

#[test]
fn a_station_that_is_out_already(rt: HostRuntime) {
    let view = Listed::open(EIGHT);
    let mut list = ServiceList::new();
    assert_eq!(rt; list.mark(7), Ok(()));
    let marked = list;
    let mut out = [OLD_BYTE; 52];
    assert_eq!(rt; draw(&Struck::new(&view, &list), &mut out), Ok(52));
    assert!(rt; out.starts_with(WITHOUT_7));
    assert_eq!(rt; draw_without(&view, &mut list, 7, &mut out), Ok(52));
    assert!(rt; out.starts_with(WITHOUT_7));
    assert_eq!(rt; list, marked);
}

#[test]
fn a_station_that_has_no_mark(rt: HostRuntime) {
    let view = Listed::open(EIGHT);
    let mut list = ServiceList::new();
    let mut out = [OLD_BYTE; 56];
    assert_eq!(rt; draw_without(&view, &mut list, 512, &mut out), Ok(56));
    assert!(rt; out.starts_with(EIGHT_SHEET));
    assert_eq!(rt; list, ServiceList::new());
}

#[test]
fn a_refusal_leaves_list_and_buffer(rt: HostRuntime) {
    let view = Listed::open(EIGHT);
    let mut list = ServiceList::new();
    let mut out = [OLD_BYTE; 51];
    assert_eq!(rt;
        draw_without(&view, &mut list, 7, &mut out),
        Err(Refusal::BufferShort { needed: 52 })
    );
    assert_eq!(rt; out, [OLD_BYTE; 51]);
    assert_eq!(rt; list, ServiceList::new());
}
