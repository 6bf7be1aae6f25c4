//! Tables that are no plan, and buffers that are too short.

use sheet::{Refusal, put};

const NO_UP: u16 = 65_535;

/// The numbers, the homes, the ups and the order of a plan for three stations.
const PLAN: [[u16; 3]; 4] = [[1, 1, 0], [0, 0, 2], [2, NO_UP, NO_UP], [2, 0, 1]];

/// Which table, which entry, what is written there in place of it, and the place of the refusal.
const FAULTS: [(usize, usize, u16, usize); 13] = [
    // a number, and a home
    (0, 0, 3, 0),
    (0, 2, 65_535, 2),
    (1, 1, 3, 1),
    (1, 2, 65_535, 2),
    // an up that is no station
    (2, 0, 3, 0),
    (2, 2, 65_534, 2),
    // an up of a station that is not its own home
    (2, 1, 0, 1),
    (1, 0, 1, 0),
    // an order with a station off the site, or with one that was named before
    (3, 0, 3, 0),
    (3, 1, 65_535, 1),
    (3, 1, 2, 1),
    (3, 2, 0, 2),
    (3, 0, 0, 1),
];

/// What put answers for a plan of three stations, and how many bytes it leaves as they were.
fn put_three(plan: &[[u16; 3]; 4]) -> (Result<usize, Refusal>, usize) {
    let mut out = [0xee; 21];
    let [numbers, homes, ups, order] = plan;
    let answer = put(numbers, homes, ups, order, &mut out);
    (answer, out.iter().filter(|b| **b == 0xee).count())
}

#[test]
fn the_lowest_entry_at_fault_is_named(rt: HostRuntime) {
    assert_eq!(rt; put_three(&PLAN), (Ok(19), 2));
    for (table, entry, value, place) in FAULTS {
        let mut plan = PLAN;
        if let Some(old) = plan.get_mut(table).and_then(|t| t.get_mut(entry)) {
            *old = value;
        }
        assert_eq!(rt;
            put_three(&plan),
            (Err(Refusal::NotASheet { place }), 21),
            "table {table}, entry {entry}"
        );
    }
    // of two faults the lower, whichever table has it
    let [_, homes, ups, _] = PLAN;
    let first = (Err(Refusal::NotASheet { place: 0 }), 21);
    assert_eq!(rt; put_three(&[[3, 3, 0], homes, ups, [2, 0, 1]]), first);
    assert_eq!(rt; put_three(&[[1, 1, 3], homes, ups, [3, 0, 1]]), first);
    assert_eq!(rt; put_three(&[[3, 1, 0], homes, ups, [2, 0, 0]]), first);
}

#[test]
fn tables_have_equally_many_entries(rt: HostRuntime) {
    let [numbers, homes, ups, order] = &PLAN;
    let mut out = [0xee; 21];
    let uneven = Err(Refusal::CountOutOfRange);
    assert_eq!(rt; put(&numbers[..2], homes, ups, order, &mut out), uneven);
    assert_eq!(rt; put(numbers, &homes[..2], ups, order, &mut out), uneven);
    assert_eq!(rt; put(numbers, homes, &ups[..2], order, &mut out), uneven);
    assert_eq!(rt; put(numbers, homes, ups, &order[..2], &mut out), uneven);
    // no station, and more than 512
    assert_eq!(rt; put(&[], &[], &[], &[], &mut out), uneven);
    let many = [0; 513];
    assert_eq!(rt; put(&many, &many, &many, &many, &mut out), uneven);
    assert_eq!(rt; out, [0xee; 21]);
}

#[test]
fn the_buffer_needs_room(rt: HostRuntime) {
    let [numbers, homes, ups, order] = &PLAN;
    for room in [0, 1, 18] {
        let mut out = [0xee; 18];
        let answer = put(numbers, homes, ups, order, &mut out[..room]);
        assert_eq!(rt; answer, Err(Refusal::BufferShort { needed: 19 }));
        assert_eq!(rt; out, [0xee; 18]);
    }
}
