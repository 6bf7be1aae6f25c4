//! The number and the place of each refusal.

use view::{Refusal, TableFault};

/// Each refusal with its number and its place, as the table of refusals has them.
const TABLE: [(Refusal, u8, usize); 16] = [
    (Refusal::CountOutOfRange, 1, 0),
    (Refusal::OffSite { station: 512 }, 2, 512),
    (Refusal::EqualEnds { station: 3 }, 3, 3),
    (Refusal::AlreadyLinked { lower: 4 }, 4, 4),
    (Refusal::NotLinked { lower: 5 }, 5, 5),
    (Refusal::RowFull { station: 6 }, 6, 6),
    (Refusal::BufferShort { needed: 56 }, 7, 56),
    (Refusal::TextOutOfForm, 8, 0),
    (Refusal::SizeLineMisplaced, 9, 0),
    (Refusal::NotASheet { place: 17 }, 10, 17),
    (Refusal::StationAtFault { station: 7 }, 11, 7),
    (Refusal::HomeOrUpWrong { station: 8 }, 12, 8),
    (Refusal::CountsDiffer, 13, 0),
    (Refusal::TextTooLong, 14, 0),
    (Refusal::UnlawfulTable(TableFault::Shape), 15, 65_535),
    (Refusal::UnlawfulTable(TableFault::Row(9)), 15, 9),
];

#[test]
fn each_refusal_has_its_number_and_place(rt: HostRuntime) {
    for (refusal, number, place) in &TABLE {
        assert_eq!(rt; refusal.number(), *number);
        assert_eq!(rt; refusal.place(), *place);
    }
}
