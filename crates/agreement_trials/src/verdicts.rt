//! What is said of sheets and levels, over views that match the book and over others.

use crate::sites::{EIGHT, EIGHT_CALLS, EIGHT_SHEET, ONE, ONE_LINK_MORE, ONE_SHEET};
use agreement::{Call, replay};
use rules::{Average, Net, Paired, Rule};
use sheet::LONGEST;
use view::Refusal;
use view::listed::{Listed, Listing};

/// The length of the book's sheet, the verdicts on it and on what is offered, and the levels of book and view.
type Told = (
    Result<usize, Refusal>,
    Result<(), Refusal>,
    Result<(), Refusal>,
    Result<usize, Refusal>,
    Result<usize, Refusal>,
);

/// What comes of some calls over a table of links, by the average.
fn told(calls: &[Call], listing: Listing<'_, '_>, offered: &[u8]) -> Result<Told, Refusal> {
    told_by(&Average, calls, listing, offered)
}

/// The same by any rule.
fn told_by<R: Rule>(
    rule: &R,
    calls: &[Call],
    listing: Listing<'_, '_>,
    offered: &[u8],
) -> Result<Told, Refusal> {
    let run = replay(
        calls,
        &Listed::open(listing),
        rule,
        offered,
        &mut [Ok(()); 20],
        &mut [0; LONGEST],
    )?;
    Ok((
        run.sheet_length,
        run.sheet_verdict,
        run.offered_verdict,
        run.book_level,
        run.view_level,
    ))
}

/// Over a match: the sheet itself, one in another order that is rightful too, one with another number, one with another up, and one
/// that is cut.
#[test]
fn a_match(rt: HostRuntime) {
    let (mut reordered, mut changed) = (EIGHT_SHEET, EIGHT_SHEET);
    (reordered[44], reordered[46]) = (4, 6);
    changed[3] = 4;
    let mut rerouted = EIGHT_SHEET;
    rerouted[5] = 7;
    for (offered, verdict) in [
        (&EIGHT_SHEET[..], Ok(())),
        (&reordered[..], Ok(())),
        (&changed[..], Err(Refusal::StationAtFault { station: 0 })),
        (&rerouted[..], Err(Refusal::HomeOrUpWrong { station: 0 })),
        (&EIGHT_SHEET[..55], Err(Refusal::NotASheet { place: 55 })),
    ] {
        assert_eq!(rt;
            told(&EIGHT_CALLS, EIGHT, offered),
            Ok((Ok(56), Ok(()), verdict, Ok(3), Ok(3)))
        );
    }
}

/// With a link more, two neighbours of station 7 come after it in the order, and its number is 1. One station has another count, and
/// its own sheet passes over it.
#[test]
fn other_views(rt: HostRuntime) {
    let fault = Err(Refusal::StationAtFault { station: 7 });
    assert_eq!(rt;
        told(&EIGHT_CALLS, ONE_LINK_MORE, &EIGHT_SHEET),
        Ok((Ok(56), fault, fault, Ok(3), Ok(3)))
    );
    assert_eq!(rt;
        told(&EIGHT_CALLS, ONE, &ONE_SHEET),
        Ok((Ok(56), Err(Refusal::CountsDiffer), Ok(()), Ok(3), Ok(0)))
    );
}

/// Where every call is refused, or there is none, the book has no stations: no sheet, and no level.
#[test]
fn no_stations(rt: HostRuntime) {
    let none = Err(Refusal::CountOutOfRange);
    for calls in [&EIGHT_CALLS[..2], &EIGHT_CALLS[..0]] {
        assert_eq!(rt;
            told(calls, ONE, &ONE_SHEET),
            Ok((none.map(|()| 0), none, Ok(()), none.map(|()| 0), Ok(0)))
        );
    }
}

/// Levels by other rules: by the net gain at weights of 1 the levels 3 to 0 score 1, 2, 3 and 3, and by the average 3, 20/7, 11/4 and 11/4.
#[test]
fn other_rules(rt: HostRuntime) {
    let net = Net {
        inside_gain: 1,
        boundary_cost: 1,
        member_cost: 1,
    };
    let same = |level| Ok((Ok(56), Ok(()), Ok(()), Ok(level), Ok(level)));
    assert_eq!(rt; told_by(&net, &EIGHT_CALLS, EIGHT, &EIGHT_SHEET), same(1));
    let pair = Paired {
        first: net,
        second: Average,
    };
    assert_eq!(rt; told_by(&pair, &EIGHT_CALLS, EIGHT, &EIGHT_SHEET), same(1));
}

/// A table that the check turns down shows no stations, so nothing passes over it.
#[test]
fn a_view_without_stations(rt: HostRuntime) {
    let none = Err(Refusal::CountOutOfRange);
    let unlawful = Listing {
        starts: &[0, 1, 1],
        ends: &[1],
    };
    assert_eq!(rt;
        told(&EIGHT_CALLS, unlawful, &EIGHT_SHEET),
        Ok((Ok(56), none, none, Ok(3), none.map(|()| 0)))
    );
}
