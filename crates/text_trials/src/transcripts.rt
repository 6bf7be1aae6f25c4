//! The lines of the walkthrough that its own run in the gate does not show.

use std::alloc::{AllocError, Global};
use std::test::Fail;
use transcript::{Line, Moved};
use view::Refusal;

/// What the walkthrough tells last of a text.
fn last_line(heap: Global, text: &str) -> Result<String, AllocError> {
    match tables::read(heap, text.as_bytes()) {
        Ok(table) => Line::Verdict(table.listing().measure()).to_string(heap),
        Err(unread) => unread.to_string(heap),
    }
}

#[test]
fn the_last_line_tells_the_verdict(rt: HostRuntime) -> Result<(), Fail> {
    let cases: [(&str, &str); 7] = [
        ("1 2\n0 2\n0 1\n", "lawful: 3 stations, 3 links"),
        ("\n", "lawful: 1 stations, 0 links"),
        ("", "refused 15 place 65535"),
        ("1\n0 2\n", "refused 15 place 1"),
        ("1\n0\n3\n", "refused 15 place 2"),
        ("1\n 0 0x\n", "line 2 byte 4: not a station"),
        ("70000\n", "line 1 byte 1: not a station"),
    ];
    for (text, line) in cases {
        assert_eq!(rt; last_line(rt.alloc(), text)?.as_str(), line);
    }
    Ok(())
}

#[test]
fn a_line_tells_what_was_removed(rt: HostRuntime) -> Result<(), Fail> {
    let line = Line::Removed {
        station: 7,
        left: 12,
    };
    assert_eq!(rt;
        line.to_string(rt.alloc())?.as_str(),
        "removed 7 with 12 left"
    );
    Ok(())
}

#[test]
fn lines_tell_of_arguments(rt: HostRuntime) -> Result<(), Fail> {
    let struck = Line::Struck { station: 30 };
    assert_eq!(rt; struck.to_string(rt.alloc())?.as_str(), "struck 30");
    let none = Line::NoStation { argument: 12 };
    assert_eq!(rt;
        none.to_string(rt.alloc())?.as_str(),
        "argument 12: not a station"
    );
    Ok(())
}

#[test]
fn a_line_tells_of_a_station(rt: HostRuntime) -> Result<(), Fail> {
    let cases: [(Option<u16>, &str); 3] = [
        (Some(30), "station 4 number 10 home 20 up 30"),
        (Some(0), "station 4 number 10 home 20 up 0"),
        (None, "station 4 number 10 home 20 up -"),
    ];
    for (up, told) in cases {
        let line = Line::Station {
            station: 4,
            number: 10,
            home: 20,
            up,
        };
        assert_eq!(rt; line.to_string(rt.alloc())?.as_str(), told);
    }
    Ok(())
}

#[test]
fn a_line_shows_the_bytes_of_a_sheet(rt: HostRuntime) -> Result<(), Fail> {
    let cases: [(&[u8], &str); 3] = [
        (&[1, 0, 0, 0, 0], "sheet 5 bytes: 01 00 00 00 00"),
        (&[0xff, 0x0a], "sheet 2 bytes: ff 0a"),
        (&[], "sheet 0 bytes:"),
    ];
    for (bytes, told) in cases {
        assert_eq!(rt; Line::Sheet { bytes }.to_string(rt.alloc())?.as_str(), told);
    }
    Ok(())
}

#[test]
fn a_line_shows_the_bytes_of_cards(rt: HostRuntime) -> Result<(), Fail> {
    let line = Line::Cards {
        bytes: &[4, 0, 0xff, 0xff],
    };
    assert_eq!(rt;
        line.to_string(rt.alloc())?.as_str(),
        "cards 4 bytes: 04 00 ff ff"
    );
    Ok(())
}

#[test]
fn lines_tell_of_links(rt: HostRuntime) -> Result<(), Fail> {
    let fourth = Moved {
        station: 4,
        from: 1,
        to: 2,
    };
    let last = Moved {
        station: 511,
        from: 32,
        to: 31,
    };
    let cases: [(&[Moved], &str); 4] = [
        (&[], "link 10 7: nobody moved"),
        (&[fourth], "link 10 7: moved 4 1->2"),
        (&[fourth, last], "link 10 7: moved 4 1->2, 511 32->31"),
        (
            &[last, fourth, last],
            "link 10 7: moved 511 32->31, 4 1->2, 511 32->31",
        ),
    ];
    for (moved, told) in cases {
        let line = Line::Linked { a: 10, b: 7, moved };
        assert_eq!(rt; line.to_string(rt.alloc())?.as_str(), told);
    }
    let refused = Line::LinkRefused {
        a: 3,
        b: 40,
        refusal: Refusal::RowFull { station: 3 },
    };
    assert_eq!(rt;
        refused.to_string(rt.alloc())?.as_str(),
        "link 3 40: refused 6 place 3"
    );
    Ok(())
}

#[test]
fn lines_tell_of_an_inspection_and_of_levels(rt: HostRuntime) -> Result<(), Fail> {
    let cases: [(Line<'_>, &str); 4] = [
        (Line::Inspected(Ok(())), "inspected: passed"),
        (
            Line::Inspected(Err(Refusal::NotASheet { place: 20 })),
            "inspected: refused 10 place 20",
        ),
        (
            Line::Inspected(Err(Refusal::CountsDiffer)),
            "inspected: refused 13 place 0",
        ),
        (
            Line::Level {
                level: 11,
                members: 12,
                inside: 66,
                boundary: 7,
            },
            "level 11: 12 members, 66 inside, 7 boundary",
        ),
    ];
    for (line, told) in cases {
        assert_eq!(rt; line.to_string(rt.alloc())?.as_str(), told);
    }
    Ok(())
}
