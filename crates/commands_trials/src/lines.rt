//! Digits and lines of commands.

use commands::{BookCall, Command, Question, Scoring, Unread, decode};
use std::test::Fail;

#[test]
fn digits_are_decoded(rt: HostRuntime) -> Result<(), Fail> {
    assert_eq!(rt;
        decode(rt.alloc(), b"000aff")?.as_slice(),
        &[0, 10, 255][..]
    );
    assert_eq!(rt; decode(rt.alloc(), b"-")?.len(), 0);
    for digits in ["0A", "0", "0g", "--", "0 0"] {
        let why = decode(rt.alloc(), digits.as_bytes()).err();
        assert_eq!(rt; why, Some(Unread::NotUnderstood), "{}", digits);
    }
    Ok(())
}

#[test]
fn calls_are_read(rt: HostRuntime) -> Result<(), Fail> {
    let read = Command::read(rt.alloc(), b"  link 007 18446744073709551615 ")?;
    let ends = match &read {
        Command::Call(BookCall::Link { a, b }) => (*a, *b),
        _ => (0, 0),
    };
    assert_eq!(rt; ends, (7, usize::MAX));
    Ok(())
}

#[test]
fn tables_are_read(rt: HostRuntime) -> Result<(), Fail> {
    let read = Command::read(rt.alloc(), b"put 1 2 / / 65535 / 0003")?;
    let order = match &read {
        Command::Ask(Question::Put(tables)) => tables.order.first().copied(),
        _ => None,
    };
    assert_eq!(rt; order, Some(3));
    Ok(())
}

#[test]
fn rules_are_read(rt: HostRuntime) -> Result<(), Fail> {
    let read = Command::read(rt.alloc(), b"choose net 1 2 3 then average")?;
    let weight = match &read {
        Command::Ask(Question::Choose(Scoring::NetThenAverage(net))) => net.member_cost,
        _ => 0,
    };
    assert_eq!(rt; weight, 3);
    Ok(())
}

#[test]
fn other_lines_are_not_understood(rt: HostRuntime) {
    let lines = [
        "",
        "link 1",
        "link 1 18446744073709551616",
        "put 1 / 2 / 3",
        "put 65536 / 0 / 0 / 0",
        "choose average then",
        "layout 3",
        "numbers 1",
        "survey 0A",
    ];
    for line in lines {
        let why = Command::read(rt.alloc(), line.as_bytes()).err();
        assert_eq!(rt; why, Some(Unread::NotUnderstood), "{}", line);
    }
}
