//! Lines, words and numbers of a text, and the tables that texts write.

use std::test::Fail;
use tables::Unread;
use text::{Lines, Token, Tokens, decimal, natural};

#[test]
fn a_text_has_lines_and_a_line_has_words(rt: HostRuntime) {
    let mut text = Lines::new(b"\n 1  22 ");
    assert_eq!(rt; text.next(), Some(&b""[..]));
    let mut words = Tokens::new(text.next().unwrap_or_default());
    let first = Token {
        byte: 2,
        bytes: b"1",
    };
    let second = Token {
        byte: 5,
        bytes: b"22",
    };
    assert_eq!(rt; words.next(), Some(first));
    assert_eq!(rt; words.next(), Some(second));
    assert_eq!(rt; words.next(), None);
    assert_eq!(rt; text.next(), None);
}

#[test]
fn numbers_are_read(rt: HostRuntime) {
    let cases: [(&str, Option<u16>); 7] = [
        ("0", Some(0)),
        ("00007", Some(7)),
        ("65535", Some(65535)),
        ("65536", None),
        ("000001", None),
        ("", None),
        ("1a", None),
    ];
    for (word, value) in cases {
        assert_eq!(rt; decimal(word.as_bytes(), 5), value, "{}", word);
    }
}

#[test]
fn numbers_of_64_bits_are_read(rt: HostRuntime) {
    let cases: [(&str, Option<usize>); 6] = [
        ("0", Some(0)),
        ("00000000000000000000000000012", Some(12)),
        ("18446744073709551615", Some(usize::MAX)),
        ("18446744073709551616", None),
        ("", None),
        ("+1", None),
    ];
    for (word, value) in cases {
        assert_eq!(rt; natural(word.as_bytes()), value, "{}", word);
    }
}

#[test]
fn tables_are_read(rt: HostRuntime) -> Result<(), Fail> {
    let ring = tables::read(rt.alloc(), b"1 2\n0 2\n0 1")?;
    assert_eq!(rt; ring.listing().starts, &[0, 2, 4, 6][..]);
    assert_eq!(rt; ring.listing().ends, &[1, 2, 0, 2, 0, 1][..]);
    Ok(())
}

#[test]
fn a_text_may_be_too_long(rt: HostRuntime) -> Result<(), Fail> {
    let spaces = vec![in rt.alloc(); b' '; 1_000_001]?;
    let long = tables::read(rt.alloc(), spaces.as_slice()).err();
    assert_eq!(rt; long, Some(Unread::TooLong));
    Ok(())
}
