//! The words of a survey.

ghost use Rattle.std.specs.Prelude.{◌≡◌, MatchOption};
ghost use Rattle.text.specs.Cursors.{part_of};
ghost use Rattle.text.specs.Laws.{Stands};
ghost use Rattle.survey.specs.Words.{IsWord, IsNoWord, IsFirst, IsNoFirst, number_of, lead_of};

use text::{Token, decimal};

/// A word of a survey line, with its bytes there.
#[derive(Clone, Copy, PartialEq, Eq, Debug)]
pub(crate) enum Word<'a> {
    /// A letter by itself.
    Letter(&'a [u8]),
    /// A number: one to three digits.
    Number(&'a [u8]),
    /// A comment: all from a `#` on. It begins a line, and is its only word.
    Comment(&'a [u8]),
}

impl<'a> Word<'a> {
    /// The word that some bytes of a line are, if they are one. Behind the first word there is no comment.
    pub(crate) fn read(bytes: &'a [u8]) -> Option<Word<'a>>
        ensures { MatchOption result (IsNoWord bytes.now) (λ word. IsWord word bytes.now) }
    {
        if bytes.len() == 1 && bytes[0].is_ascii_alphabetic() {
            return Some(Word::Letter(bytes));
        }
        decimal(bytes, 3).map(|_| Word::Number(bytes))
    }

    /// The word that a line begins with, if it is one.
    pub(crate) fn first(line: &'a [u8], token: Token<'a>) -> Option<Word<'a>>
        requires { Stands line.now (part_of token) }
        ensures { MatchOption result (IsNoFirst (part_of token.entry)) (λ word. IsFirst word line.now (part_of token.entry)) }
    {
        if token.bytes.first() == Some(&b'#') {
            return Some(Word::Comment(&line[token.byte - 1..]));
        }
        Word::read(token.bytes)
    }

    /// The value of a number; other words have none.
    pub(crate) fn value(self) -> Option<u16>
        ensures { result ≡ number_of self.entry }
    {
        match self {
            Word::Number(digits) => decimal(digits, 3),
            Word::Letter(_) | Word::Comment(_) => None,
        }
    }

    /// The first byte of a letter or a comment; a number leads no line.
    pub(crate) fn lead(self) -> Option<u8>
        ensures { result ≡ lead_of self.entry }
    {
        match self {
            Word::Letter(bytes) | Word::Comment(bytes) => bytes.first().copied(),
            Word::Number(_) => None,
        }
    }
}
