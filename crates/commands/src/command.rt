//! The commands of the console.

ghost use Rattle.std.specs.Prelude.{◌≡◌, IfOk, vec_items};
ghost use Rattle.commands.specs.Meanings.{Meant, giving};
ghost use Rattle.commands.specs.Numerals.{bytes_of};
ghost use Rattle.commands.specs.Wishes.{asked, called, lists_of, tables_of, wish_in, wish_of, wish_of_call, wish_of_question, wish_of_tables, words_in};

use crate::hexadecimal::decode;
use crate::lists::{before_slash, read_number, read_numbers};
use crate::name::Name;
use crate::scoring::Scoring;
use crate::unread::Unread;
use std::alloc::{AllocError, Global};
use text::Tokens;

/// A command that may alter the book.
#[derive(Debug, Drop)]
pub enum BookCall {
    /// `lay out N`
    LayOut { stations: usize },
    /// `link A B`
    Link { a: usize, b: usize },
    /// `unlink A B`
    Unlink { a: usize, b: usize },
    /// `survey HEX`
    ReadSurvey { text: Vec<u8> },
}

impl BookCall {
    /// The call that a name and the words behind it ask for.
    fn read(heap: Global, name: Name, words: &[&[u8]]) -> Result<BookCall, Unread>
        ensures { Meant (called name (bytes_of words.now)) (giving wish_of_call result) }
    {
        match (name, words) {
            (Name::LayOut, [stations]) => Ok(BookCall::LayOut {
                stations: read_number(stations)?,
            }),
            (Name::Link, [a, b]) => Ok(BookCall::Link {
                a: read_number(a)?,
                b: read_number(b)?,
            }),
            (Name::Unlink, [a, b]) => Ok(BookCall::Unlink {
                a: read_number(a)?,
                b: read_number(b)?,
            }),
            (Name::Survey, [digits]) => Ok(BookCall::ReadSurvey {
                text: decode(heap, digits)?,
            }),
            _ => Err(Unread::NotUnderstood),
        }
    }
}

/// The four tables of a plan, 65,535 for no up.
#[derive(Debug, Drop)]
pub struct Tables {
    pub numbers: Vec<u16>,
    pub homes: Vec<u16>,
    pub ups: Vec<u16>,
    pub order: Vec<u16>,
}

impl Tables {
    /// The tables that words write, with a `/` between each two.
    fn read(heap: Global, words: &[&[u8]]) -> Result<Tables, Unread>
        ensures { Meant (tables_of (bytes_of words.now)) (giving wish_of_tables result) }
    {
        let (first, words) = before_slash(words)?;
        let (second, words) = before_slash(words)?;
        let (third, fourth) = before_slash(words)?;
        Ok(Tables {
            numbers: read_numbers(heap, first)?,
            homes: read_numbers(heap, second)?,
            ups: read_numbers(heap, third)?,
            order: read_numbers(heap, fourth)?,
        })
    }
}

/// A question: it alters nothing.
#[derive(Debug, Drop)]
pub enum Question {
    /// `numbers`
    Numbers,
    /// `write out`
    WriteOut,
    /// `draw struck S ..`
    Draw { struck: Vec<usize> },
    /// `inspect HEX`
    Inspect { sheet: Vec<u8> },
    /// `cards HEX`
    Cards { sheet: Vec<u8> },
    /// `read HEX`
    Read { sheet: Vec<u8> },
    /// `put A .. / B .. / C .. / D ..`
    Put(Tables),
    /// `tally`
    Tally,
    /// `check listed A .. / B ..`
    CheckListed { starts: Vec<u32>, ends: Vec<u16> },
    /// `check square N HEX`
    CheckSquare { stations: usize, bytes: Vec<u8> },
    /// `choose`, and a scoring rule
    Choose(Scoring),
    /// `agree HEX`, and a scoring rule
    Agree { sheet: Vec<u8>, scoring: Scoring },
}

/// What a line asks for.
#[derive(Debug, Drop)]
pub enum Command {
    /// A call of the book.
    Call(BookCall),
    /// A question.
    Ask(Question),
}

impl Question {
    /// The question that a name and the words behind it ask.
    fn read(heap: Global, name: Name, words: &[&[u8]]) -> Result<Question, Unread>
        ensures { Meant (asked name (bytes_of words.now)) (giving wish_of_question result) }
    {
        match (name, words) {
            (Name::Numbers, []) => Ok(Question::Numbers),
            (Name::WriteOut, []) => Ok(Question::WriteOut),
            (Name::Tally, []) => Ok(Question::Tally),
            (Name::Draw, stations) => Ok(Question::Draw {
                struck: read_numbers(heap, stations)?,
            }),
            (Name::Put, tables) => Ok(Question::Put(Tables::read(heap, tables)?)),
            (Name::Choose, scoring) => Ok(Question::Choose(Scoring::read(scoring)?)),
            (Name::CheckListed, lists) => Question::read_listing(heap, lists),
            (Name::CheckSquare, [stations, digits]) => Ok(Question::CheckSquare {
                stations: read_number(stations)?,
                bytes: decode(heap, digits)?,
            }),
            (Name::Inspect, [digits]) => Ok(Question::Inspect {
                sheet: decode(heap, digits)?,
            }),
            (Name::Cards, [digits]) => Ok(Question::Cards {
                sheet: decode(heap, digits)?,
            }),
            (Name::Read, [digits]) => Ok(Question::Read {
                sheet: decode(heap, digits)?,
            }),
            (Name::Agree, [digits, scoring @ ..]) => Ok(Question::Agree {
                sheet: decode(heap, digits)?,
                scoring: Scoring::read(scoring)?,
            }),
            _ => Err(Unread::NotUnderstood),
        }
    }

    /// The check of two lists, with a `/` between them.
    fn read_listing(heap: Global, words: &[&[u8]]) -> Result<Question, Unread>
        ensures { Meant (lists_of (bytes_of words.now)) (giving wish_of_question result) }
    {
        let (starts, ends) = before_slash(words)?;
        Ok(Question::CheckListed {
            starts: read_numbers(heap, starts)?,
            ends: read_numbers(heap, ends)?,
        })
    }
}

/// The words of a line.
fn words_of(heap: Global, line: &[u8]) -> Result<Vec<&[u8]>, AllocError>
    ensures { IfOk result (λ words. bytes_of (vec_items words) ≡ words_in line.now) }
{
    let mut words = Vec::new(heap);
    for token in Tokens::new(line) {
        words.push(token.bytes)?;
    }
    Ok(words)
}

impl Command {
    /// The command that a line writes, its words parted by spaces.
    pub fn read(heap: Global, line: &[u8]) -> Result<Command, Unread>
        ensures { Meant (wish_in line.now) (giving wish_of result) }
    {
        let words = words_of(heap, line)?;
        let (name, words) = Name::of(words.as_slice()).ok_or(Unread::NotUnderstood)?;
        match name {
            Name::LayOut | Name::Link | Name::Unlink | Name::Survey => {
                Ok(Command::Call(BookCall::read(heap, name, words)?))
            }
            _ => Ok(Command::Ask(Question::read(heap, name, words)?)),
        }
    }
}
