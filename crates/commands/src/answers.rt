//! The lines that answer commands, without their ends.

ghost use Rattle.std.specs.Prelude.{◌≡◌, Some};
ghost use Rattle.commands.specs.Wording.{told, answered, report_told, verdict_told, level_told};

use crate::hexadecimal::Hexadecimal;
use refusals::Refusal;
use std::fmt;
use survey::{Report, Spot, SurveyFault};
use transcript::Stations;

/// A line that answers a command.
#[derive(Clone, Copy, PartialEq, Eq, Debug)]
pub enum Answer<'a> {
    /// `ok`
    Done,
    /// `refused N place P`
    Refused(Refusal),
    /// `refused N place P layer Y line L byte B`
    SurveyRefused(SurveyFault),
    /// `numbers: k k ..`
    Numbers(&'a [u16]),
    /// `sheet HEX`
    Sheet(&'a [u8]),
    /// `cards HEX`
    Cards(&'a [u8]),
    /// `tables n: A .. / B .. / C .. / D ..`
    Tables {
        numbers: &'a [u16],
        homes: &'a [u16],
        ups: &'a [u16],
        order: &'a [u16],
    },
    /// `chosen K`
    Chosen(usize),
    /// `book's sheet: passed`, or `book's sheet: ` and the line of the refusal
    BookSheet(Result<(), Refusal>),
    /// `offered: passed`, or `offered: ` and the line of the refusal
    Offered(Result<(), Refusal>),
    /// `chosen by book K, by view K`, with the line of a refusal in the place of its level
    ChosenByBoth {
        book: Result<usize, Refusal>,
        view: Result<usize, Refusal>,
    },
}

impl Answer<'_> {
    /// The answer to a call that answers nothing more.
    pub fn of(outcome: Result<(), Refusal>) -> Answer<'static>
        ensures { result ≡ answered outcome }
    {
        match outcome {
            Ok(()) => Answer::Done,
            Err(refusal) => Answer::Refused(refusal),
        }
    }
}

impl fmt::Display for Answer<'_> {
    ghost output = { λ answer. Some (told answer) };

    fn fmt<W: fmt::Write>(&self, f: &mut fmt::Formatter<W>) -> fmt::Result {
        match *self {
            Answer::Done => write!(f, "ok"),
            Answer::Refused(refusal) => write!(f, "{refusal}"),
            Answer::SurveyRefused(fault) => write!(f, "{}", Reported(fault.report())),
            Answer::Numbers(numbers) => write!(f, "numbers:{}", Stations(numbers)),
            Answer::Sheet(bytes) => write!(f, "sheet {}", Hexadecimal(bytes)),
            Answer::Cards(bytes) => write!(f, "cards {}", Hexadecimal(bytes)),
            Answer::Tables {
                numbers,
                homes,
                ups,
                order,
            } => {
                let stations = numbers.len();
                let (numbers, homes) = (Stations(numbers), Stations(homes));
                let (ups, order) = (Stations(ups), Stations(order));
                write!(f, "tables {stations}:{numbers} /{homes} /{ups} /{order}")
            }
            Answer::Chosen(level) => write!(f, "chosen {level}"),
            Answer::BookSheet(verdict) => write!(f, "book's sheet: {}", Verdict(verdict)),
            Answer::Offered(verdict) => write!(f, "offered: {}", Verdict(verdict)),
            Answer::ChosenByBoth { book, view } => {
                write!(f, "chosen by book {}, by view {}", Level(book), Level(view))
            }
        }
    }
}

/// What is told of a survey that is turned down, with the place.
#[derive(Clone, Copy)]
struct Reported(Report);

impl fmt::Display for Reported {
    ghost output = { λ reported. Some (report_told reported.0) };

    fn fmt<W: fmt::Write>(&self, f: &mut fmt::Formatter<W>) -> fmt::Result {
        let Report {
            refusal,
            layer,
            spot,
        } = self.0;
        let layer = layer.number();
        let Spot { line, byte } = spot;
        write!(f, "{refusal} layer {layer} line {line} byte {byte}")
    }
}

/// `passed`, or the line of the refusal.
#[derive(Clone, Copy)]
struct Verdict(Result<(), Refusal>);

impl fmt::Display for Verdict {
    ghost output = { λ verdict. Some (verdict_told verdict.0) };

    fn fmt<W: fmt::Write>(&self, f: &mut fmt::Formatter<W>) -> fmt::Result {
        match self.0 {
            Ok(()) => write!(f, "passed"),
            Err(refusal) => write!(f, "{refusal}"),
        }
    }
}

/// A level, or the line of the refusal.
#[derive(Clone, Copy)]
struct Level(Result<usize, Refusal>);

impl fmt::Display for Level {
    ghost output = { λ level. Some (level_told level.0) };

    fn fmt<W: fmt::Write>(&self, f: &mut fmt::Formatter<W>) -> fmt::Result {
        match self.0 {
            Ok(level) => write!(f, "{level}"),
            Err(refusal) => write!(f, "{refusal}"),
        }
    }
}
