//! What can be wrong with a survey, and what is told of it.

ghost use Rattle.std.specs.Prelude.{◌≡◌, Some};
ghost use Rattle.survey.specs.declared.faults.LineFault.TheVariants.{Book as InBook};
ghost use Rattle.survey.specs.declared.faults.SurveyFault.TheVariants.{Line as InLine};
ghost use Rattle.survey.specs.Reports.{layer_number, line_report, survey_report, report_line, refusal_line};

use book::Refusal;
use std::error::Error;
use std::fmt;

/// A place in a survey: a line, and a byte of it, both counted from 1. The survey as a whole is line 0 and byte 0.
#[derive(Clone, Copy, PartialEq, Eq, Debug)]
pub struct Spot {
    pub line: usize,
    pub byte: usize,
}

/// The book refuses a size or a link, at the word that it is asked for by.
#[derive(Clone, Copy, PartialEq, Eq, Debug)]
pub struct BookFault {
    pub spot: Spot,
    pub refusal: Refusal,
}

/// What is wrong with a line.
#[derive(Clone, Copy, PartialEq, Eq, Debug)]
pub enum LineFault {
    /// A letter or a word is not what has to stand there.
    WrongWord(Spot),
    /// There are too few or too many words.
    WrongCount { line: usize },
    /// The size comes a second time, or links before it.
    Misplaced { line: usize },
    /// The book refuses what the line says.
    Book(BookFault),
}

/// What is wrong with a survey.
#[derive(Clone, Copy, PartialEq, Eq, Debug)]
pub enum SurveyFault {
    /// It has more than 60,000 bytes.
    TooLong,
    /// It says nothing of a site.
    NoSize,
    /// One of its lines is wrong.
    Line(LineFault),
}

impl From<BookFault> for LineFault {
    ghost from_gives = { λ book r. r ≡ InBook book };

    fn from(book: BookFault) -> LineFault {
        LineFault::Book(book)
    }
}

impl From<LineFault> for SurveyFault {
    ghost from_gives = { λ line r. r ≡ InLine line };

    fn from(line: LineFault) -> SurveyFault {
        SurveyFault::Line(line)
    }
}

/// What turns a survey down: its words, its lines, or the book.
#[derive(Clone, Copy, PartialEq, Eq, Debug)]
pub enum Layer {
    Word,
    Line,
    Book,
}

impl Layer {
    /// 1 for words, 2 for lines, 3 for the book.
    pub fn number(self) -> u8
        ensures { result ≡ layer_number self }
    {
        match self {
            Layer::Word => 1,
            Layer::Line => 2,
            Layer::Book => 3,
        }
    }
}

/// What is told of a survey that is turned down: the refusal, with its number and place, what turns it down, and where.
#[derive(Clone, Copy, PartialEq, Eq, Debug)]
pub struct Report {
    pub refusal: Refusal,
    pub layer: Layer,
    pub spot: Spot,
}

impl LineFault {
    /// What is told of it.
    fn report(self) -> Report
        ensures { result ≡ line_report self }
    {
        match self {
            LineFault::WrongWord(spot) => Report {
                refusal: Refusal::TextOutOfForm,
                layer: Layer::Word,
                spot,
            },
            LineFault::WrongCount { line } => Report {
                refusal: Refusal::TextOutOfForm,
                layer: Layer::Line,
                spot: Spot { line, byte: 1 },
            },
            LineFault::Misplaced { line } => Report {
                refusal: Refusal::SizeLineMisplaced,
                layer: Layer::Line,
                spot: Spot { line, byte: 1 },
            },
            LineFault::Book(fault) => Report {
                refusal: fault.refusal,
                layer: Layer::Book,
                spot: fault.spot,
            },
        }
    }
}

impl SurveyFault {
    /// What is told of it.
    pub fn report(self) -> Report
        ensures { result ≡ survey_report self }
    {
        match self {
            SurveyFault::TooLong => Report {
                refusal: Refusal::TextTooLong,
                layer: Layer::Line,
                spot: Spot { line: 0, byte: 0 },
            },
            SurveyFault::NoSize => Report {
                refusal: Refusal::SizeLineMisplaced,
                layer: Layer::Line,
                spot: Spot { line: 0, byte: 0 },
            },
            SurveyFault::Line(fault) => fault.report(),
        }
    }

    /// The line that tells it.
    pub fn refusal_line(self) -> RefusalLine
        ensures { result.0 ≡ self }
    {
        RefusalLine(self)
    }
}

/// `refused N layer Y line L byte B`.
impl fmt::Display for SurveyFault {
    ghost output = { λ fault. Some (report_line (survey_report fault)) };

    fn fmt<W: fmt::Write>(&self, f: &mut fmt::Formatter<W>) -> fmt::Result {
        let Report {
            refusal,
            layer,
            spot,
        } = self.report();
        let number = refusal.number();
        let layer = layer.number();
        let Spot { line, byte } = spot;
        write!(f, "refused {number} layer {layer} line {line} byte {byte}")
    }
}

impl Error for SurveyFault {}

/// The line that tells what is wrong with a survey, with an LF at its end.
#[derive(Clone, Copy, PartialEq, Eq, Debug)]
pub struct RefusalLine(SurveyFault);

impl fmt::Display for RefusalLine {
    ghost output = { λ line. Some (refusal_line line.0) };

    fn fmt<W: fmt::Write>(&self, f: &mut fmt::Formatter<W>) -> fmt::Result {
        let fault = self.0;
        write!(f, "{fault}\n")
    }
}
