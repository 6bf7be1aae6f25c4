//! What is turned down: one enum for every call of the planner.
#![tactic(auto)]

ghost use Rattle.std.specs.Prelude.{◌≡◌, Some};
ghost use Rattle.refusals.specs.declared.Refusal.TheVariants.{UnlawfulTable};
ghost use Rattle.refusals.specs.Refusals.{told, row_at_fault, refusal_line};

use std::error::Error;
use std::fmt;

/// Why a table of links is not lawful. The shape is a fault of its own, where an `Option` of a row would say none.
#[derive(Clone, Copy, PartialEq, Eq, Debug)]
pub enum TableFault {
    /// The lists do not fit together, or the station count is outside 1 to 512.
    Shape,
    /// The lowest bad row.
    Row(usize),
}

/// A refusal. It has a number and a place, and leaves everything unaltered.
#[derive(Clone, Copy, PartialEq, Eq, Debug)]
pub enum Refusal {
    /// The station count is not 1 to 512.
    CountOutOfRange,
    /// A station is not on the site, or past the end of a service list.
    OffSite { station: usize },
    /// A link would join a station to itself.
    EqualEnds { station: usize },
    /// The link to be added stands already.
    AlreadyLinked { lower: usize },
    /// The link to be taken away does not stand.
    NotLinked { lower: usize },
    /// An end holds as many links as a station can.
    RowFull { station: usize },
    /// A lent buffer or list is too short.
    BufferShort { needed: usize },
    /// A survey text is out of form.
    TextOutOfForm,
    /// The size line of a survey is missing, late or a second one.
    SizeLineMisplaced,
    /// The bytes are not a sheet: the offset of the first field at fault, their length where they are cut, or the first
    /// extra byte. Or the tables cannot be written as one: the lowest entry at fault.
    NotASheet { place: usize },
    /// A station's number or its place in the order is not supported by the links.
    StationAtFault { station: usize },
    /// A home or an up is not that of the view.
    HomeOrUpWrong { station: usize },
    /// A sheet and a view differ in their station counts.
    CountsDiffer,
    /// A survey text is longer than 60,000 bytes.
    TextTooLong,
    /// A table of links is not lawful.
    UnlawfulTable(TableFault),
}

impl TableFault {
    /// 65,535 for the shape, else the row.
    fn place(&self) -> usize
        ensures { result ≡ row_at_fault self.now }
    {
        match self {
            TableFault::Shape => 65_535,
            TableFault::Row(row) => *row,
        }
    }
}

impl Refusal {
    /// The number of the refusal in the table of refusals. The rules give each one, to be told with its place.
    pub fn number(&self) -> u8
        ensures { result ≡ (told self.now).number }
    {
        match self {
            Refusal::CountOutOfRange => 1,
            Refusal::OffSite { .. } => 2,
            Refusal::EqualEnds { .. } => 3,
            Refusal::AlreadyLinked { .. } => 4,
            Refusal::NotLinked { .. } => 5,
            Refusal::RowFull { .. } => 6,
            Refusal::BufferShort { .. } => 7,
            Refusal::TextOutOfForm => 8,
            Refusal::SizeLineMisplaced => 9,
            Refusal::NotASheet { .. } => 10,
            Refusal::StationAtFault { .. } => 11,
            Refusal::HomeOrUpWrong { .. } => 12,
            Refusal::CountsDiffer => 13,
            Refusal::TextTooLong => 14,
            Refusal::UnlawfulTable(_) => 15,
        }
    }

    /// The place that the refusal names, 0 if it names none, as the rules give it.
    pub fn place(&self) -> usize
        ensures { result ≡ (told self.now).place }
    {
        match self {
            Refusal::OffSite { station }
            | Refusal::EqualEnds { station }
            | Refusal::RowFull { station }
            | Refusal::StationAtFault { station }
            | Refusal::HomeOrUpWrong { station } => *station,
            Refusal::AlreadyLinked { lower } | Refusal::NotLinked { lower } => *lower,
            Refusal::BufferShort { needed } => *needed,
            Refusal::NotASheet { place } => *place,
            Refusal::UnlawfulTable(fault) => fault.place(),
            Refusal::CountOutOfRange
            | Refusal::TextOutOfForm
            | Refusal::SizeLineMisplaced
            | Refusal::CountsDiffer
            | Refusal::TextTooLong => 0,
        }
    }
}

impl From<TableFault> for Refusal {
    ghost from_gives = { λ why r. r ≡ UnlawfulTable why };

    fn from(why: TableFault) -> Refusal {
        Refusal::UnlawfulTable(why)
    }
}

/// `refused R place P`.
impl fmt::Display for Refusal {
    ghost output = { λ e. Some (refusal_line e) };

    fn fmt<W: fmt::Write>(&self, f: &mut fmt::Formatter<W>) -> fmt::Result {
        let number = self.number();
        let place = self.place();
        write!(f, "refused {number} place {place}")
    }
}

impl Error for Refusal {}
