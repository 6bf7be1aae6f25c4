//! Why a text could not be read.

ghost use Rattle.std.specs.Prelude.{◌≡◌, Some};
ghost use Rattle.tables.specs.declared.fault.Unread.TheVariants.{NoMemory};
ghost use Rattle.tables.specs.Told.{told};

use std::alloc::{AllocError, AllocFailed};
use std::error::Error;
use std::fmt;

#[derive(Clone, Copy, PartialEq, Eq, Debug)]
pub enum Unread {
    /// More than a million bytes.
    TooLong,
    /// A word is no number of a station; its line and its first byte, both counted from 1.
    NotAStation { line: usize, byte: usize },
    NoMemory,
}

impl From<AllocError> for Unread {
    ghost from_gives = { λ _ r. r ≡ NoMemory };

    fn from(_e: AllocError) -> Unread {
        Unread::NoMemory
    }
}

// One impl for both errors is no plainer: it wants a trait of its own, and an impl of that for each.
impl<T: Drop> From<AllocFailed<T>> for Unread {
    ghost from_gives = { λ _ r. r ≡ NoMemory };

    fn from(_e: AllocFailed<T>) -> Unread {
        Unread::NoMemory
    }
}

impl fmt::Display for Unread {
    ghost output = { λ u. Some (told u) };

    fn fmt<W: fmt::Write>(&self, f: &mut fmt::Formatter<W>) -> fmt::Result {
        match *self {
            Unread::TooLong => write!(f, "input too long"),
            Unread::NotAStation { line, byte } => {
                write!(f, "line {line} byte {byte}: not a station")
            }
            Unread::NoMemory => write!(f, "out of memory"),
        }
    }
}

impl Error for Unread {}
