//! Why a line could not be read.

ghost use Rattle.std.specs.Prelude.{◌≡◌, Some};
ghost use Rattle.commands.specs.declared.unread.Unread.TheVariants.{NoMemory};
ghost use Rattle.commands.specs.Wording.{unread};

use std::alloc::{AllocError, AllocFailed};
use std::error::Error;
use std::fmt;

/// Why a line could not be read.
#[derive(Clone, Copy, PartialEq, Eq, Debug)]
pub enum Unread {
    /// It is no command.
    NotUnderstood,
    /// Memory is lacking for what it says.
    NoMemory,
}

impl From<AllocError> for Unread {
    ghost from_gives = { λ _ r. r ≡ NoMemory };

    fn from(_e: AllocError) -> Unread {
        Unread::NoMemory
    }
}

// One impl for both errors is no plainer: it wants a trait of its own, and an impl of that for each.
impl<T: Drop> From<AllocFailed<T>> for Unread {
    ghost from_gives = { λ _ r. r ≡ NoMemory };

    fn from(_e: AllocFailed<T>) -> Unread {
        Unread::NoMemory
    }
}

impl fmt::Display for Unread {
    ghost output = { λ why. Some (unread why) };

    fn fmt<W: fmt::Write>(&self, f: &mut fmt::Formatter<W>) -> fmt::Result {
        match *self {
            Unread::NotUnderstood => write!(f, "not understood"),
            Unread::NoMemory => write!(f, "out of memory"),
        }
    }
}

impl Error for Unread {}
