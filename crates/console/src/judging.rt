//! What is judged: sheets over the book, and tables of links.

ghost use Rattle.std.specs.Prelude.{◌≡◌};
ghost use Rattle.book.specs.Books.{site};
ghost use Rattle.commands.specs.Wording.{answered};
ghost use Rattle.inspector.specs.Inspecting.{inspected};
ghost use Rattle.view.specs.Checked.{checked};
ghost use Rattle.view.specs.GridChecked.{checked as bits_checked};

use book::Book;
use commands::Answer;
use inspector::inspect;
use view::listed::Listing;
use view::square::Grid;

/// The verdict on a sheet over the book.
pub(crate) fn inspection(book: &Book, sheet: &[u8]) -> Answer<'static>
    ensures { result ≡ answered (inspected (site book.now) sheet.now) }
{
    Answer::of(inspect(book, sheet))
}

/// The verdict on two lists of links.
pub(crate) fn check_listing(starts: &[u32], ends: &[u16]) -> Answer<'static>
    ensures { result ≡ answered (checked (record { starts = starts.now; ends = ends.now })) }
{
    Answer::of(Listing { starts, ends }.check())
}

/// The verdict on rows of bits.
pub(crate) fn check_grid(stations: usize, bytes: &[u8]) -> Answer<'static>
    ensures { result ≡ answered (bits_checked (record { stations = stations; bytes = bytes.now })) }
{
    Answer::of(Grid { stations, bytes }.check())
}
