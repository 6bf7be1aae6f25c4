//! The calls that alter the book.

ghost use Rattle.std.specs.Prelude.{◌≡◌};
ghost use Rattle.book.specs.Books.{site};
ghost use Rattle.commands.specs.Wishes.{wish_of_call};
ghost use Rattle.console.specs.Calls.{answer_to, site_after};

use book::Book;
use commands::{Answer, BookCall};
use survey::read_survey;

/// Carries out a call on a book.
pub(crate) fn carry_out(book: &mut Book, call: &BookCall) -> Answer<'static>
    ensures answer { result ≡ answer_to call.now (site book.old) }
    ensures site { site book.new ≡ site_after (wish_of_call call.now) (site book.old) }
{
    match call {
        BookCall::LayOut { stations } => Answer::of(book.lay_out(*stations)),
        BookCall::Link { a, b } => Answer::of(book.link(*a, *b)),
        BookCall::Unlink { a, b } => Answer::of(book.unlink(*a, *b)),
        BookCall::ReadSurvey { text } => match read_survey(book, text.as_slice()) {
            Ok(()) => Answer::Done,
            Err(fault) => Answer::SurveyRefused(fault),
        },
    }
}
