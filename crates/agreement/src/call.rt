//! Calls of a book as values.

ghost use Rattle.std.specs.Prelude.{◌≡◌};
ghost use Rattle.agreement.specs.declared.call.CallRefusal.TheVariants.{Book as ByBook, Survey as ByReader};

use book::{Book, Refusal};
use survey::{SurveyFault, read_survey};

/// A call of a book.
#[derive(Clone, Copy, PartialEq, Eq, Debug)]
pub enum Call<'a> {
    /// Begins the book anew, for so many stations.
    LayOut { stations: usize },
    /// Sets the link between two stations.
    Link { a: usize, b: usize },
    /// Takes away the link between two stations.
    Unlink { a: usize, b: usize },
    /// Takes up the site that a survey says.
    ReadSurvey { text: &'a [u8] },
}

/// Why a call is turned down.
#[derive(Clone, Copy, PartialEq, Eq, Debug)]
pub enum CallRefusal {
    /// The book refuses it.
    Book(Refusal),
    /// The reader of surveys does.
    Survey(SurveyFault),
}

/// What a call answers.
pub type Answer = Result<(), CallRefusal>;

impl From<Refusal> for CallRefusal {
    ghost from_gives = { λ refusal r. r ≡ ByBook refusal };

    fn from(refusal: Refusal) -> CallRefusal {
        CallRefusal::Book(refusal)
    }
}

impl From<SurveyFault> for CallRefusal {
    ghost from_gives = { λ fault r. r ≡ ByReader fault };

    fn from(fault: SurveyFault) -> CallRefusal {
        CallRefusal::Survey(fault)
    }
}

impl Call<'_> {
    ghost use Rattle.book.specs.Books.{site};
    ghost use Rattle.agreement.specs.Calls.{answer_to, after_call};
    ghost use Rattle.agreement.specs.Parts.{Moves};

    /// Carries the call out on a book.
    pub(crate) fn carry_out(&self, book: &mut Book) -> Answer
        ensures answer { result ≡ answer_to self.now (site book.old) }
        ensures site { site book.new ≡ after_call self.now (site book.old) }
        ensures moves { Moves self.now (site book.old) (site book.new) }
    {
        match self {
            Call::LayOut { stations } => book.lay_out(*stations)?,
            Call::Link { a, b } => book.link(*a, *b)?,
            Call::Unlink { a, b } => book.unlink(*a, *b)?,
            Call::ReadSurvey { text } => read_survey(book, text)?,
        }
        Ok(())
    }
}
