//! Reads a survey.

ghost use Rattle.std.specs.Prelude.{◌≡◌, ◌≤◌, true, is_err, length};
ghost use Rattle.std.specs.Result.{result_unwrap_or};
ghost use Rattle.text.specs.Texts.{lines};
ghost use Rattle.book.specs.Books.{site};
ghost use Rattle.survey.specs.Surveys.{lines_read, survey_read};
ghost use Rattle.survey.specs.Reached.{answered, reached};

use crate::faults::SurveyFault;
use crate::line::Line;
use book::{Book, View};
use text::Lines;

/// The longest text that is read, in bytes.
pub const LONGEST: usize = 60_000;

/// Reads the lines of a survey into a book.
fn read_lines(text: &[u8], book: &mut Book) -> Result<(), SurveyFault>
    ensures { reached result (site book.new) ≡ lines_read 1 (site book.old) (lines text.now) }
{
    for (i, bytes) in Lines::new(text).enumerate() {
        Line {
            number: i + 1,
            bytes,
        }
        .read(book)?;
    }
    Ok(())
}

/// Reads a survey. The book then holds the site that the survey says, in place of what it held.
pub fn read_survey(book: &mut Book, text: &[u8]) -> Result<(), SurveyFault>
    ensures answer { result ≡ answered (survey_read text.now) }
    ensures site { site book.new ≡ result_unwrap_or (survey_read text.now) (site book.old) }
    ensures unaltered { is_err result ≡ true → book.new ≡ book.old }
{
    if text.len() > LONGEST {
        return Err(SurveyFault::TooLong);
    }
    let mut draft = Book::new();
    read_lines(text, &mut draft)?;
    if draft.stations() == 0 {
        return Err(SurveyFault::NoSize);
    }
    *book = draft;
    Ok(())
}
