//! A list of calls, and what comes of it.

ghost use Rattle.std.specs.Prelude.{◌≡◌, ◌≤◌, ◌++◌, length, drop, IfOk};
ghost use Rattle.view.specs.Answers.{answer, left_in};
ghost use Rattle.sheet.specs.Sites.{sheet_of};
ghost use Rattle.drawer.specs.Calls.{written_for};
ghost use Rattle.inspector.specs.Inspecting.{inspected};
ghost use Rattle.book.specs.Books.{site};
ghost use Rattle.rules.specs.Choices.{choice_answer};
ghost use Rattle.agreement.specs.Calls.{site_after, answers_to};
ghost use Rattle.agreement.specs.Parts.{MovedThroughout, front_of};
ghost use Rattle.agreement.specs.Sheets.{judged};
ghost use Rattle.agreement.specs.Agreement.{Replayed};

use crate::call::{Answer, Call};
use book::{Book, Refusal};
use inspector::inspect;
use rules::Rule;
use rules::levels::choose;
use sheet::LONGEST;
use view::View;

/// What comes of a list of calls.
#[derive(Drop)]
pub struct Outcome {
    /// The book after the calls.
    pub book: Book,
    /// The length of its sheet, or why it has none.
    pub sheet_length: Result<usize, Refusal>,
    /// What the inspector says of that sheet, over the view.
    pub sheet_verdict: Result<(), Refusal>,
    /// What the inspector says of the bytes that were offered, over the view.
    pub offered_verdict: Result<(), Refusal>,
    /// The level that is chosen over the book.
    pub book_level: Result<usize, Refusal>,
    /// The level that is chosen over the view.
    pub view_level: Result<usize, Refusal>,
}

/// Inspects the front of a buffer over a view, unless nothing was written there.
fn inspect_written<V: View>(
    view: &V,
    written: Result<usize, Refusal>,
    buffer: &[u8],
) -> Result<(), Refusal>
    requires { IfOk written (λ n. n ≤ length buffer.now) }
    ensures { result ≡ judged (V.View.site view.now) (front_of buffer.now written) }
{
    inspect(view, &buffer[..written?])
}

impl Outcome {
    /// What comes of a book: its sheet is written and inspected over a view, and so are bytes that are offered; and a level
    /// is chosen by a rule, over the book and over the view.
    fn of<V: View, R: Rule>(
        book: Book,
        view: &V,
        rule: &R,
        offered: &[u8],
        buffer: &mut [u8; LONGEST],
    ) -> Outcome
        ensures book { result.book ≡ book }
        ensures length { let g = site book in result.sheet_length ≡ answer length (written_for g (length buffer.old) (sheet_of g)) }
        ensures buffer { let g = site book in buffer.new ≡ left_in (λ bytes. bytes) (written_for g (length buffer.old) (sheet_of g)) buffer.old }
        ensures sheet { result.sheet_verdict ≡ judged (V.View.site view.now) (front_of buffer.new result.sheet_length) }
        ensures offered { result.offered_verdict ≡ inspected (V.View.site view.now) offered.now }
        ensures book_level { result.book_level ≡ choice_answer (site book) (R.Rule.scores rule.now) (R.Rule.orders rule.now) }
        ensures view_level { result.view_level ≡ choice_answer (V.View.site view.now) (R.Rule.scores rule.now) (R.Rule.orders rule.now) }
    {
        let sheet_length = book.write_out(buffer);
        Outcome {
            sheet_length,
            sheet_verdict: inspect_written(view, sheet_length, buffer),
            offered_verdict: inspect(view, offered),
            book_level: choose(&book, rule),
            view_level: choose(view, rule),
            book,
        }
    }
}

/// Carries out calls on an empty book, one after the other, and notes what each answers in the front of a list.
fn carry_out(calls: &[Call], answers: &mut [Answer]) -> Book
    requires { length calls.now ≤ length answers.old }
    ensures site { site result ≡ site_after calls.now }
    ensures answers { answers.new ≡ answers_to calls.now ++ drop (length calls.now) answers.old }
    ensures moves { MovedThroughout calls.now }
{
    let mut book = Book::new();
    for (i, call) in calls.iter().enumerate() {
        answers[i] = call.carry_out(&mut book);
    }
    book
}

/// Carries out calls on an empty book, one after the other, and notes what each answers in the front of a list. Then the
/// sheet of the book is written and inspected over a view, and so are bytes that are offered; and a level is chosen by a
/// rule, over the book and over the view. Only an answer list that is shorter than the calls is refused, before anything
/// is done.
pub fn replay<V: View, R: Rule>(
    calls: &[Call],
    view: &V,
    rule: &R,
    offered: &[u8],
    answers: &mut [Answer],
    buffer: &mut [u8; LONGEST],
) -> Result<Outcome, Refusal>
    ensures { Replayed calls.now (V.View.site view.now) (R.Rule.scores rule.now) (R.Rule.orders rule.now) offered.now
        answers.old answers.new buffer.old buffer.new result }
{
    if answers.len() < calls.len() {
        return Err(Refusal::BufferShort {
            needed: calls.len(),
        });
    }
    let book = carry_out(calls, answers);
    Ok(Outcome::of(book, view, rule, offered, buffer))
}
