//! Links set and taken away in a book.

ghost use Rattle.std.specs.Prelude.{◌≡◌, ◌≤◌, ◌++◌, length, drop};
ghost use Rattle.view.specs.Answers.{answer, left_in};
ghost use Rattle.sheet.specs.Sites.{plan_of};
ghost use Rattle.drawer.specs.Calls.{written_for};
ghost use Rattle.book.specs.Books.{site};
ghost use Rattle.planner_c.specs.Replies.{reply};
ghost use Rattle.planner_c.specs.Given.{after_step, book_site};

use crate::reply::Reply;
use book::{Book, Refusal, View};
use view::counts::admit;

/// A link to be set or taken away.
#[repr(C)]
#[derive(Clone, Copy, PartialEq, Eq, Debug)]
pub struct Step {
    pub sets: bool,
    pub a: u16,
    pub b: u16,
}

impl Step {
    /// Sets the link or takes it away. What the book refuses changes nothing.
    fn carry_out(&self, book: &mut Book)
        ensures { site book.new ≡ after_step self.now (site book.old) }
    {
        let (a, b) = (usize::from(self.a), usize::from(self.b));
        let _ = if self.sets {
            book.link(a, b)
        } else {
            book.unlink(a, b)
        };
    }
}

/// A new book, for so many stations, after some steps.
pub(crate) fn book_after(stations: usize, steps: &[Step]) -> Book
    ensures { site result ≡ book_site stations steps.now }
{
    let mut book = Book::new();
    let _ = book.lay_out(stations);
    for step in steps {
        step.carry_out(&mut book);
    }
    book
}

/// Notes the numbers that a book has stored in the front of a table.
fn note_numbers(book: &Book, numbers: &mut [u16])
    requires { (site book.now).size ≤ length numbers.old }
    ensures { let g = site book.now in numbers.new ≡ (plan_of g).numbers ++ drop g.size numbers.old }
{
    for s in 0..book.stations() {
        numbers[s] = book.number(s).unwrap_or(0);
    }
}

/// The numbers that a book has stored, into a table. Answers how many there are.
#[tactic(auto, using(crate::proofs::Steps::numbers_length))]
fn write_numbers(book: &Book, numbers: &mut [u16]) -> Result<usize, Refusal>
    ensures answer { let g = site book.now in
        result ≡ answer length (written_for g (length numbers.old) (plan_of g).numbers) }
    ensures numbers { let g = site book.now in
        numbers.new ≡ left_in (λ numbers. numbers) (written_for g (length numbers.old) (plan_of g).numbers) numbers.old }
{
    let stations = book.stations();
    admit(stations)?;
    if numbers.len() < stations {
        return Err(Refusal::BufferShort { needed: stations });
    }
    note_numbers(book, numbers);
    Ok(stations)
}

/// The numbers of a new book, for so many stations, after some steps; those that it refuses change nothing.
#[unsafe(no_mangle)]
pub extern "C" fn planner_book(stations: usize, steps: &[Step], numbers: &mut [u16]) -> Reply
    ensures answer { let g = book_site stations steps.now in
        result ≡ reply (answer length (written_for g (length numbers.old) (plan_of g).numbers)) }
    ensures numbers { let g = book_site stations steps.now in
        numbers.new ≡ left_in (λ numbers. numbers) (written_for g (length numbers.old) (plan_of g).numbers) numbers.old }
{
    Reply::of(write_numbers(&book_after(stations, steps), numbers))
}
