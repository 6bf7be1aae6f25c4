//! Reads commands from standard input, one a line, and carries each out on one book, which is empty at first. For each it
//! prints the line, and then the answer.
#![tactic(auto)]

ghost use Rattle.std.specs.Prelude.{◌≡◌, [], ◌∷◌, ◌++◌, IfOk, vec_items};
ghost use Rattle.text.specs.Texts.{lines};
ghost use Rattle.cores.specs.Site.{no_stations};
ghost use Rattle.book.specs.Books.{site};
ghost use Rattle.commands.specs.Wishes.{wish_of_call};
ghost use Rattle.console.specs.Calls.{site_after, site_after_line, site_after_lines};

mod agreeing;
mod calls;
mod choosing;
mod judging;
mod planning;
mod telling;

use agreeing::tell_agreement;
use book::Book;
use calls::carry_out;
use commands::{BookCall, Command, Question, Unread};
use judging::{check_grid, check_listing, inspection};
use std::io::Read;
use std::process::ExitCode;
use telling::{
    tell_cards, tell_choice, tell_drawn, tell_levels, tell_numbers, tell_put, tell_tables,
    tell_written,
};
use text::Lines;

/// The longest input that is read, in bytes.
const LONGEST: usize = 1_000_000_000;

/// The book, and the calls that made it.
#[derive(Drop)]
struct Desk {
    book: Book,
    calls: Vec<BookCall>,
}

impl Desk {
    /// Carries out a call, notes it, and tells the answer to it.
    fn call(&mut self, rt: &impl Print, call: BookCall) -> anyhow::Result<()>
        ensures book { IfOk result (λ _. site self.new.book ≡ site_after (wish_of_call call) (site self.old.book)) }
        ensures calls { IfOk result (λ _. vec_items self.new.calls ≡ vec_items self.old.calls ++ (call ∷ [])) }
    {
        let answer = carry_out(&mut self.book, &call);
        self.calls.push(call)?;
        rt.println(answer)?;
        Ok(())
    }

    /// Tells the answer to a question.
    fn answer(&self, rt: &HostRuntime, question: &Question) -> anyhow::Result<()> {
        let book = &self.book;
        match question {
            Question::Numbers => tell_numbers(rt, book)?,
            Question::WriteOut => tell_written(rt, book)?,
            Question::Draw { struck } => tell_drawn(rt, book, struck)?,
            Question::Inspect { sheet } => rt.println(inspection(book, sheet))?,
            Question::Cards { sheet } => tell_cards(rt, book, sheet)?,
            Question::Read { sheet } => tell_tables(rt, sheet)?,
            Question::Put(tables) => tell_put(rt, tables)?,
            Question::Tally => tell_levels(rt, book)?,
            Question::CheckListed { starts, ends } => rt.println(check_listing(starts, ends))?,
            Question::CheckSquare { stations, bytes } => rt.println(check_grid(*stations, bytes))?,
            Question::Choose(scoring) => tell_choice(rt, book, *scoring)?,
            Question::Agree { sheet, scoring } => tell_agreement(rt, self, *scoring, sheet)?,
        }
        Ok(())
    }
}

/// Carries out what a line asks for. The line is told first, as it stands.
fn answer_line(rt: &HostRuntime, desk: &mut Desk, line: &[u8]) -> anyhow::Result<()>
    ensures { IfOk result (λ _. site desk.new.book ≡ site_after_line line.now (site desk.old.book)) }
{
    rt.write_all(b"> ")?;
    rt.write_all(line)?;
    rt.write_all(b"\n")?;
    match Command::read(rt.alloc(), line) {
        Ok(Command::Call(call)) => desk.call(rt, call),
        Ok(Command::Ask(question)) => desk.answer(rt, &question),
        Err(Unread::NotUnderstood) => Ok(rt.println(Unread::NotUnderstood)?),
        Err(why) => Err(why.into()),
    }
}

/// Carries out what the lines of a text ask for, on a book that has no stations at first. Gives that book.
fn answer_lines(rt: &HostRuntime, text: &[u8]) -> anyhow::Result<Book>
    ensures { IfOk result (λ book. site book ≡ site_after_lines (lines text.now) no_stations) }
{
    let mut desk = Desk {
        book: Book::new(),
        calls: Vec::new(rt.alloc()),
    };
    for line in Lines::new(text) {
        answer_line(rt, &mut desk, line)?;
    }
    let Desk { book, calls: _ } = desk;
    Ok(book)
}

/// Reads standard input to its end, and carries out what its lines ask for.
fn run(rt: &HostRuntime) -> anyhow::Result<()> {
    let mut text = Vec::new(rt.alloc());
    // one byte more, so that a longer one is seen
    rt.stdin().take(LONGEST as u64 + 1).read_to_end(&mut text)?;
    if text.len() > LONGEST {
        anyhow::bail!("input too long");
    }
    answer_lines(rt, text.as_slice())?;
    Ok(())
}

fn main(rt: HostRuntime) -> ExitCode {
    // whatever goes wrong, nothing is written to standard error
    match run(&rt) {
        Ok(()) => ExitCode::SUCCESS,
        Err(_) => ExitCode::FAILURE,
    }
}
