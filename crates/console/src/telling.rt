//! Answers that are more than one value: they are told from tables and buffers.

ghost use Rattle.std.specs.Prelude.{◌≤◌, length, IfOk};

use crate::choosing::choose_by;
use crate::planning::{draw_struck, issue_cards};
use book::{Book, Refusal};
use commands::{Answer, Scoring, Tables};
use rules::Counts;
use rules::levels::tally;
use transcript::Line;
use view::View;
use view::counts::admit;

/// Tells the bytes that were written to the front of a buffer as a sheet, or why there are none.
fn tell_sheet(rt: &impl Print, written: Result<usize, Refusal>, buffer: &[u8]) -> anyhow::Result<()>
    requires { IfOk written (λ n. n ≤ length buffer.now) }
{
    match written {
        Ok(length) => rt.println(Answer::Sheet(&buffer[..length]))?,
        Err(refusal) => rt.println(Answer::Refused(refusal))?,
    }
    Ok(())
}

/// Tells the sheet of the book.
pub(crate) fn tell_written(rt: &impl Print, book: &Book) -> anyhow::Result<()> {
    let mut buffer = [0; sheet::LONGEST];
    let written = book.write_out(&mut buffer);
    tell_sheet(rt, written, &buffer)
}

/// Tells the sheet of the book's view with some stations struck.
pub(crate) fn tell_drawn(rt: &impl Print, book: &Book, struck: &[usize]) -> anyhow::Result<()> {
    let mut buffer = [0; sheet::LONGEST];
    let written = draw_struck(book, struck, &mut buffer);
    tell_sheet(rt, written, &buffer)
}

/// Tells the sheet of four tables.
pub(crate) fn tell_put(rt: &impl Print, tables: &Tables) -> anyhow::Result<()> {
    let Tables {
        numbers,
        homes,
        ups,
        order,
    } = tables;
    let mut buffer = [0; sheet::LONGEST];
    let written = sheet::put(numbers, homes, ups, order, &mut buffer);
    tell_sheet(rt, written, &buffer)
}

/// Tells the route cards of a sheet that is offered over the book.
pub(crate) fn tell_cards(rt: &impl Print, book: &Book, sheet: &[u8]) -> anyhow::Result<()> {
    let mut buffer = [0; cards::LONGEST];
    match issue_cards(book, sheet, &mut buffer) {
        Ok(length) => rt.println(Answer::Cards(&buffer[..length]))?,
        Err(refusal) => rt.println(Answer::Refused(refusal))?,
    }
    Ok(())
}

/// Tells the numbers that the book holds.
pub(crate) fn tell_numbers(rt: &impl Print, book: &Book) -> anyhow::Result<()> {
    let numbers: [u16; 512] = std::array::from_fn(|s| book.number(s).unwrap_or(0));
    let stations = book.stations();
    match admit(stations) {
        Ok(()) => rt.println(Answer::Numbers(&numbers[..stations]))?,
        Err(refusal) => rt.println(Answer::Refused(refusal))?,
    }
    Ok(())
}

/// Tells the tables of a sheet.
pub(crate) fn tell_tables(rt: &impl Print, sheet: &[u8]) -> anyhow::Result<()> {
    let mut numbers = [0; 512];
    let mut homes = [0; 512];
    let mut ups = [0; 512];
    let mut order = [0; 512];
    match sheet::read(sheet, &mut numbers, &mut homes, &mut ups, &mut order) {
        Ok(stations) => rt.println(Answer::Tables {
            numbers: &numbers[..stations],
            homes: &homes[..stations],
            ups: &ups[..stations],
            order: &order[..stations],
        })?,
        Err(refusal) => rt.println(Answer::Refused(refusal))?,
    }
    Ok(())
}

/// Tells the levels of the book, from 0 up.
pub(crate) fn tell_levels(rt: &impl Print, book: &Book) -> anyhow::Result<()> {
    let mut levels = [Counts::default(); 512];
    let count = match tally(book, &mut levels) {
        Ok(count) => count,
        Err(refusal) => return Ok(rt.println(Answer::Refused(refusal))?),
    };
    for (level, counts) in levels[..count].iter().enumerate() {
        rt.println(Line::Level {
            level,
            members: counts.members,
            inside: counts.inside,
            boundary: counts.boundary,
        })?;
    }
    Ok(())
}

/// Tells the level that a named rule chooses over the book.
pub(crate) fn tell_choice(rt: &impl Print, book: &Book, scoring: Scoring) -> anyhow::Result<()> {
    match choose_by(book, scoring) {
        Ok(level) => rt.println(Answer::Chosen(level))?,
        Err(refusal) => rt.println(Answer::Refused(refusal))?,
    }
    Ok(())
}
