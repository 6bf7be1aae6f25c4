//! Reads a table of neighbours from standard input and judges it. Then it draws the table, or a book that is built from it,
//! inspects what it drew and counts its levels, or it inspects a sheet from a file; and it tells what it finds line by line.
#![tactic(auto)]

ghost use Rattle.std.specs.Prelude.{◌≡◌, IfOk};
ghost use Rattle.std.specs.Process.{exit_status};
ghost use Rattle.tables.specs.Answered.{listing_of};
ghost use Rattle.sheet.specs.Sites.{sheet_of};
ghost use Rattle.inspector.specs.Inspecting.{inspected};
ghost use Rattle.transcript.specs.declared.lines.Line.TheVariants.{Inspected};
ghost use Rattle.text.specs.Texts.{decimal_of};
ghost use Rattle.walkthrough.specs.Arguments.{struck_by, strike_answer};
ghost use Rattle.walkthrough.specs.Ending.{status_of, verdict_on, status_after};

mod linking;

use cards::Offered;
use drawer::Removal;
use inspector::inspect;
use linking::tell_book;
use rules::Counts;
use rules::levels::tally;
use std::fs::File;
use std::io::Read;
use std::process::ExitCode;
use std::{env, fmt};
use tables::Table;
use transcript::Line;
use view::listed::Listed;
use view::service::ServiceList;
use view::struck::Struck;
use view::{NO_UP, View};

/// Tells what a sheet says of each station, and then its bytes.
fn tell_sheet(rt: &impl Print, sheet: &[u8]) -> anyhow::Result<()> {
    let mut numbers = [0; 512];
    let mut homes = [0; 512];
    let mut ups = [0; 512];
    let mut order = [0; 512];
    let stations = sheet::read(sheet, &mut numbers, &mut homes, &mut ups, &mut order)?;
    for station in 0..stations {
        let up = ups[station];
        rt.println(Line::Station {
            station,
            number: numbers[station],
            home: homes[station],
            up: (up != NO_UP).then_some(up),
        })?;
    }
    rt.println(Line::Sheet { bytes: sheet })?;
    Ok(())
}

/// Tells how a view is drawn, station by station as they are removed.
fn tell_removals(rt: &impl Print, view: &impl View) -> anyhow::Result<()> {
    let mut removals = [Removal::default(); 512];
    let stations = drawer::removals(view, &mut removals)?;
    for removal in &removals[..stations] {
        rt.println(Line::Removed {
            station: removal.station,
            left: removal.left,
        })?;
    }
    Ok(())
}

/// The line of the verdict on a sheet over a view.
fn inspection<V: View>(view: &V, sheet: &[u8]) -> Line<'static>
    ensures { result ≡ Inspected (inspected (V.View.site view.now) sheet.now) }
{
    Line::Inspected(inspect(view, sheet))
}

/// Inspects a sheet over a view, and tells the verdict.
fn tell_inspected<V: View>(rt: &impl Print, view: &V, sheet: &[u8]) -> anyhow::Result<ExitCode>
    ensures { IfOk result (λ code. exit_status code ≡ status_of (inspected (V.View.site view.now) sheet.now)) }
{
    let line = inspection(view, sheet);
    rt.println(line)?;
    Ok(match line {
        Line::Inspected(Ok(())) => ExitCode::SUCCESS,
        _ => ExitCode::FAILURE,
    })
}

/// Passes a sheet over a view, and tells the route cards that are issued of it.
fn tell_cards(rt: &impl Print, view: &impl View, sheet: &[u8]) -> anyhow::Result<()> {
    let mut buffer = [0; cards::LONGEST];
    let length = Offered::new(sheet).pass(view)?.issue(&mut buffer)?;
    rt.println(Line::Cards {
        bytes: &buffer[..length],
    })?;
    Ok(())
}

/// Tells the levels of a view, from the top down.
fn tell_levels(rt: &impl Print, view: &impl View) -> anyhow::Result<()> {
    let mut levels = [Counts::default(); 512];
    let count = tally(view, &mut levels)?;
    for (level, counts) in levels[..count].iter().enumerate().rev() {
        rt.println(Line::Level {
            level,
            members: counts.members,
            inside: counts.inside,
            boundary: counts.boundary,
        })?;
    }
    Ok(())
}

/// Tells how a view is drawn, the sheet, what the inspector says of it, the route cards, and the levels.
fn tell_drawn<V: View>(rt: &impl Print, view: &V) -> anyhow::Result<ExitCode>
    ensures { let g = V.View.site view.now in
        IfOk result (λ code. exit_status code ≡ status_of (inspected g (sheet_of g))) }
{
    tell_removals(rt, view)?;
    let mut buffer = [0; sheet::LONGEST];
    let length = drawer::draw(view, &mut buffer)?;
    let sheet = &buffer[..length];
    tell_sheet(rt, sheet)?;
    let code = tell_inspected(rt, view, sheet)?;
    tell_cards(rt, view, sheet)?;
    tell_levels(rt, view)?;
    Ok(code)
}

/// Marks the station that an argument names, or answers the line that tells why it cannot.
fn strike(list: &mut ServiceList, argument: usize, word: &[u8]) -> Result<(), Line<'static>>
    ensures list { list.new ≡ struck_by (decimal_of 5 word.now) list.old }
    ensures answer { result ≡ strike_answer argument (decimal_of 5 word.now) }
{
    let station = text::decimal(word, 5).ok_or(Line::NoStation { argument })?;
    list.mark(usize::from(station))
        .map_err(|refusal| Line::Verdict(Err(refusal)))
}

/// Tells which stations are struck.
fn tell_struck(rt: &impl Print, list: &ServiceList) -> anyhow::Result<()> {
    for station in (0..512).filter(|station| list.is_marked(*station)) {
        rt.println(Line::Struck { station })?;
    }
    Ok(())
}

/// What the program is asked to do with a table.
#[derive(Drop)]
struct Request<'a> {
    /// Whether to build a book from it, link by link.
    by_book: bool,
    /// Which stations to strike.
    list: ServiceList,
    /// The sheet to inspect in place of drawing.
    offered: Option<&'a [u8]>,
}

/// Tells, of a view without the stations that a list marks, what the inspector says of an offered sheet, or else how it is
/// drawn.
fn tell_site<V: View>(rt: &impl Print, view: &V, request: &Request<'_>) -> anyhow::Result<ExitCode>
    ensures { IfOk result (λ code. exit_status code ≡ status_of (verdict_on (V.View.site view.now) request.now)) }
{
    tell_struck(rt, &request.list)?;
    let view = Struck::new(view, &request.list);
    match request.offered {
        Some(sheet) => tell_inspected(rt, &view, sheet),
        None => tell_drawn(rt, &view),
    }
}

/// Tells a table as it was read and the verdict on it, and then what is asked of a lawful one.
fn tell(rt: &impl Print, table: &Table, request: &Request<'_>) -> anyhow::Result<ExitCode>
    ensures { IfOk result (λ code. exit_status code ≡ status_after (listing_of table.now) request.now) }
{
    let listing = table.listing();
    rt.println(Line::Heading {
        stations: listing.stations(),
        ends: listing.ends.len(),
    })?;
    // a row does not know its station, so the loop counts
    for station in 0..listing.stations() {
        rt.println(Line::Row {
            station,
            neighbours: listing.row(station),
        })?;
    }
    let verdict = listing.measure();
    rt.println(Line::Verdict(verdict))?;
    if verdict.is_err() {
        return Ok(ExitCode::FAILURE);
    }
    if request.by_book {
        let book = tell_book(rt, listing)?;
        tell_site(rt, &book, request)
    } else {
        tell_site(rt, &Listed::open(listing), request)
    }
}

/// Tells why nothing can be told of a table.
fn tell_why(rt: &impl Print, why: impl fmt::Display + Drop) -> anyhow::Result<ExitCode>
    ensures { IfOk result (λ code. exit_status code ≡ 1) }
{
    rt.println(why)?;
    Ok(ExitCode::FAILURE)
}

/// Reads a file, up to one byte past the longest sheet.
fn read_sheet(rt: &HostRuntime, file: &str) -> anyhow::Result<Vec<u8>> {
    let mut sheet = Vec::new(rt.alloc());
    File::open(rt, file)?
        .take(sheet::LONGEST as u64 + 1)
        .read_to_end(&mut sheet)?;
    Ok(sheet)
}

/// Reads the arguments: first `book`, or not, then `inspect FILE`, or not, and then stations to strike. Then it reads a
/// table from standard input, to its end, and tells what stands there.
fn run(rt: &HostRuntime) -> anyhow::Result<ExitCode> {
    let words: Vec<String> = env::args(rt)?.skip(1).collect(rt.alloc())?;
    let (by_book, others) = match words.as_slice() {
        [command, others @ ..] if command.as_str() == "book" => (true, others),
        others => (false, others),
    };
    let (file, stations) = match others {
        [command, file, stations @ ..] if command.as_str() == "inspect" => (Some(file), stations),
        stations => (None, stations),
    };
    // arguments count from 1, those before the stations too
    let first = words.len() - stations.len() + 1;
    let mut list = ServiceList::new();
    for (place, word) in stations.iter().enumerate() {
        if let Err(line) = strike(&mut list, first + place, word.as_bytes()) {
            return tell_why(rt, line);
        }
    }
    let sheet = file.map(|file| read_sheet(rt, file)).transpose()?;
    let request = Request {
        by_book,
        list,
        offered: sheet.as_deref(),
    };
    let mut text = Vec::new(rt.alloc());
    // one byte more than a table may have, so that a longer one is seen
    rt.stdin().take(1_000_001).read_to_end(&mut text)?;
    match tables::read(rt.alloc(), text.as_slice()) {
        Ok(table) => tell(rt, &table, &request),
        Err(unread) => tell_why(rt, unread),
    }
}

fn main(rt: HostRuntime) -> ExitCode {
    // whatever goes wrong, nothing is written to standard error
    run(&rt).unwrap_or(ExitCode::FAILURE)
}
