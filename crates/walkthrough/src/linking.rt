//! A book that is built from a table, link by link.

ghost use Rattle.std.specs.Prelude.{◌≡◌, ◌≤◌, IfOk, filter, length, nat_lt, take};
ghost use Rattle.cores.specs.Links.{joined};
ghost use Rattle.book.specs.Answers.{after, link_answer};
ghost use Rattle.book.specs.Books.{site};
ghost use Rattle.view.specs.Listing.{lists};
ghost use Rattle.walkthrough.specs.Linking.{linked_with, moved_between, site_by_links};

use book::Book;
use transcript::{Line, Moved};
use view::listed::Listing;

/// The number of each station there can be, 0 where there is none.
fn numbers_in(book: &Book) -> [u16; 512] {
    std::array::from_fn(|s| book.number(s).unwrap_or(0))
}

/// Notes the stations whose numbers changed in the front of a table. Answers how many there are.
fn note_moved(before: &[u16; 512], now: &[u16; 512], out: &mut [Moved; 512]) -> usize
    ensures few { result ≤ 512 }
    ensures moved { take result out.new ≡ moved_between before.now now.now }
{
    let mut count = 0;
    for station in 0..512 {
        let (from, to) = (before[station], now[station]);
        if from != to {
            out[count] = Moved { station, from, to };
            count += 1;
        }
    }
    count
}

/// Sets a link of a book, and tells who moved, or why it is refused.
fn tell_link(rt: &impl Print, book: &mut Book, a: usize, b: usize) -> anyhow::Result<()>
    ensures { let g = site book.old in
        IfOk result (λ _. site book.new ≡ after (link_answer g a b) (joined g a b) g) }
{
    let before = numbers_in(book);
    if let Err(refusal) = book.link(a, b) {
        rt.println(Line::LinkRefused { a, b, refusal })?;
        return Ok(());
    }
    let mut moved = [Moved::default(); 512];
    let count = note_moved(&before, &numbers_in(book), &mut moved);
    rt.println(Line::Linked {
        a,
        b,
        moved: &moved[..count],
    })?;
    Ok(())
}

/// Links a station of a book with the greater stations of its row in a table.
fn tell_links(rt: &impl Print, book: &mut Book, s: usize, row: &[u16]) -> anyhow::Result<()>
    ensures { IfOk result (λ _. site book.new ≡ linked_with (site book.old) s (filter (nat_lt s) row.now)) }
{
    for t in row {
        let t = usize::from(*t);
        if s < t {
            tell_link(rt, book, s, t)?;
        }
    }
    Ok(())
}

/// Builds a book from a table: each station in turn is linked with its greater neighbours.
pub(crate) fn tell_book(rt: &impl Print, listing: Listing<'_, '_>) -> anyhow::Result<Book>
    ensures { IfOk result (λ book. site book ≡ site_by_links (lists listing.entry)) }
{
    let stations = listing.stations();
    let mut book = Book::new();
    book.lay_out(stations)?;
    for s in 0..stations {
        tell_links(rt, &mut book, s, listing.row(s))?;
    }
    Ok(book)
}
