//! Sheets and route cards, written to a lent buffer.

ghost use Rattle.std.specs.Prelude.{◌≡◌, ◌++◌, length, Ok};
ghost use Rattle.book.specs.Books.{site};
ghost use Rattle.cards.specs.Cards.{issued, passed};
ghost use Rattle.drawer.specs.Calls.{written_for};
ghost use Rattle.sheet.specs.Sites.{sheet_of};
ghost use Rattle.view.specs.Answers.{answer, left_in};
ghost use Rattle.view.specs.Service.{is_marked};
ghost use Rattle.view.specs.Struck.{struck_site};
ghost use Rattle.console.specs.Plans.{drawn_without, issued_over, marked_by};

use book::Book;
use cards::Offered;
use view::Refusal;
use view::service::ServiceList;
use view::struck::Struck;

/// The list in which some stations are marked.
fn mark_all(stations: &[usize]) -> Result<ServiceList, Refusal>
    ensures { result ≡ marked_by stations.now }
{
    let mut list = ServiceList::new();
    for station in stations {
        list.mark(*station)?;
    }
    Ok(list)
}

/// Draws the book's view with some stations struck. Answers how many bytes are written.
pub(crate) fn draw_struck(book: &Book, stations: &[usize], out: &mut [u8]) -> Result<usize, Refusal>
    ensures answer { result ≡ answer length (drawn_without stations.now (site book.now) (length out.old)) }
    ensures out { out.new ≡ left_in (λ bytes. bytes) (drawn_without stations.now (site book.now) (length out.old)) out.old }
{
    let list = mark_all(stations)?;
    drawer::draw(&Struck::new(book, &list), out)
}

/// Writes the route cards of a sheet that is offered over the book. Answers how many bytes are written.
pub(crate) fn issue_cards(book: &Book, sheet: &[u8], out: &mut [u8]) -> Result<usize, Refusal>
    ensures answer { result ≡ answer length (issued_over (site book.now) sheet.now (length out.old)) }
    ensures out { out.new ≡ left_in (λ cards. cards) (issued_over (site book.now) sheet.now (length out.old)) out.old }
{
    Offered::new(sheet).pass(book)?.issue(out)
}
