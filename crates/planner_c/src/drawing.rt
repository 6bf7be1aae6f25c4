//! Draw, and numbers alone, over a table that is opened or a book.

ghost use Rattle.std.specs.Prelude.{◌≡◌, length};
ghost use Rattle.view.specs.Answers.{answer, left_in};
ghost use Rattle.view.specs.Checked.{opened};
ghost use Rattle.view.specs.GridChecked.{opened as grid_opened};
ghost use Rattle.sheet.specs.Sites.{plan_of, sheet_of};
ghost use Rattle.drawer.specs.Calls.{written_for};
ghost use Rattle.planner_c.specs.Replies.{reply};
ghost use Rattle.planner_c.specs.Given.{two_lists, bits, book_site};

use crate::linking::{Step, book_after};
use crate::reply::Reply;
use drawer::{draw, numbers};
use sheet::LONGEST;
use view::View;
use view::listed::{Listed, Listing};
use view::square::{Grid, Square};

/// Draws a view, after so many times into a buffer of its own.
fn draw_again<V: View>(view: &V, more: usize, out: &mut [u8]) -> Reply
    ensures answer { let g = V.View.site view.now in
        result ≡ reply (answer length (written_for g (length out.old) (sheet_of g))) }
    ensures out { let g = V.View.site view.now in
        out.new ≡ left_in (λ bytes. bytes) (written_for g (length out.old) (sheet_of g)) out.old }
{
    let mut spare = [0; LONGEST];
    for _ in 0..more {
        let _ = draw(view, &mut spare);
    }
    Reply::of(draw(view, out))
}

/// Draws what a listing opens as, after `more` times for timing.
#[unsafe(no_mangle)]
pub extern "C" fn planner_draw(starts: &[u32], ends: &[u16], more: usize, out: &mut [u8]) -> Reply
    ensures answer { let g = opened (two_lists starts.now ends.now) in
        result ≡ reply (answer length (written_for g (length out.old) (sheet_of g))) }
    ensures out { let g = opened (two_lists starts.now ends.now) in
        out.new ≡ left_in (λ bytes. bytes) (written_for g (length out.old) (sheet_of g)) out.old }
{
    draw_again(&Listed::open(Listing { starts, ends }), more, out)
}

/// Draws what a grid opens as, after `more` times for timing.
#[unsafe(no_mangle)]
pub extern "C" fn planner_draw_grid(
    stations: usize,
    bytes: &[u8],
    more: usize,
    out: &mut [u8],
) -> Reply
    ensures answer { let g = grid_opened (bits stations bytes.now) in
        result ≡ reply (answer length (written_for g (length out.old) (sheet_of g))) }
    ensures out { let g = grid_opened (bits stations bytes.now) in
        out.new ≡ left_in (λ bytes. bytes) (written_for g (length out.old) (sheet_of g)) out.old }
{
    draw_again(&Square::open(Grid { stations, bytes }), more, out)
}

/// Draws the book for so many stations after some steps, after `more` times for timing.
#[unsafe(no_mangle)]
pub extern "C" fn planner_redraw(
    stations: usize,
    steps: &[Step],
    more: usize,
    out: &mut [u8],
) -> Reply
    ensures answer { let g = book_site stations steps.now in
        result ≡ reply (answer length (written_for g (length out.old) (sheet_of g))) }
    ensures out { let g = book_site stations steps.now in
        out.new ≡ left_in (λ bytes. bytes) (written_for g (length out.old) (sheet_of g)) out.old }
{
    draw_again(&book_after(stations, steps), more, out)
}

/// The numbers of what a listing opens as, after `more` times for timing.
#[unsafe(no_mangle)]
pub extern "C" fn planner_numbers(
    starts: &[u32],
    ends: &[u16],
    more: usize,
    out: &mut [u16],
) -> Reply
    ensures answer { let g = opened (two_lists starts.now ends.now) in
        result ≡ reply (answer length (written_for g (length out.old) (plan_of g).numbers)) }
    ensures out { let g = opened (two_lists starts.now ends.now) in
        out.new ≡ left_in (λ numbers. numbers) (written_for g (length out.old) (plan_of g).numbers) out.old }
{
    let view = Listed::open(Listing { starts, ends });
    let mut spare = [0; 512];
    for _ in 0..more {
        let _ = numbers(&view, &mut spare);
    }
    Reply::of(numbers(&view, out))
}
