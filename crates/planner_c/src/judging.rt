//! Check, and inspect over a table that is opened.

ghost use Rattle.std.specs.Prelude.{◌≡◌};
ghost use Rattle.view.specs.Checked.{checked, opened};
ghost use Rattle.view.specs.GridChecked.{opened as grid_opened};
ghost use Rattle.inspector.specs.Inspecting.{inspected};
ghost use Rattle.planner_c.specs.Replies.{reply_done};
ghost use Rattle.planner_c.specs.Given.{two_lists, bits};

use crate::reply::Reply;
use inspector::inspect;
use view::View;
use view::listed::{Listed, Listing};
use view::square::{Grid, Square};

/// Inspects a sheet over a view, and so many times before.
fn inspect_again<V: View>(view: &V, sheet: &[u8], more: usize) -> Reply
    ensures { result ≡ reply_done (inspected (V.View.site view.now) sheet.now) }
{
    for _ in 0..more {
        let _ = inspect(view, sheet);
    }
    Reply::done(inspect(view, sheet))
}

/// Inspects a sheet over what a listing opens as, after `more` times for timing.
#[unsafe(no_mangle)]
pub extern "C" fn planner_inspect(starts: &[u32], ends: &[u16], sheet: &[u8], more: usize) -> Reply
    ensures { result ≡ reply_done (inspected (opened (two_lists starts.now ends.now)) sheet.now) }
{
    inspect_again(&Listed::open(Listing { starts, ends }), sheet, more)
}

/// Inspects a sheet over what a grid opens as, after `more` times for timing.
#[unsafe(no_mangle)]
pub extern "C" fn planner_inspect_grid(
    stations: usize,
    bytes: &[u8],
    sheet: &[u8],
    more: usize,
) -> Reply
    ensures { result ≡ reply_done (inspected (grid_opened (bits stations bytes.now)) sheet.now) }
{
    inspect_again(&Square::open(Grid { stations, bytes }), sheet, more)
}

/// Judges a listing.
#[unsafe(no_mangle)]
pub extern "C" fn planner_check(starts: &[u32], ends: &[u16]) -> Reply
    ensures { result ≡ reply_done (checked (two_lists starts.now ends.now)) }
{
    Reply::done(Listing { starts, ends }.check())
}
