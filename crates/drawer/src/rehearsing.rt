//! Draw with a station out of service.

ghost use Rattle.std.specs.Prelude.{◌≡◌, true, length};
ghost use Rattle.view.specs.Answers.{answer, left_in};
ghost use Rattle.view.specs.Service.{is_marked, with_mark};
ghost use Rattle.view.specs.Struck.{struck_site};
ghost use Rattle.sheet.specs.Sites.{sheet_of};
ghost use Rattle.drawer.specs.Calls.{written_for};

use crate::{Refusal, draw};
use view::View;
use view::rehearsal::Rehearsal;
use view::service::ServiceList;
use view::struck::Struck;

/// Draws what is left of a view while the stations that a list marks, and one more, are out of service. Answers the
/// length of the sheet, which is how many bytes are written. The list is the same when it is over.
#[tactic(auto, using(view::proofs::Marks::restored))]
pub fn draw_without<V: View>(
    view: &V,
    list: &mut ServiceList,
    station: usize,
    out: &mut [u8],
) -> Result<usize, Refusal>
    ensures list { list.new ≡ list.old }
    ensures answer { let g = struck_site (is_marked (with_mark list.old station true)) (V.View.site view.now) in
        result ≡ answer length (written_for g (length out.old) (sheet_of g)) }
    ensures out { let g = struck_site (is_marked (with_mark list.old station true)) (V.View.site view.now) in
        out.new ≡ left_in (λ bytes. bytes) (written_for g (length out.old) (sheet_of g)) out.old }
{
    let rehearsal = Rehearsal::begin(list, station);
    draw(&Struck::new(view, &rehearsal.list()), out)
}
