//! Draw: from a view to the bytes of its sheet.

ghost use Rattle.std.specs.Prelude.{◌≡◌, length};
ghost use Rattle.view.specs.Answers.{answer, left_in};
ghost use Rattle.sheet.specs.Sites.{sheet_of};
ghost use Rattle.drawer.specs.Calls.{written_for};

use crate::numbering::note_numbers;
use crate::ordering::note_order;
use crate::peeling::peel;
use crate::{Refusal, Removal};
use sheet::put;
use view::View;
use view::counts::admit;
use view::forest::homes_and_ups;

/// Draws a view: writes the sheet of its site to a buffer. Answers its length, which is how many bytes are written.
pub fn draw<V: View>(view: &V, out: &mut [u8]) -> Result<usize, Refusal>
    ensures answer { let g = V.View.site view.now in
        result ≡ answer length (written_for g (length out.old) (sheet_of g)) }
    ensures out { let g = V.View.site view.now in
        out.new ≡ left_in (λ bytes. bytes) (written_for g (length out.old) (sheet_of g)) out.old }
{
    let stations = view.stations();
    admit(stations)?;
    let mut removals = [Removal::default(); 512];
    peel(view, &mut removals);
    let removals = &removals[..stations];
    let mut numbers = [0; 512];
    note_numbers(removals, &mut numbers);
    let mut order = [0; 512];
    note_order(removals, &mut order);
    let numbers = &numbers[..stations];
    let mut homes = [0; 512];
    let mut ups = [0; 512];
    homes_and_ups(view, numbers, &mut homes, &mut ups)?;
    put(
        numbers,
        &homes[..stations],
        &ups[..stations],
        &order[..stations],
        out,
    )
}
