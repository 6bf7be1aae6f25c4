//! The removals of a site, one after the other.

ghost use Rattle.std.specs.Prelude.{◌≡◌, ◌≤◌, ◌++◌, length, drop};
ghost use Rattle.view.specs.Answers.{answer, left_in};
ghost use Rattle.drawer.specs.Removals.{removals_of};
ghost use Rattle.drawer.specs.Calls.{written_for};

use crate::admitted::admit_into;
use crate::remaining::Remaining;
use crate::{Refusal, Removal};
use view::View;

/// Removes all stations of a view, the next one again and again, and notes them in the front of a table.
pub(crate) fn peel<V: View>(view: &V, out: &mut [Removal])
    requires few { (V.View.site view.now).size ≤ 512 }
    requires room { (V.View.site view.now).size ≤ length out.old }
    ensures { let g = V.View.site view.now in out.new ≡ removals_of g ++ drop g.size out.old }
{
    let mut remaining = Remaining::of(view);
    let mut place = 0;
    while let Some(removal) = remaining.next_removal() {
        out[place] = removal;
        place += 1;
        remaining.remove(removal.station);
    }
}

/// The stations of a view as they are removed, into a table: the drawn order, with the neighbours that each has left.
/// Answers how many there are, which is how many entries of the table are written.
#[tactic(auto, using(crate::proofs::Written::refused, crate::proofs::Peels::removals_length))]
pub fn removals<V: View>(view: &V, out: &mut [Removal]) -> Result<usize, Refusal>
    ensures answer { let g = V.View.site view.now in
        result ≡ answer length (written_for g (length out.old) (removals_of g)) }
    ensures out { let g = V.View.site view.now in
        out.new ≡ left_in (λ removals. removals) (written_for g (length out.old) (removals_of g)) out.old }
{
    let stations = admit_into(view, out.len())?;
    peel(view, out);
    Ok(stations)
}
