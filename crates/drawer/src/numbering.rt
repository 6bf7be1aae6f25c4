//! Core numbers, from the removals of a site.

ghost use Rattle.std.specs.Prelude.{◌≡◌, ◌≤◌, ◌++◌, All, length, drop};
ghost use Rattle.cores.specs.Site.{Site};
ghost use Rattle.view.specs.Answers.{answer, left_in};
ghost use Rattle.sheet.specs.Sites.{plan_of};
ghost use Rattle.drawer.specs.Removals.{removals_of};
ghost use Rattle.drawer.specs.Calls.{written_for};
ghost use Rattle.drawer.specs.Peeling.{FitsIn};

use crate::admitted::admit_into;
use crate::peeling::peel;
use crate::{Refusal, Removal};
use view::View;

/// Notes the number of each station, from the removals of a site: the most neighbours left that a station up to it had.
pub(crate) fn note_numbers(removals: &[Removal], numbers: &mut [u16])
    requires { All (FitsIn numbers.old) removals.now }
    ensures { (g : Site) → removals.now ≡ removals_of g → g.size ≤ length numbers.old
        → numbers.new ≡ (plan_of g).numbers ++ drop g.size numbers.old }
{
    let mut most = 0;
    for removal in removals {
        most = removal.left.max(most);
        // a cast, as fewer than 65,536 neighbours are left
        numbers[removal.station] = most as u16;
    }
}

/// The core numbers of a view, into a table. Answers how many there are, which is how many entries are written.
#[tactic(auto, using(crate::proofs::Written::refused, crate::proofs::Peaks::numbers_length))]
pub fn numbers<V: View>(view: &V, out: &mut [u16]) -> Result<usize, Refusal>
    ensures answer { let g = V.View.site view.now in
        result ≡ answer length (written_for g (length out.old) (plan_of g).numbers) }
    ensures out { let g = V.View.site view.now in
        out.new ≡ left_in (λ numbers. numbers) (written_for g (length out.old) (plan_of g).numbers) out.old }
{
    let stations = admit_into(view, out.len())?;
    let mut removals = [Removal::default(); 512];
    peel(view, &mut removals);
    note_numbers(&removals[..stations], out);
    Ok(stations)
}
