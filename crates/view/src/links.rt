//! How many links a view has.

ghost use Rattle.std.specs.Prelude.{◌≡◌};
ghost use Rattle.cores.specs.Counting.{count};
ghost use Rattle.view.specs.Answers.{links_answer};

use crate::counts::admit;
use crate::{Refusal, View};

/// How many neighbours of a station are below it.
fn count_lower<V: View>(view: &V, s: usize) -> usize
    ensures { result ≡ count s ((V.View.site view.now).linked s) }
{
    view.neighbours(s).filter(|t| *t < s).count()
}

/// How many links a view of 1 to 512 stations has, each counted at its higher end.
pub fn count_links<V: View>(view: &V) -> Result<usize, Refusal>
    ensures { result ≡ links_answer (V.View.site view.now) }
{
    let stations = view.stations();
    admit(stations)?;
    Ok((0..stations).map(|s| count_lower(view, s)).sum())
}
