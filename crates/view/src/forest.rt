//! Homes and ups by a table of numbers.

ghost use Rattle.std.specs.Prelude.{◌≡◌, min, length, map};
ghost use Rattle.view.specs.Answers.{answer, left_in};
ghost use Rattle.view.specs.Ups.{up_in_table};
ghost use Rattle.view.specs.Forest.{forest_into};

mod components;
mod numbered;
mod settling;

use crate::counts::admit;
use crate::{Refusal, View};
use numbered::Numbered;

/// The homes and ups of a view by a table of numbers, into two tables; 65,535 for no up. By the core numbers they are
/// those of the site, and any other numbers are taken as they are. Answers how many stations there are, which is how
/// many entries of each table are written.
pub fn homes_and_ups<V: View>(
    view: &V,
    numbers: &[u16],
    homes: &mut [u16],
    ups: &mut [u16],
) -> Result<usize, Refusal>
    ensures answer { result ≡ answer (λ f. length f.homes)
        (forest_into (V.View.site view.now) numbers.now (min (length homes.old) (length ups.old))) }
    ensures homes { homes.new ≡ left_in (λ f. f.homes)
        (forest_into (V.View.site view.now) numbers.now (min (length homes.old) (length ups.old))) homes.old }
    ensures ups { ups.new ≡ left_in (λ f. map up_in_table f.ups)
        (forest_into (V.View.site view.now) numbers.now (min (length homes.old) (length ups.old))) ups.old }
{
    let stations = view.stations();
    admit(stations)?;
    if numbers.len() != stations {
        return Err(Refusal::CountOutOfRange);
    }
    if homes.len().min(ups.len()) < stations {
        return Err(Refusal::BufferShort { needed: stations });
    }
    Numbered { view, numbers }.settle(homes, ups);
    Ok(stations)
}
