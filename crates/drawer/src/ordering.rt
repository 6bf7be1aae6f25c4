//! The drawn order, from the removals of a site.

ghost use Rattle.std.specs.Prelude.{◌≡◌, ◌<◌, ◌≤◌, ◌++◌, All, length, map, drop};

use crate::Removal;

/// Notes the stations in the order of their removals.
pub(crate) fn note_order(removals: &[Removal], order: &mut [u16])
    requires small { All (λ r. r.station < 65536) removals.now }
    requires room { length removals.now ≤ length order.old }
    ensures { order.new ≡ map (λ r. r.station) removals.now ++ drop (length removals.now) order.old }
{
    for (place, removal) in removals.iter().enumerate() {
        // a cast, as stations are below 65,536
        order[place] = removal.station as u16;
    }
}
