//! A walk along the neighbours of a station.

ghost use Rattle.std.specs.Prelude.{◌≡◌, ℕ, List};
ghost use Rattle.std.specs.List.{between};
ghost use Rattle.std.specs.Iterator.{YieldsFirst, item_count};
ghost use Rattle.view.specs.Rows.{StandsBefore};

use crate::View;
use std::marker::Model;
use std::ops::Range;

/// The neighbours of a station, in the order of the view. The last one is kept, as the next is asked for with it.
#[derive(Drop)]
pub struct Neighbours<'a, V: View> {
    view: &'a V,
    station: usize,
    places: Range<usize>,
    before: usize,
}

impl<'a, V: View> Model for Neighbours<'a, V> {
    ghost Value = { List ℕ };

    ghost view = { λ walk. between walk.places.start walk.places.end (V.View.row walk.view.now walk.station) };

    ghost invariant = { λ walk. StandsBefore (V.View.row walk.view.now walk.station) walk.places.start walk.before };
}

impl<V: View> Iterator for Neighbours<'_, V> {
    type Item = usize;

    ghost next_gives = { YieldsFirst (λ rest. rest) };

    ghost remaining = { item_count (λ rest. rest) };

    fn next(&mut self) -> Option<usize> {
        if self.places.is_empty() {
            return None;
        }
        let t = self
            .view
            .neighbour_after(self.station, self.places.start, self.before)?;
        self.places.start += 1;
        self.before = t;
        Some(t)
    }
}

impl<'a, V: View> Neighbours<'a, V> {
    /// The neighbours of a station of a view.
    pub(crate) fn new(view: &'a V, station: usize) -> Neighbours<'a, V>
        ensures { result ≡ V.View.row view.now station }
    {
        Neighbours {
            view,
            station,
            places: 0..view.degree(station),
            before: 0,
        }
    }
}
