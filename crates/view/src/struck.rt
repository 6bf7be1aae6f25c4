//! A view without the stations that a service list marks.

ghost use Rattle.std.specs.Prelude.{◌≡◌};
ghost use Rattle.view.specs.Service.{is_marked as marked};
ghost use Rattle.view.specs.Struck.{shows_link, struck_site, struck_row};
ghost use Rattle.view.specs.Rows.{Faithful};

use crate::View;
use crate::service::ServiceList;

/// The view below, without the links that have a marked end.
#[derive(Debug, Drop)]
pub struct Struck<V: View> {
    below: V,
    list: ServiceList,
    ghost faithful: { Faithful (struck_site (marked list) (V.View.site below)) (struck_row (marked list) (V.View.row below)) },
}

impl<V: View> Struck<V> {
    /// Strikes the stations that a list marks. The list is copied: a later change of it alters nothing here.
    pub fn new(below: V, list: &ServiceList) -> Struck<V>
        ensures site { ⟦<Struck<V> as View>⟧.site result ≡ struck_site (marked list.now) (V.View.site below) }
        ensures rows { ⟦<Struck<V> as View>⟧.row result ≡ struck_row (marked list.now) (V.View.row below) }
    {
        Struck { below, list: *list }
    }

    /// Whether a link between two stations is shown: neither is marked.
    fn shows(&self, s: usize, t: usize) -> bool
        ensures { result ≡ shows_link (marked self.now.list) s t }
    {
        !(self.list.is_marked(s) || self.list.is_marked(t))
    }
}

impl<V: View> View for Struck<V> {
    ghost use Rattle.view.specs.Cut.{struck, below};

    ghost site = { λ v. struck_site (struck v) (V.View.site (below v)) };

    ghost row = { λ v. struck_row (struck v) (V.View.row (below v)) };

    ghost faithful = { λ v. v.faithful };

    fn stations(&self) -> usize {
        self.below.stations()
    }

    fn degree(&self, s: usize) -> usize {
        self.below
            .neighbours(s)
            .filter(|t| self.shows(s, *t))
            .count()
    }

    fn neighbour(&self, s: usize, place: usize) -> Option<usize> {
        self.below
            .neighbours(s)
            .filter(|t| self.shows(s, *t))
            .nth(place)
    }
}
