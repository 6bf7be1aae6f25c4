//! The three questions, answered by the lists.

ghost use Rattle.view.specs.Listing.{row as row_of, site_of};
ghost use Rattle.view.specs.Shown.{shown};

use super::Listed;
use crate::View;

impl View for Listed<'_> {
    ghost site = { λ v. site_of (shown v) };

    ghost row = { λ v. row_of (shown v) };

    ghost faithful = { λ v. v.faithful };

    fn stations(&self) -> usize {
        self.listing.stations()
    }

    fn degree(&self, s: usize) -> usize {
        self.listing.row(s).len()
    }

    fn neighbour(&self, s: usize, place: usize) -> Option<usize> {
        self.listing.entry(s, place)
    }
}
