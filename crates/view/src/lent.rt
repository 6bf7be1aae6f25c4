//! A view behind a reference is a view.

use crate::View;

impl<V: View> View for &V {
    ghost site = { λ v. V.View.site v.now };

    ghost row = { λ v. V.View.row v.now };

    ghost faithful = { λ v. V.View.faithful v.now };

    fn stations(&self) -> usize {
        (**self).stations()
    }

    fn degree(&self, s: usize) -> usize {
        (**self).degree(s)
    }

    fn neighbour(&self, s: usize, place: usize) -> Option<usize> {
        (**self).neighbour(s, place)
    }

    fn neighbour_after(&self, s: usize, place: usize, before: usize) -> Option<usize> {
        (**self).neighbour_after(s, place, before)
    }
}
