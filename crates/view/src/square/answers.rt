//! The questions, answered by the rows of bits.

ghost use Rattle.view.specs.Rows.{each_neighbour};
ghost use Rattle.view.specs.Grid.{site_of};
ghost use Rattle.view.specs.Shown.{shown_bits};

use super::Square;
use super::bits::{count_ones, find_one, nth_one};
use crate::View;

impl View for Square<'_> {
    ghost site = { λ v. site_of (shown_bits v) };

    ghost row = { λ v. each_neighbour (site_of (shown_bits v)) };

    ghost faithful = { λ v. v.faithful };

    fn stations(&self) -> usize {
        self.grid.stations
    }

    fn degree(&self, s: usize) -> usize {
        count_ones(self.grid.row(s))
    }

    fn neighbour(&self, s: usize, place: usize) -> Option<usize> {
        nth_one(self.grid.row(s), place)
    }

    fn neighbour_after(&self, s: usize, place: usize, before: usize) -> Option<usize> {
        let from = if place == 0 {
            0
        } else {
            before.saturating_add(1)
        };
        find_one(self.grid.row(s), from)
    }
}
