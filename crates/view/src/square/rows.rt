//! The rows of a grid, and which of them are bad.

ghost use Rattle.std.specs.Prelude.{◌≡◌, true};
ghost use Rattle.cores.specs.Site.{sized};
ghost use Rattle.view.specs.Grid.{bitmap, row_length as bytes_in_row, shaped, row_bytes, cell, no_neighbour, bad_row, lowest_bad_row};

use super::Grid;
use super::bits::is_set;

impl<'a> Grid<'a> {
    /// How many bytes a row takes.
    #[tactic(auto, unfolding(crate::specs::Grid::row_length))]
    fn row_length(&self) -> usize
        ensures { result ≡ bytes_in_row self.now.stations }
    {
        self.stations.div_ceil(8)
    }

    /// Whether there are as many bytes as the rows take.
    pub(super) fn is_shaped(&self) -> bool
        ensures { result ≡ shaped (bitmap self.now) }
    {
        self.stations.checked_mul(self.row_length()) == Some(self.bytes.len())
    }

    /// The bytes of the row of a station; none if it is off the site.
    pub(super) fn row(&self, s: usize) -> &'a [u8]
        requires { shaped (bitmap self.now) ≡ true }
        ensures { result.now ≡ row_bytes (bitmap self.now) s }
    {
        if s >= self.stations {
            return &[];
        }
        let length = self.row_length();
        let from = s * length;
        &self.bytes[from..from + length]
    }

    /// Whether the row of a station has the bit of another set.
    fn has(&self, s: usize, t: usize) -> bool
        requires { shaped (bitmap self.now) ≡ true }
        ensures { result ≡ cell (bitmap self.now) s t }
    {
        let row = self.row(s);
        t / 8 < row.len() && is_set(row[t / 8], t % 8)
    }

    /// Whether t cannot be a neighbour of s: it is s itself, is off the site, or does not have s in return.
    fn is_no_neighbour(&self, s: usize, t: usize) -> bool
        requires { shaped (bitmap self.now) ≡ true }
        ensures { result ≡ no_neighbour (bitmap self.now) s t }
    {
        t == s || self.stations <= t || !self.has(t, s)
    }

    /// Whether a row has a bit set for what cannot be a neighbour.
    fn row_is_bad(&self, s: usize) -> bool
        requires sized { sized self.now.stations ≡ true }
        requires shaped { shaped (bitmap self.now) ≡ true }
        ensures { result ≡ bad_row (bitmap self.now) s }
    {
        (0..8 * self.row_length()).any(|t| self.has(s, t) && self.is_no_neighbour(s, t))
    }

    /// The lowest bad row, if there is one.
    pub(super) fn find_bad_row(&self) -> Option<usize>
        requires sized { sized self.now.stations ≡ true }
        requires shaped { shaped (bitmap self.now) ≡ true }
        ensures { result ≡ lowest_bad_row (bitmap self.now) }
    {
        (0..self.stations).find(|s| self.row_is_bad(*s))
    }
}
