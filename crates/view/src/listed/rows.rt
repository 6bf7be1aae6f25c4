//! The rows that a listing is cut into, and which rows are bad.

ghost use Rattle.std.specs.Prelude.{◌≡◌, ◌<◌, ◌≤◌, ◌-◌, ◌==◌, ◌&&◌, ◌||◌, true, false, length, nat_le, nat_lt, slice_index, slice_index_or};
ghost use Rattle.std.specs.List.{slice_get};
ghost use Rattle.cores.specs.Counting.{some, holds};
ghost use Rattle.view.specs.Listing.{lists, stations as station_count, shaped, row as row_of, bad_entry, bad_row, lowest_bad_row};

use super::Listing;

impl<'e> Listing<'_, 'e> {
    /// How many stations the starts are for.
    pub fn stations(&self) -> usize
        ensures { result ≡ station_count (lists self.now) }
    {
        self.starts.len().saturating_sub(1)
    }

    /// The row of a station, whatever the shape; none if it is off the site.
    pub fn row(&self, s: usize) -> &'e [u16]
        ensures { result.now ≡ row_of (lists self.now) s }
    {
        if s >= self.stations() {
            return &[];
        }
        // casts, as Rust has no `From<u32>` for `usize`
        let from = self.starts[s] as usize;
        let to = self.ends.len().min(self.starts[s + 1] as usize);
        self.ends.get(from..to).unwrap_or_default()
    }

    /// The entry of a row at a place, if there is one.
    pub(super) fn entry(&self, s: usize, place: usize) -> Option<usize>
        ensures { result ≡ slice_get (row_of (lists self.now) s) place }
    {
        self.row(s).get(place).map(|t| usize::from(*t))
    }

    /// Whether the starts cut the ends into rows.
    pub(super) fn is_shaped(&self) -> bool
        ensures { result ≡ shaped (lists self.now) }
    {
        let Listing { starts, ends } = *self;
        starts.first() == Some(&0)
            && starts.is_sorted()
            // a cast, as Rust has no `From<u32>` for `usize`
            && starts
                .last()
                .is_some_and(|last| *last as usize == ends.len())
    }

    /// Whether the row of a station lists another.
    fn row_lists(&self, s: usize, t: usize) -> bool
        ensures { result ≡ holds (row_of (lists self.now) s) t }
    {
        self.row(s).iter().any(|end| usize::from(*end) == t)
    }

    /// Whether an entry of the row of s cannot stand there, whatever other rows list: it is s itself, is off the site, or is not
    /// above the one before.
    fn is_misplaced(&self, s: usize, row: &[u16], place: usize) -> bool
        requires { place < length row.now }
        ensures { let t = slice_index_or row.now place 0 in
            result ≡ ((t == s) || nat_le (station_count (lists self.now)) t || (nat_lt 0 place && nat_le t (slice_index row.now (place - 1)))) }
    {
        let t = usize::from(row[place]);
        t == s || self.stations() <= t || (place > 0 && row[place] <= row[place - 1])
    }

    /// Whether t lists s at the place of its row that is looked at next. In a listing in order it does, as the stations that list t
    /// come as they stand in its row.
    fn found_next(&self, s: usize, t: usize, next: &mut [u16; 512]) -> bool
        requires { t < 512 }
        ensures { result ≡ true → holds (row_of (lists self.now) t) s ≡ true }
    {
        let place = next[t];
        // may wrap, as any place will do
        next[t] = place.wrapping_add(1);
        self.entry(t, usize::from(place)) == Some(s)
    }

    /// Whether some entry of a row is bad.
    fn row_is_bad(&self, s: usize, next: &mut [u16; 512]) -> bool
        requires { station_count (lists self.now) ≤ 512 }
        ensures { result ≡ bad_row (lists self.now) s }
    {
        let row = self.row(s);
        for place in 0..row.len() {
            if self.is_misplaced(s, row, place) {
                return true;
            }
            let t = usize::from(row[place]);
            if !self.found_next(s, t, next) {
                return !self.row_lists(t, s) || self.rest_is_bad(s, place + 1, next);
            }
        }
        false
    }

    /// Whether some entry of a row is bad, where none is in front of a place. The rows of its entries are searched only once it is
    /// known to rise on the site.
    fn rest_is_bad(&self, s: usize, from: usize, next: &mut [u16; 512]) -> bool
        requires sized { station_count (lists self.now) ≤ 512 }
        requires front { some from (bad_entry (lists self.now) s) ≡ false }
        ensures { result ≡ bad_row (lists self.now) s }
    {
        let row = self.row(s);
        for place in from..row.len() {
            if self.is_misplaced(s, row, place) {
                return true;
            }
            // looked at to keep the next places in step
            self.found_next(s, usize::from(row[place]), next);
        }
        row.iter().any(|t| !self.row_lists(usize::from(*t), s))
    }

    /// The lowest bad row, if there is one.
    pub(super) fn find_bad_row(&self) -> Option<usize>
        requires { station_count (lists self.now) ≤ 512 }
        ensures { result ≡ lowest_bad_row (lists self.now) }
    {
        let mut next = [0; 512];
        for s in 0..self.stations() {
            if self.row_is_bad(s, &mut next) {
                return Some(s);
            }
        }
        None
    }
}
