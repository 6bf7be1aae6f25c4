//! A view with a table of its numbers.

ghost use Rattle.std.specs.Prelude.{◌≡◌, ◌≤◌, length};

use crate::Counts;
use view::View;

/// A view of 512 stations at most, and a number for each.
#[derive(Drop)]
pub(crate) struct Numbered<'a, V: View> {
    pub(crate) view: &'a V,
    pub(crate) numbers: &'a [u16],
    ghost right: { length numbers.now ≡ (V.View.site view.now).size },
    ghost few: { length numbers.now ≤ 512 },
}

impl<V: View> Numbered<'_, V> {
    ghost use Rattle.std.specs.Prelude.{ℕ, ◌+◌, ◌-◌, ◌<◌, ◌^◌, All, EachIndex, slice_index};
    ghost use Rattle.std.specs.List.{Contains};
    ghost use Rattle.rules.specs.declared.counts.Counts.{Counts};
    ghost use Rattle.rules.specs.Noted.{Holds, HasRoom, noted, with_link, counts_from};

    /// The greatest number.
    pub(crate) fn top(&self) -> u16
        ensures greatest { EachIndex self.now.numbers.now (λ s. slice_index self.now.numbers.now s ≤ result) }
        ensures reached { 0 < length self.now.numbers.now → Contains self.now.numbers.now result }
    {
        self.numbers.iter().copied().max().unwrap_or(0)
    }

    /// Notes a link: as inside at the smaller number of its ends, and as boundary at the greater.
    fn note_link(&self, s: usize, t: usize, list: &mut [Counts])
        requires higher { s < length self.now.numbers.now }
        requires lower { t < length self.now.numbers.now }
        requires room { HasRoom self.now.numbers.now list.old }
        requires few { All (λ x. (x.inside < 2 ^ 32 - 1) × (x.boundary < 2 ^ 32 - 1)) list.old }
        ensures { let c = slice_index self.now.numbers.now in
            (f : ℕ → Counts) → Holds f list.old → Holds (λ k. with_link (c s) (c t) k (f k)) list.new }
    {
        let (a, b) = (usize::from(self.numbers[s]), usize::from(self.numbers[t]));
        list[a.min(b)].inside += 1;
        list[a.max(b)].boundary += 1;
    }

    /// Notes a station at its number, and its links to lower stations.
    fn note_station(&self, s: usize, list: &mut [Counts])
        requires on_site { s < length self.now.numbers.now }
        requires room { HasRoom self.now.numbers.now list.old }
        requires below { Holds (noted (V.View.site self.now.view.now) (slice_index self.now.numbers.now) s) list.old }
        ensures { Holds (noted (V.View.site self.now.view.now) (slice_index self.now.numbers.now) (s + 1)) list.new }
    {
        list[usize::from(self.numbers[s])].members += 1;
        for t in self.view.neighbours(s) {
            if t < s {
                self.note_link(s, t, list);
            }
        }
    }

    /// Notes all stations and links in a list with a place for each number.
    fn note_stations(&self, list: &mut [Counts])
        requires room { HasRoom self.now.numbers.now list.old }
        ensures { let g = V.View.site self.now.view.now in
            Holds (noted g (slice_index self.now.numbers.now) g.size) list.new }
    {
        list.fill(Counts::default());
        for s in 0..self.numbers.len() {
            self.note_station(s, list);
        }
    }

    /// Counts, for each place of a list, the stations that have this number or more, and their links.
    pub(crate) fn count_levels(&self, list: &mut [Counts])
        requires room { HasRoom self.now.numbers.now list.old }
        ensures { Holds (counts_from (V.View.site self.now.view.now) (slice_index self.now.numbers.now)) list.new }
    {
        self.note_stations(list);
        let (mut members, mut inside, mut reaching) = (0, 0, 0);
        for level in (0..list.len()).rev() {
            let noted = list[level];
            members += noted.members;
            inside += noted.inside;
            reaching += noted.boundary;
            // a link that reaches the level is inside, or at its boundary
            list[level] = Counts {
                members,
                inside,
                boundary: reaching - inside,
            };
        }
    }
}
