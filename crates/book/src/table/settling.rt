//! Numbers that fall.

ghost use Rattle.std.specs.Prelude.{◌≡◌, ◌≢◌, Bool, true, false, ℕ, [], slice_index};
ghost use Rattle.cores.specs.Counting.{holds};
ghost use Rattle.cores.specs.Numbers.{number};
ghost use Rattle.book.specs.Queues.{noted};
ghost use Rattle.book.specs.Tables.{links, numbers, places, site_of, Sound};
ghost use Rattle.book.specs.Current.{BearsOut};
ghost use Rattle.book.specs.Updates.{support as support_of, falls as falls_from, AtMostOneHigh, Lowering, FallersWatched};

use super::Table;
use crate::queue::Queue;

impl Table {
    /// How many neighbours of a station have a number of `level` or more.
    fn support(&self, s: usize, level: u16) -> usize
        ensures { result ≡ support_of (links self.now) (numbers self.now) level s }
    {
        self.row(s)
            .iter()
            .filter(|t| level <= self.number(usize::from(**t)))
            .count()
    }

    /// Whether a station of number `level` has too few neighbours for it.
    #[tactic(auto, unfolding(crate::specs::Updates::falls))]
    fn falls(&self, s: usize, level: u16) -> bool
        ensures { result ≡ falls_from (links self.now) (numbers self.now) level s }
    {
        self.number(s) == level && self.support(s, level) < usize::from(level)
    }

    /// Lowers a station that falls by one, puts it behind those of its new number, and notes it.
    fn doubt(&mut self, s: usize, level: u16, fallen: &mut Queue)
        requires { Lowering (links self.old) level (numbers self.old) (places self.old) (noted fallen.old) }
        ensures links { links self.new ≡ links self.old }
        ensures lowering { Lowering (links self.old) level (numbers self.new) (places self.new) (noted fallen.new) }
        ensures watched { (listed rest : ℕ → Bool) (v : ℕ) → ((t : ℕ) → (t ≢ s) → listed t ≡ true → rest t ≡ true)
            → FallersWatched (links self.old) level (numbers self.old) listed (noted fallen.old) v
            → FallersWatched (links self.old) level (numbers self.new) rest (noted fallen.new) v }
    {
        if self.falls(s, level) {
            self.renumber(s, level - 1);
            self.order.put_last(s);
            fallen.push(s);
        }
    }

    /// Lowers those of some stations that fall.
    fn doubt_all(&mut self, stations: &[u16], level: u16, fallen: &mut Queue)
        requires { Lowering (links self.old) level (numbers self.old) (places self.old) (noted fallen.old) }
        ensures links { links self.new ≡ links self.old }
        ensures lowering { Lowering (links self.old) level (numbers self.new) (places self.new) (noted fallen.new) }
        ensures watched { (v : ℕ)
            → FallersWatched (links self.old) level (numbers self.old) (holds stations.now) (noted fallen.old) v
            → FallersWatched (links self.old) level (numbers self.new) (λ t. false) (noted fallen.new) v }
    {
        for s in stations {
            self.doubt(usize::from(*s), level, fallen);
        }
    }

    /// Lowers the stations of number `level` that have too few neighbours for it: those that are doubtful, and then
    /// their neighbours, and so on.
    pub(crate) fn settle(&mut self, doubtful: &[u16], level: u16)
        requires sound { Sound (links self.old) }
        requires high { AtMostOneHigh (site_of (links self.old)) level (numbers self.old) }
        requires bears_out { BearsOut (links self.old) (numbers self.old) (places self.old) }
        requires watched { FallersWatched (links self.old) level (numbers self.old) (holds doubtful.now) [] 0 }
        ensures links { links self.new ≡ links self.old }
        ensures right { (s : ℕ) → slice_index (numbers self.new) s ≡ number (site_of (links self.old)) s }
        ensures bears_out { BearsOut (links self.old) (numbers self.new) (places self.new) }
    {
        let mut fallen = Queue::new();
        self.doubt_all(doubtful, level, &mut fallen);
        let mut visited = 0;
        while let Some(s) = fallen.get(visited) {
            // a copy, as its row is read while numbers change
            let station = self.stations[s];
            self.doubt_all(station.row(), level, &mut fallen);
            visited += 1;
        }
    }
}
