//! Numbers that rise.

ghost use Rattle.std.specs.Prelude.{◌≡◌, ◌≢◌, ◌<◌, Bool, true, false, List, ℕ, [], length};
ghost use Rattle.cores.specs.Counting.{holds};
ghost use Rattle.book.specs.Queues.{noted};
ghost use Rattle.book.specs.Orders.{Forward};
ghost use Rattle.book.specs.Tables.{links, numbers, places, Sound};
ghost use Rattle.book.specs.Current.{stands_later as later_than, later as later_of};
ghost use Rattle.book.specs.Updates.{rises as rises_from, at_or_behind, RisersWatched, Raising, Raised};

use super::Table;
use crate::queue::Queue;

impl Table {
    /// Whether a station stands later than another: its number is greater, or it is the same and its place is not ahead.
    fn stands_later(&self, s: usize, than: usize) -> bool
        ensures { result ≡ later_than (numbers self.now) (places self.now) than s }
    {
        let (number, other) = (self.number(s), self.number(than));
        other < number || other == number && self.order.place(than) <= self.order.place(s)
    }

    /// How many neighbours of a station stand later.
    fn count_later(&self, s: usize) -> usize
        ensures { result ≡ later_of (links self.now) (numbers self.now) (places self.now) s }
    {
        self.row(s)
            .iter()
            .filter(|t| self.stands_later(usize::from(**t), s))
            .count()
    }

    /// Whether a station of number `level` has more neighbours that stand later than its number says.
    #[tactic(auto, unfolding(crate::specs::Updates::rises))]
    fn rises(&self, s: usize, level: u16) -> bool
        ensures { result ≡ rises_from (links self.now) (numbers self.now) (places self.now) level s }
    {
        self.number(s) == level && usize::from(level) < self.count_later(s)
    }

    /// Lifts a station that rises by one, and notes it.
    fn lift(&mut self, s: usize, level: u16, lifted: &mut Queue)
        requires raising { Raising (links self.old) level (numbers self.old) (noted lifted.old) }
        requires fits { level < 512 }
        ensures links { links self.new ≡ links self.old }
        ensures order { places self.new ≡ places self.old }
        ensures raising { Raising (links self.old) level (numbers self.new) (noted lifted.new) }
        ensures raised { (before : List ℕ) → Raised level before (numbers self.old) (noted lifted.old) → Raised level before (numbers self.new) (noted lifted.new) }
        ensures watched { (listed rest : ℕ → Bool) (v : ℕ) → ((t : ℕ) → (t ≢ s) → listed t ≡ true → rest t ≡ true)
            → RisersWatched (links self.old) level (numbers self.old) (places self.old) listed (noted lifted.old) v
            → RisersWatched (links self.old) level (numbers self.new) (places self.old) rest (noted lifted.new) v }
    {
        if self.rises(s, level) {
            self.renumber(s, level + 1);
            lifted.push(s);
        }
    }

    /// Lifts those of some stations that rise, of those at one place or behind it.
    fn lift_all(&mut self, stations: &[u16], place: u16, level: u16, lifted: &mut Queue)
        requires raising { Raising (links self.old) level (numbers self.old) (noted lifted.old) }
        requires fits { level < 512 }
        ensures links { links self.new ≡ links self.old }
        ensures order { places self.new ≡ places self.old }
        ensures raising { Raising (links self.old) level (numbers self.new) (noted lifted.new) }
        ensures raised { (before : List ℕ) → Raised level before (numbers self.old) (noted lifted.old) → Raised level before (numbers self.new) (noted lifted.new) }
        ensures watched { (v : ℕ)
            → RisersWatched (links self.old) level (numbers self.old) (places self.old) (at_or_behind (places self.old) place stations.now) (noted lifted.old) v
            → RisersWatched (links self.old) level (numbers self.new) (places self.old) (λ t. false) (noted lifted.new) v }
    {
        for s in stations {
            let s = usize::from(*s);
            if self.order.place(s) < place {
                continue;
            }
            self.lift(s, level, lifted);
        }
    }

    /// Lifts the stations of number `level` that have more neighbours that stand later than that: those that are doubtful,
    /// and then their neighbours, and so on. Gives those that were lifted.
    pub(crate) fn spread(&mut self, doubtful: &[u16], level: u16) -> Queue
        requires sound { Sound (links self.old) }
        requires fits { level < 512 }
        requires watched { RisersWatched (links self.old) level (numbers self.old) (places self.old) (holds doubtful.now) [] 0 }
        ensures links { links self.new ≡ links self.old }
        ensures order { places self.new ≡ places self.old }
        ensures raising { Raising (links self.old) level (numbers self.new) (noted result) }
        ensures raised { Raised level (numbers self.old) (numbers self.new) (noted result) }
        ensures over { (t : ℕ) → rises_from (links self.old) (numbers self.new) (places self.old) level t ≡ false }
    {
        let mut lifted = Queue::new();
        self.lift_all(doubtful, 0, level, &mut lifted);
        let mut visited = 0;
        while let Some(s) = lifted.get(visited) {
            // a copy, as its row is read while numbers change
            let station = self.stations[s];
            // for those ahead of it, it stood later already
            let place = self.order.place(s);
            self.lift_all(station.row(), place, level, &mut lifted);
            visited += 1;
        }
        lifted
    }

    /// Puts stations ahead of all others. They keep their order, and so do the others.
    pub(crate) fn bring_forward(&mut self, stations: &mut Queue)
        requires { (s : ℕ) → holds (noted stations.old) s ≡ true → s < 512 }
        ensures links { links self.new ≡ links self.old }
        ensures numbers { numbers self.new ≡ numbers self.old }
        ensures order { Forward (holds (noted stations.old)) (places self.old) (places self.new) }
        ensures same { (s : ℕ) → holds (noted stations.new) s ≡ holds (noted stations.old) s }
    {
        stations.sort_last_first(&self.order);
        for s in stations.noted() {
            self.order.put_first(usize::from(*s));
        }
    }
}
