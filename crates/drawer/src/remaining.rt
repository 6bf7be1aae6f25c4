//! The stations that are still there while a site is peeled.

ghost use Rattle.std.specs.Prelude.{◌≡◌, ℕ, ◌<◌, ◌≤◌};
ghost use Rattle.drawer.specs.Peeling.{entry, SortedByLeft, CountsWithin};

use crate::Removal;
use crate::stations::StationSet;
use view::View;

/// How many neighbours each station of a view has left; none for one that is removed.
#[derive(Drop)]
pub(crate) struct Remaining<'a, V> {
    view: &'a V,
    left: [Option<usize>; 512],
    /// For each count, the stations that have so many neighbours left.
    by_left: [StationSet; 512],
    /// No station has fewer neighbours left.
    fewest: usize,
    /// Each station has fewer neighbours left.
    limit: usize,
    ghost sorted: { SortedByLeft left by_left },
    ghost within: { CountsWithin fewest limit left },
    ghost few: { limit ≤ 512 },
}

impl<'a, V: View> Remaining<'a, V> {
    ghost use Rattle.std.specs.Prelude.{◌-◌, None, Some, set, true, false, nat_lt};
    ghost use Rattle.std.specs.Option.{option_map};
    ghost use Rattle.cores.specs.Numbers.{without};
    ghost use Rattle.drawer.specs.Peeling.{Counts, there, IsLeast};

    /// All stations of a view.
    pub(crate) fn of(view: &'a V) -> Remaining<'a, V>
        requires { (V.View.site view.now).size ≤ 512 }
        ensures view { result.view.now ≡ view.now }
        ensures left { let g = V.View.site view.now in Counts g (λ t. nat_lt t g.size) result.left }
    {
        let mut remaining = Remaining {
            view,
            left: [None; 512],
            by_left: [StationSet::none(); 512],
            fewest: 512,
            limit: 0,
        };
        for s in 0..view.stations() {
            remaining.put(s, view.degree(s));
        }
        remaining
    }

    /// The removal that is next: of the stations with the fewest neighbours left, that of the lowest.
    pub(crate) fn next_removal(&mut self) -> Option<Removal>
        ensures view { self.new.view ≡ self.old.view }
        ensures left { self.new.left ≡ self.old.left }
        ensures least { IsLeast self.old.left result }
    {
        // a removal brings the fewest down by one at most, so few sets are looked at twice
        for left in self.fewest..self.limit {
            if let Some(station) = self.by_left[left].first() {
                self.fewest = left;
                return Some(Removal { station, left });
            }
        }
        None
    }

    /// Removes a station, so that its neighbours have one neighbour less left.
    pub(crate) fn remove(&mut self, s: usize)
        requires few { (V.View.site self.old.view.now).size ≤ 512 }
        requires counted { Counts (V.View.site self.old.view.now) (there self.old.left) self.old.left }
        requires on_site { s < (V.View.site self.old.view.now).size }
        requires is_there { there self.old.left s ≡ true }
        ensures view { self.new.view.now ≡ self.old.view.now }
        ensures left { Counts (V.View.site self.old.view.now) (without s (there self.old.left)) self.new.left }
    {
        self.take(s);
        for t in self.view.neighbours(s) {
            self.lower(t);
        }
    }

    /// Notes that a station has one neighbour less left, if it is there.
    fn lower(&mut self, t: usize)
        requires within { t < 512 }
        requires counted { (k : ℕ) → entry self.old.left t ≡ Some k → 1 ≤ k }
        ensures view { self.new.view ≡ self.old.view }
        ensures left { self.new.left ≡ set self.old.left t (option_map (λ k. k - 1) (entry self.old.left t)) }
    {
        if let Some(left) = self.take(t) {
            self.put(t, left - 1);
        }
    }

    /// Puts a station in that is not there, with how many neighbours it has left.
    fn put(&mut self, t: usize, left: usize)
        requires within { t < 512 }
        requires few { left < 512 }
        requires gone { there self.old.left t ≡ false }
        ensures view { self.new.view ≡ self.old.view }
        ensures left { self.new.left ≡ set self.old.left t (Some left) }
    {
        self.left[t] = Some(left);
        self.by_left[left].insert(t);
        self.fewest = self.fewest.min(left);
        self.limit = self.limit.max(left + 1);
    }

    /// Takes a station out. Answers how many neighbours it had left, or none if it was not there.
    fn take(&mut self, t: usize) -> Option<usize>
        requires { t < 512 }
        ensures view { self.new.view ≡ self.old.view }
        ensures left { self.new.left ≡ set self.old.left t None }
        ensures was { result ≡ entry self.old.left t }
        ensures few { (k : ℕ) → result ≡ Some k → k < 512 }
    {
        let left = self.left[t]?;
        self.left[t] = None;
        self.by_left[left].remove(t);
        Some(left)
    }
}
