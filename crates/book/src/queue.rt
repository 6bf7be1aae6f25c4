//! Stations in the order in which they were noted.

ghost use Rattle.std.specs.Prelude.{ℕ, ◌≡◌, ◌<◌, ◌∷◌, [], ◌++◌, length};
ghost use Rattle.std.specs.List.{slice_get};
ghost use Rattle.cores.specs.Counting.{holds};
ghost use Rattle.book.specs.Queues.{noted};
ghost use Rattle.book.specs.Orders.{LastFirst};

use crate::order::Order;

/// Up to 512 stations, the first noted first.
#[derive(Drop)]
pub(crate) struct Queue {
    stations: [u16; 512],
    len: usize,
}

impl Queue {
    /// No stations.
    pub(crate) fn new() -> Queue
        ensures { noted result ≡ [] }
    {
        Queue {
            stations: [0; 512],
            len: 0,
        }
    }

    /// All stations that were noted.
    pub(crate) fn noted(&self) -> &[u16]
        ensures { result.now ≡ noted self.now }
    {
        // bounded by the room, as the length alone bounds nothing
        &self.stations[..self.len.min(512)]
    }

    /// The station that was noted at a place, counted from 0, or none.
    pub(crate) fn get(&self, place: usize) -> Option<usize>
        ensures { result ≡ slice_get (noted self.now) place }
    {
        self.noted().get(place).map(|s| usize::from(*s))
    }

    /// Notes a station behind the others.
    pub(crate) fn push(&mut self, s: usize)
        requires station { s < 512 }
        requires room { length (noted self.old) < 512 }
        ensures { noted self.new ≡ noted self.old ++ (s ∷ []) }
    {
        let len = self.noted().len();
        // a cast, as stations are below 512
        self.stations[len] = s as u16;
        self.len = len + 1;
    }

    /// Orders the stations by their places, the greatest first.
    pub(crate) fn sort_last_first(&mut self, order: &Order)
        ensures same { (s : ℕ) → holds (noted self.new) s ≡ holds (noted self.old) s }
        ensures last_first { LastFirst order.now.places (noted self.new) }
    {
        let len = self.noted().len();
        // the greatest place has the smallest key
        self.stations[..len].sort_unstable_by_key(|s| u16::MAX - order.place(usize::from(*s)));
    }
}
