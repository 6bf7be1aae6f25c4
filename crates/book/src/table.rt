//! The stations of the book: their rows and numbers, whatever they are.

ghost use Rattle.std.specs.Prelude.{◌≡◌, ◌<◌, length, replicate, slice_index, slice_set};
ghost use Rattle.cores.specs.Counting.{holds};
ghost use Rattle.book.specs.Stations.{put, cut};
ghost use Rattle.book.specs.Tables.{links, numbers, places, row as row_of, unlinked, with_row};

use crate::order::Order;
use crate::station::Station;

mod joining;
mod lifting;
mod settling;

/// The record of each station there can be, how many of them there are, and an order that bears out their numbers.
#[derive(Drop)]
pub(crate) struct Table {
    count: usize,
    stations: [Station; 512],
    order: Order,
}

impl Table {
    /// A table of stations without links.
    pub(crate) fn laid_out(count: usize) -> Table
        ensures links { links result ≡ unlinked count }
        ensures numbers { numbers result ≡ replicate 512 0 }
    {
        Table {
            count,
            stations: [Station::new(); 512],
            order: Order::new(),
        }
    }

    /// How many stations there are.
    pub(crate) fn count(&self) -> usize
        ensures { result ≡ (links self.now).stations }
    {
        self.count
    }

    /// The neighbours of a station; none if it has no record.
    pub(crate) fn row(&self, s: usize) -> &[u16]
        ensures { result.now ≡ row_of (links self.now) s }
    {
        match self.stations.get(s) {
            Some(station) => station.row(),
            None => &[],
        }
    }

    /// Whether the row of a station lists another.
    pub(crate) fn lists(&self, s: usize, t: usize) -> bool
        ensures { result ≡ holds (row_of (links self.now) s) t }
    {
        self.row(s).iter().any(|entry| usize::from(*entry) == t)
    }

    /// The number of a station; 0 if it has no record.
    pub(crate) fn number(&self, s: usize) -> u16
        ensures { result ≡ slice_index (numbers self.now) s }
    {
        self.stations.get(s).map_or(0, |station| station.number())
    }

    /// Gives a station another number.
    pub(crate) fn renumber(&mut self, s: usize, number: u16)
        requires { s < 512 }
        ensures links { links self.new ≡ links self.old }
        ensures numbers { numbers self.new ≡ slice_set (numbers self.old) s number }
        ensures order { places self.new ≡ places self.old }
    {
        self.stations[s].renumber(number);
    }

    /// Puts a neighbour in its place in the row of a station.
    pub(crate) fn insert(&mut self, s: usize, t: usize)
        requires record { s < 512 }
        requires neighbour { t < 512 }
        requires room { length (row_of (links self.old) s) < 32 }
        ensures links { links self.new ≡ with_row (links self.old) s (put t (row_of (links self.old) s)) }
        ensures numbers { numbers self.new ≡ numbers self.old }
        ensures order { places self.new ≡ places self.old }
    {
        // a cast, as stations are below 512
        self.stations[s].insert(t as u16);
    }

    /// Takes a neighbour out of the row of a station.
    pub(crate) fn remove(&mut self, s: usize, t: usize)
        requires record { s < 512 }
        requires neighbour { t < 512 }
        ensures links { links self.new ≡ with_row (links self.old) s (cut t (row_of (links self.old) s)) }
        ensures numbers { numbers self.new ≡ numbers self.old }
        ensures order { places self.new ≡ places self.old }
    {
        // a cast, as stations are below 512
        self.stations[s].remove(t as u16);
    }
}
