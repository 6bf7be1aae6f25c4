//! The order in which the stations stand.

ghost use Rattle.std.specs.Prelude.{◌≡◌, ◌<◌, ◌≤◌, slice_index};
ghost use Rattle.book.specs.Orders.{Apart, Kept, PutFirst, PutLast, lower};

/// The place in the middle of all that there are, less half of the stations.
const MIDDLE: u16 = 32_512;

/// The place of each station there can be. No two have one place.
#[derive(Drop)]
pub(crate) struct Order {
    places: [u16; 512],
    /// No place is lower.
    first: u16,
    /// No place is higher.
    last: u16,
    ghost apart: { Apart places first last },
}

impl Order {
    /// The stations in the order of their indices.
    pub(crate) fn new() -> Order {
        Order {
            // a cast, as there are 512 stations
            places: std::array::from_fn(|s| MIDDLE + s as u16),
            first: MIDDLE,
            last: MIDDLE + 511,
        }
    }

    /// The place of a station; 0 if it has none.
    pub(crate) fn place(&self, s: usize) -> u16
        ensures { result ≡ slice_index self.now.places s }
    {
        self.places.get(s).map_or(0, |place| *place)
    }

    /// Puts a station ahead of all others.
    pub(crate) fn put_first(&mut self, s: usize)
        requires { s < 512 }
        ensures { PutFirst s self.old.places self.new.places }
    {
        self.make_room();
        self.first -= 1;
        self.places[s] = self.first;
    }

    /// Puts a station behind all others.
    pub(crate) fn put_last(&mut self, s: usize)
        requires { s < 512 }
        ensures { PutLast s self.old.places self.new.places }
    {
        self.make_room();
        self.last += 1;
        self.places[s] = self.last;
    }

    /// Sees to it that there is a place ahead of all stations and one behind them.
    fn make_room(&mut self)
        ensures order { Kept self.old.places self.new.places }
        ensures ahead { 0 < self.new.first }
        ensures behind { self.new.last < 65535 }
    {
        if self.first == 0 || self.last == u16::MAX {
            self.move_to_middle();
        }
    }

    /// Moves the stations to places in the middle.
    fn move_to_middle(&mut self)
        ensures order { Kept self.old.places self.new.places }
        ensures ahead { 0 < self.new.first }
        ensures behind { self.new.last < 65535 }
    {
        let old = self.places;
        for place in &mut self.places {
            // a cast, as there are 512 stations
            *place = MIDDLE + count_lower(&old, *place) as u16;
        }
        self.first = MIDDLE;
        self.last = MIDDLE + 512;
    }
}

/// How many places are lower than one.
fn count_lower(places: &[u16], than: u16) -> usize
    ensures { result ≡ lower places.now than }
{
    places.iter().filter(|place| **place < than).count()
}
