//! What the book holds of one station.

ghost use Rattle.std.specs.Prelude.{◌≡◌, ◌<◌, length};
ghost use Rattle.book.specs.Stations.{alone, entries, put, cut};

/// A station: the stations that it is linked to, rising, and its core number.
#[derive(Clone, Copy)]
pub(crate) struct Station {
    row: [u16; 32],
    len: usize,
    number: u16,
}

impl Station {
    /// A station without links.
    pub(crate) fn new() -> Station
        ensures { result ≡ alone }
    {
        Station {
            row: [0; 32],
            len: 0,
            number: 0,
        }
    }

    /// The stations that it is linked to.
    pub(crate) fn row(&self) -> &[u16]
        ensures { result.now ≡ entries self.now }
    {
        // bounded by the room, as the length alone bounds nothing
        &self.row[..self.len.min(32)]
    }

    /// Its core number.
    pub(crate) fn number(&self) -> u16
        ensures { result ≡ self.now.number }
    {
        self.number
    }

    /// Takes another number.
    pub(crate) fn renumber(&mut self, number: u16)
        ensures row { entries self.new ≡ entries self.old }
        ensures number { self.new.number ≡ number }
    {
        self.number = number;
    }

    /// Puts a neighbour in its place in the row.
    pub(crate) fn insert(&mut self, neighbour: u16)
        requires { length (entries self.old) < 32 }
        ensures row { entries self.new ≡ put neighbour (entries self.old) }
        ensures number { self.new.number ≡ self.old.number }
    {
        let len = self.row().len();
        let place = self
            .row()
            .iter()
            .position(|entry| neighbour < *entry)
            .unwrap_or(len);
        self.row.copy_within(place..len, place + 1);
        self.row[place] = neighbour;
        self.len = len + 1;
    }

    /// Takes a neighbour out of the row.
    pub(crate) fn remove(&mut self, neighbour: u16)
        ensures row { entries self.new ≡ cut neighbour (entries self.old) }
        ensures number { self.new.number ≡ self.old.number }
    {
        let len = self.row().len();
        if let Some(place) = self.row().iter().position(|entry| neighbour == *entry) {
            self.row.copy_within(place + 1..len, place);
            self.len = len - 1;
        }
    }
}
