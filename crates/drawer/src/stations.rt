//! Sets of stations.

ghost use Rattle.std.specs.Prelude.{◌≡◌, ℕ, ◌<◌, false};
ghost use Rattle.cores.specs.Numbers.{including, without};
ghost use Rattle.drawer.specs.Stations.{is_in, IsFirst};

/// A set of stations, with a bit for each station that there can be.
#[derive(Clone, Copy)]
pub(crate) struct StationSet {
    words: [u64; 8],
}

impl StationSet {
    /// The set of no station.
    pub(crate) fn none() -> StationSet
        ensures { (t : ℕ) → is_in result t ≡ false }
    {
        StationSet { words: [0; 8] }
    }

    /// Puts a station in.
    pub(crate) fn insert(&mut self, s: usize)
        requires { s < 512 }
        ensures { (t : ℕ) → is_in self.new t ≡ including s (is_in self.old) t }
    {
        self.words[s / 64] |= 1 << (s % 64);
    }

    /// Takes a station out.
    pub(crate) fn remove(&mut self, s: usize)
        requires { s < 512 }
        ensures { (t : ℕ) → is_in self.new t ≡ without s (is_in self.old) t }
    {
        self.words[s / 64] &= !(1 << (s % 64));
    }

    /// The lowest station of the set, or none if nobody is in it.
    pub(crate) fn first(&self) -> Option<usize>
        ensures { IsFirst (is_in self.now) result }
    {
        for (place, word) in self.words.iter().enumerate() {
            if *word != 0 {
                // a cast, as Rust has no `From<u32>` for `usize`
                return Some(64 * place + word.trailing_zeros() as usize);
            }
        }
        None
    }
}
