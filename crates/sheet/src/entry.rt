//! What a sheet says of one station.

ghost use Rattle.std.specs.Prelude.{◌≡◌};
ghost use Rattle.sheet.specs.Plans.{entry_at_fault};
ghost use Rattle.sheet.specs.Encoding.{present, map_byte};

/// The number, the home and the up of a station.
#[derive(Clone, Copy)]
pub(crate) struct Entry {
    pub(crate) number: u16,
    pub(crate) home: u16,
    pub(crate) up: Option<u16>,
}

impl Entry {
    /// What stands in the list of entries before it is filled.
    pub(crate) const BLANK: Entry = Entry {
        number: 0,
        home: 0,
        up: None,
    };

    /// Whether it does not fit station s on a site of so many stations.
    #[tactic(auto, unfolding(crate::specs::Plans::entry_at_fault))]
    pub(crate) fn is_at_fault(&self, count: usize, s: usize) -> bool
        ensures { result ≡ entry_at_fault count s self.now }
    {
        let home = usize::from(self.home);
        usize::from(self.number) >= count
            || home >= count
            || self
                .up
                .is_some_and(|up| usize::from(up) >= count || home != s)
    }

    /// Which fields a sheet has for it as station s.
    pub(crate) fn present(&self, s: usize) -> Present
        ensures { result ≡ present s self.now }
    {
        Present {
            number: self.number != 0,
            home: usize::from(self.home) != s,
            up: self.up.is_some(),
        }
    }
}

/// Which fields a sheet has for a station.
#[derive(Clone, Copy)]
pub(crate) struct Present {
    pub(crate) number: bool,
    pub(crate) home: bool,
    pub(crate) up: bool,
}

impl Present {
    /// The map byte.
    #[tactic(auto, unfolding(crate::specs::Encoding::map_byte, cores::specs::Counting::bit))]
    pub(crate) fn map_byte(&self) -> u8
        ensures { result ≡ map_byte self.now }
    {
        u8::from(self.number) + 2 * u8::from(self.home) + 4 * u8::from(self.up)
    }
}
