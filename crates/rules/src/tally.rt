//! The tally of a level: counts that are within the limits.

ghost use Rattle.std.specs.Prelude.{◌≡◌, true, cond, Some, None};
ghost use Rattle.std.specs.Option.{option_map};
ghost use Rattle.rules.specs.Limits.{within};

use crate::Counts;

/// The counts of a level, which are what a rule is given. They are within the limits.
#[derive(Clone, Copy, PartialEq, Eq, Debug)]
pub struct Tally {
    counts: Counts,
    ghost fits: { within counts ≡ true },
}

impl Tally {
    ghost use Rattle.rules.specs.Tallies.{counts_in};

    /// The tally with these counts, or none where one of them is off limits.
    pub fn new(counts: Counts) -> Option<Tally>
        ensures { option_map counts_in result ≡ cond (within counts) (Some counts) None }
    {
        if (1..=512).contains(&counts.members)
            && counts.inside <= 130_816
            && counts.boundary <= 65_536
        {
            Some(Tally { counts })
        } else {
            None
        }
    }

    /// How many stations the level has: 1 to 512.
    pub fn members(&self) -> u32
        ensures { result ≡ (counts_in self.now).members }
    {
        self.counts.members
    }

    /// How many links have both ends in it: at most 130,816.
    pub fn inside(&self) -> u32
        ensures { result ≡ (counts_in self.now).inside }
    {
        self.counts.inside
    }

    /// How many links have one end in it: at most 65,536.
    pub fn boundary(&self) -> u32
        ensures { result ≡ (counts_in self.now).boundary }
    {
        self.counts.boundary
    }
}
