//! The three counts of a level.

/// The three counts of a level, as they stand in a caller's list.
#[derive(Clone, Copy, Default, PartialEq, Eq, Debug)]
pub struct Counts {
    /// How many stations the level has.
    pub members: u32,
    /// How many links have both ends in it.
    pub inside: u32,
    /// How many links have one end in it.
    pub boundary: u32,
}
