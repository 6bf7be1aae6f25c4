//! Stations as they are removed.

/// A station as it is removed from those that are left of a site.
#[derive(Clone, Copy, Default, PartialEq, Eq, Debug)]
pub struct Removal {
    pub station: usize,
    /// How many neighbours it has among those that are left.
    pub left: usize,
}
