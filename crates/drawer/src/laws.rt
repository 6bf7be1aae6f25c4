//! The law of the removals, on a contract of its own.

ghost use Rattle.drawer.specs.Removals.{StationsAreRemovedInTurn};

/// Each station is removed once, in the drawn order: of those that are left the one with the fewest neighbours among
/// them, the lowest of equals, and with so many neighbours left.
pub fn stations_are_removed_in_turn()
    ensures { StationsAreRemovedInTurn }
{}
