//! Links as two lent lists: a listing from any hand, and the view of one that was checked.

ghost use Rattle.std.specs.Prelude.{◌≡◌, true};
ghost use Rattle.view.specs.Rows.{Faithful};
ghost use Rattle.view.specs.Listing.{lists, row, sound, site_of};

mod answers;
mod checks;
mod extents;
mod opens;
mod rows;

pub use extents::Extent;

/// Links as two lists, from any hand: the neighbours of station s are the ends from place `starts[s]` to just before
/// `starts[s + 1]`. The rules give a listed table this form.
#[derive(Clone, Copy, PartialEq, Eq, Debug)]
pub struct Listing<'s, 'e> {
    pub starts: &'s [u32],
    pub ends: &'e [u16],
}

/// A view of links that are listed as they should be.
#[derive(Clone, Copy, PartialEq, Eq, Debug)]
pub struct Listed<'a> {
    listing: Listing<'a, 'a>,
    ghost sound: { sound (lists listing) ≡ true },
    ghost faithful: { Faithful (site_of (lists listing)) (row (lists listing)) },
}
