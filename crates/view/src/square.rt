//! Links as rows of bits: a grid from any hand, and the view of one that was checked.

ghost use Rattle.std.specs.Prelude.{◌≡◌, true};
ghost use Rattle.view.specs.Rows.{Faithful, each_neighbour};
ghost use Rattle.view.specs.Grid.{bitmap, sound, site_of};

mod answers;
mod bits;
mod checks;
mod opens;
mod rows;

/// Links as rows of bits, from any hand: a row for each station, of n/8 bytes rounded up. Bit c mod 8 of byte c div 8,
/// from the lowest bit, says whether the station of the row and station c are linked. Spare bits, for c of n or more, are 0.
#[derive(Clone, Copy, PartialEq, Eq, Debug)]
pub struct Grid<'a> {
    pub stations: usize,
    pub bytes: &'a [u8],
}

/// A view of links whose rows of bits are as they should be.
#[derive(Clone, Copy, PartialEq, Eq, Debug)]
pub struct Square<'a> {
    grid: Grid<'a>,
    ghost sound: { sound (bitmap grid) ≡ true },
    ghost faithful: { Faithful (site_of (bitmap grid)) (each_neighbour (site_of (bitmap grid))) },
}
