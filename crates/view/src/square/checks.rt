//! The check of a grid.

ghost use Rattle.std.specs.Prelude.{◌≡◌};
ghost use Rattle.view.specs.Grid.{bitmap};
ghost use Rattle.view.specs.GridChecked.{judged, checked};

use super::Grid;
use crate::counts::is_sized;
use crate::{Refusal, TableFault};

impl Grid<'_> {
    /// The first fault, if any: of the station count and the shape, then of the rows from the lowest.
    fn judge(&self) -> Result<(), TableFault>
        ensures { result ≡ judged (bitmap self.now) }
    {
        if !(is_sized(self.stations) && self.is_shaped()) {
            return Err(TableFault::Shape);
        }
        self.find_bad_row()
            .map_or(Ok(()), |row| Err(TableFault::Row(row)))
    }

    /// Judges a grid from any hand: its station count and its shape, then its rows from the lowest.
    pub fn check(&self) -> Result<(), Refusal>
        ensures { result ≡ checked (bitmap self.now) }
    {
        self.judge().map_err(Refusal::from)
    }
}
