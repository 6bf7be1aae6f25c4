//! From a grid to the view that it means.

ghost use Rattle.std.specs.Prelude.{◌≡◌};
ghost use Rattle.cores.specs.Site.{no_stations};
ghost use Rattle.view.specs.Grid.{bitmap};
ghost use Rattle.view.specs.GridChecked.{opened};

use super::{Grid, Square};
use crate::View;

impl<'a> Square<'a> {
    /// The view with no stations.
    fn without_stations() -> Square<'a>
        ensures { ⟦<Square<'a> as View>⟧.site result ≡ no_stations }
    {
        Square {
            grid: Grid {
                stations: 0,
                bytes: &[],
            },
        }
    }

    /// The view that a grid means, or the view with no stations where the check turns it down.
    pub fn open(grid: Grid<'a>) -> Square<'a>
        ensures { ⟦<Square<'a> as View>⟧.site result ≡ opened (bitmap grid.entry) }
    {
        if grid.check().is_err() {
            return Square::without_stations();
        }
        Square { grid }
    }
}
