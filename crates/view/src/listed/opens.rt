//! From a listing to the view that it means.

ghost use Rattle.std.specs.Prelude.{◌≡◌};
ghost use Rattle.cores.specs.Site.{no_stations};
ghost use Rattle.view.specs.Listing.{lists};
ghost use Rattle.view.specs.Checked.{opened};

use super::{Listed, Listing};
use crate::View;

impl<'a> Listed<'a> {
    /// The view with no stations.
    fn without_stations() -> Listed<'a>
        ensures { ⟦<Listed<'a> as View>⟧.site result ≡ no_stations }
    {
        Listed {
            listing: Listing {
                starts: &[0],
                ends: &[],
            },
        }
    }

    /// The view that a listing means, or the view with no stations where the check turns it down.
    pub fn open(listing: Listing<'a, 'a>) -> Listed<'a>
        ensures { ⟦<Listed<'a> as View>⟧.site result ≡ opened (lists listing.entry) }
    {
        if listing.check().is_err() {
            return Listed::without_stations();
        }
        Listed { listing }
    }
}
