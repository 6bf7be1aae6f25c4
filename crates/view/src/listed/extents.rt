//! How large the site of a listing is.

ghost use Rattle.std.specs.Prelude.{◌≡◌};
ghost use Rattle.view.specs.Listing.{lists};
ghost use Rattle.view.specs.Extents.{measured};

use super::{Listed, Listing};
use crate::links::count_links;
use crate::{Refusal, View};

/// How large a site is.
#[derive(Clone, Copy, PartialEq, Eq, Debug)]
pub struct Extent {
    pub stations: usize,
    pub links: usize,
}

impl Listing<'_, '_> {
    /// Judges a listing, and counts the stations and links of a lawful one.
    pub fn measure(&self) -> Result<Extent, Refusal>
        ensures { result ≡ measured (lists self.now) }
    {
        self.check()?;
        let view = Listed::open(*self);
        Ok(Extent {
            stations: view.stations(),
            links: count_links(&view)?,
        })
    }
}
