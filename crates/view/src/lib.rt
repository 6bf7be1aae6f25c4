//! Views of a site: stations and links behind three questions.
#![tactic(auto)]

ghost use Rattle.std.specs.Prelude.{◌≡◌, ℕ, List, length};
ghost use Rattle.std.specs.List.{slice_get};
ghost use Rattle.cores.specs.Site.{Site};
ghost use Rattle.view.specs.Rows.{Faithful, StandsBefore};

pub mod counts;
pub mod forest;
pub mod laws;
mod lent;
pub mod links;
pub mod listed;
mod neighbours;
pub mod rehearsal;
pub mod service;
pub mod square;
pub mod struck;

pub use neighbours::Neighbours;
pub use refusals::{Refusal, TableFault};

/// In a table of ups: this station has no up.
pub const NO_UP: u16 = 65_535;

/// Stations that hear one another. A view means a site, and answers by it.
pub trait View {
    /// The site that the view means.
    ghost site: { Self → Site };

    /// The neighbours of each station, in the order in which the view gives them.
    ghost row: { Self → ℕ → List ℕ };

    /// How many stations there are. They are numbered from 0.
    fn stations(&self) -> usize
        ensures { result ≡ (site self.now).size };

    /// How many neighbours a station has: none if it is not on the site.
    fn degree(&self, s: usize) -> usize
        ensures { result ≡ length (row self.now s) };

    /// Which neighbour of a station is at a place, counted from 0, or none.
    fn neighbour(&self, s: usize, place: usize) -> Option<usize>
        ensures { result ≡ slice_get (row self.now s) place };

    /// The same, asked with the neighbour at the place before in hand; a view may answer it sooner. With another in hand, the
    /// answer is any.
    fn neighbour_after(&self, s: usize, place: usize, before: usize) -> Option<usize>
        ensures { StandsBefore (row self.now s) place before → result ≡ slice_get (row self.now s) place }
    {
        self.neighbour(s, place)
    }

    /// The law of a view.
    ghost faithful: { (v : Self) → Faithful (site v) (row v) };

    /// The neighbours of a station, one after the other.
    final fn neighbours(&self, s: usize) -> Neighbours<'_, Self>
        ensures { result ≡ row self.now s }
    {
        Neighbours::new(self, s)
    }
}
