//! Route cards: from bytes that are offered as a sheet to a card for each station, which names the next station on the
//! way to the panel. An offer is spent when it passes or is refused, and a sheet that passed when its cards are written.
#![tactic(auto)]

pub mod laws;
mod offered;
mod passed;
mod writing;

pub use offered::Offered;
pub use passed::Passed;
pub use view::Refusal;

/// The length of the most cards that there can be: two bytes for each of 512 stations.
pub const LONGEST: usize = 1_024;
