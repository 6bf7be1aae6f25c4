//! Levels of a site: their counts, the rules that score them, and the level that a rule chooses.
#![tactic(auto)]

mod average;
mod counts;
pub mod laws;
pub mod levels;
mod net;
mod numbered;
mod paired;
mod rule;
mod tally;

pub use average::{Average, Fraction};
pub use counts::Counts;
pub use net::Net;
pub use paired::{Pair, Paired};
pub use rule::Rule;
pub use tally::Tally;
pub use view::Refusal;
