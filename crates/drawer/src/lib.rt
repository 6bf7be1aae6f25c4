//! The drawer: from a view to the sheet of its site.
#![tactic(auto)]

mod admitted;
mod drawing;
pub mod laws;
mod numbering;
mod ordering;
mod peeling;
mod rehearsing;
mod remaining;
mod removal;
mod stations;

pub use drawing::draw;
pub use numbering::numbers;
pub use peeling::removals;
pub use rehearsing::draw_without;
pub use removal::Removal;
pub use view::Refusal;
