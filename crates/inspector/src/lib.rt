//! The inspector: whether a sheet, from any tool, is that of a view.
#![tactic(auto)]

mod claim;
mod comparing;
mod inspecting;
mod judging;
pub mod laws;

pub use inspecting::inspect;
pub use view::Refusal;
