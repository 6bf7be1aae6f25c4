//! The lines that tell what was read and found.
#![tactic(auto)]

mod lines;

pub use lines::{Line, Moved, Stations};
