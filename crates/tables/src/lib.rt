//! A table of neighbours written as text: a line for each station, with its neighbours parted by spaces.
#![tactic(auto)]

mod fault;
mod rows;

pub use fault::Unread;
pub use rows::{Table, read};
