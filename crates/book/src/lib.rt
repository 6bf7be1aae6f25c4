//! The book: a site whose links are set and taken away one by one, with the number of each station kept current.
#![tactic(auto)]

mod book;
pub mod laws;
mod order;
mod queue;
mod station;
mod table;

pub use book::Book;
pub use view::{Refusal, View};
