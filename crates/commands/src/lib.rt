//! The commands of the console: how they are read from a line, and how the answers to them are written.
#![tactic(auto)]

mod answers;
mod command;
mod hexadecimal;
pub mod laws;
mod lists;
mod name;
mod scoring;
mod unread;

pub use answers::Answer;
pub use command::{BookCall, Command, Question, Tables};
pub use hexadecimal::{Hexadecimal, decode};
pub use lists::Number;
pub use scoring::Scoring;
pub use unread::Unread;
