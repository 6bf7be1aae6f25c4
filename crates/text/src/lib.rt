//! Lines, words and decimal numbers of a text of bytes.
#![tactic(auto)]

mod cut;
pub mod laws;
mod numbers;

pub use cut::{Lines, Token, Tokens};
pub use numbers::{decimal, natural};
