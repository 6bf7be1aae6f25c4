//! Tests of what is read from text and told as text, on values that were worked out by hand.
#![tactic(auto)]

#[cfg(test)]
mod texts;
#[cfg(test)]
mod transcripts;
