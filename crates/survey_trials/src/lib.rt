//! Tests of surveys, on values that were worked out by hand.
#![tactic(auto)]

#[cfg(test)]
mod accepted;
#[cfg(test)]
mod refused;
