//! Tests of tallies and rules, on values that were worked out by hand.
#![tactic(auto)]

#[cfg(test)]
mod average;
#[cfg(test)]
mod levels;
#[cfg(test)]
mod net;
#[cfg(test)]
mod paired;
#[cfg(test)]
mod quiet;
#[cfg(test)]
mod tallies;
