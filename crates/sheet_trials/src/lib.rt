//! Tests of sheets, on values that were worked out by hand.
#![tactic(auto)]

#[cfg(test)]
mod both_ways;
#[cfg(test)]
mod reading;
#[cfg(test)]
mod writing;
