//! Tests of the levels and of what rules choose, on values that were worked out by hand.
#![tactic(auto)]

#[cfg(test)]
mod choices;
#[cfg(test)]
mod sites;
#[cfg(test)]
mod small;
