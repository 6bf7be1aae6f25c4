//! Tests of the cards, on values that were worked out by hand.
#![tactic(auto)]

#[cfg(test)]
mod issued;
#[cfg(test)]
mod refused;
#[cfg(test)]
mod sites;
