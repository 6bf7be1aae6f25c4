//! Tests of the drawer, on values that were worked out by hand.
#![tactic(auto)]

#[cfg(test)]
mod large;
#[cfg(test)]
mod small;
#[cfg(test)]
mod struck;
