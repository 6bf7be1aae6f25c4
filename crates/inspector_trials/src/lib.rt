//! Tests of the inspector, on values that were worked out by hand.
#![tactic(auto)]

#[cfg(test)]
mod drawn;
#[cfg(test)]
mod faults;
#[cfg(test)]
mod offered;
