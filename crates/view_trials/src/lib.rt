//! Tests of refusals and views, on values that were worked out by hand.
#![tactic(auto)]

#[cfg(test)]
mod forest;
#[cfg(test)]
mod listed;
#[cfg(test)]
mod refusal_table;
pub mod rehearsals;
#[cfg(test)]
mod service;
#[cfg(test)]
mod sites;
#[cfg(test)]
mod square;
#[cfg(test)]
mod struck;
