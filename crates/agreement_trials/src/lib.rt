//! Tests of the agreement, on lists of calls whose answers were worked out by hand.
#![tactic(auto)]

#[cfg(test)]
mod answers;
#[cfg(test)]
mod sites;
#[cfg(test)]
mod verdicts;
