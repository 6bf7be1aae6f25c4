//! Tests of the book, on sites that were worked out by hand and on long lists of links.
#![tactic(auto)]

#[cfg(test)]
mod long;
#[cfg(test)]
mod numbers;
#[cfg(test)]
mod refused;
#[cfg(test)]
mod sheets;
#[cfg(test)]
mod sites;
