//! What a site and its plan are: the definitions that every promise cites, and their laws.
#![tactic(auto)]

pub mod laws;
