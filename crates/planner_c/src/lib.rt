//! The planner's calls for programs in C or Rust: a static library. A call over a table is given it as a listing, and opens it.
#![tactic(auto)]

mod drawing;
mod judging;
mod linking;
mod reply;
mod scoring;
