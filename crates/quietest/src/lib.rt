//! A rule of a customer's own: the quietest level is the backbone.
#![tactic(auto)]

ghost use Rattle.quietest.specs.Quiet.{quiet, by_quiet, lawful_quiet};

use rules::{Rule, Tally};
use std::cmp::Ordering;

/// Fewer links at the boundary stand above, and where those are level, more members.
#[derive(Clone, Copy, PartialEq, Eq, Debug)]
pub struct Quietest;

/// How quiet a level is.
#[derive(Clone, Copy, PartialEq, Eq, Debug)]
pub struct Quiet {
    /// How many links have one end in the level.
    pub boundary: u32,
    /// How many stations the level has.
    pub members: u32,
}

impl Rule for Quietest {
    type Score = Quiet;

    ghost scores = { λ _. quiet };

    ghost orders = { λ _. by_quiet };

    ghost lawful = { λ _. lawful_quiet };

    fn score(&self, tally: &Tally) -> Quiet {
        Quiet {
            boundary: tally.boundary(),
            members: tally.members(),
        }
    }

    fn compare(&self, a: &Quiet, b: &Quiet) -> Ordering {
        let boundary = b.boundary.cmp(&a.boundary);
        boundary.then(a.members.cmp(&b.members))
    }
}
