//! The whole agreement: what the book, the drawer, the inspector and the rules promise together, of one list of calls.
#![tactic(auto)]

mod call;
mod replaying;

pub use book::{Book, Refusal};
pub use call::{Answer, Call, CallRefusal};
pub use replaying::{Outcome, replay};
pub use sheet::LONGEST;
pub use survey::SurveyFault;
