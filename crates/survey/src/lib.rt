//! Surveys: the text that a fitter writes of a site, read into a book.
#![tactic(auto)]

mod faults;
pub mod laws;
mod line;
mod read;
mod word;

pub use book::{Book, Refusal};
pub use faults::{BookFault, Layer, LineFault, RefusalLine, Report, Spot, SurveyFault};
pub use read::{LONGEST, read_survey};
