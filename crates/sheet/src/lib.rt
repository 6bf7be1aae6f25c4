//! The form of a sheet: a plan of a site as bytes.
#![tactic(auto)]

mod draft;
mod entry;
mod fields;
pub mod laws;
mod lists;
mod reading;
mod roll;
mod tables;
mod unpacked;
mod writing;

pub use draft::LONGEST;
pub use reading::read;
pub use view::{NO_UP, Refusal};
pub use writing::put;
