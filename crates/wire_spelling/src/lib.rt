//! How the calls of fences spell their sets in the text of a plan.
#![tactic(auto)]

mod known;
mod numbering;
mod reading;
mod spelled;
mod spelling;

pub use spelling::{Spelling, Spelt, read_spelling};
