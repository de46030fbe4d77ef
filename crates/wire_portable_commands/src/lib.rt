//! `check --portable`, from bytes to bytes: the findings of a plan, and on which libraries each run does as the rules say.
#![tactic(auto)]

mod check;
mod groups;
mod json;
mod lines;
mod reading;
mod spelled_calls;
mod text;
mod words;

pub use check::{PortableAsked, check_portable};
pub use spelled_calls::calls_are_spelled;
