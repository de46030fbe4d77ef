//! Who waits for ever where a run stands: a deadlock, and the ranks that wait for no rank; in lines, and as JSON with the
//! report.
#![tactic(auto)]

mod lines;
mod plans;
mod report;
mod standstill;
mod whom;

pub use plans::{explain_standstill, list_standstill, standstill_report, tell_standstill};
