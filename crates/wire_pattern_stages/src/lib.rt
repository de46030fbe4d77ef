//! At which call lines of a pattern something waits in the instances that are judged, and whether all of these keep stages:
//! an order of the lines, and within a stage of turns, in which no process waits for what comes later; and how their
//! calls are answered.
#![tactic(auto)]

mod cutoff;
mod instance;
mod key;
mod labels;
mod last;
mod lookups;
mod search;
mod stage;
mod succeeding;

pub use cutoff::{Waiting, find_waiting};
pub use succeeding::rows_succeed;
