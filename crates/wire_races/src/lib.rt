//! What the checker finds in a plan.
#![tactic(auto)]

mod call_races;
mod finding_search;
mod get_races;
mod key_races;
pub mod laws;
mod name_races;
mod racing;
mod reported;
mod rewrites;
mod search_pieces;
mod sweep_races;

pub use finding_search::{finding_list, findings, placeless_findings};
pub use key_races::{are_unordered, is_lower, is_open, least_processes};
pub use racing::are_racing;
pub use reported::race_calls;
pub use wire_fates::{Fate, Settled, Unsettled};
pub use wire_findings::{Finding, FindingList};
