//! The JSON forms of a report, of findings, of an unsettled replay, of the answer to a question
//! and of what shows races, as bytes; and the parts of which crates above put together forms with the lines of calls.
#![tactic(auto)]

mod chains;
mod forms;
mod objects;
mod parts;
mod places;
mod strings;
mod trees;
mod witnesses;

pub use chains::{ChainStep, Half, chain_json, unordered_json, which_word};
pub use forms::{findings_json, report_json, unsettled_json};
pub use parts::{lined_place_json, lined_step_json, push_list, push_quoted};
pub use strings::printable_kept;
pub use witnesses::{
    RaceCounts, RunTold, counts_json, races_json, run_json, unshown_json, witness_json,
};
