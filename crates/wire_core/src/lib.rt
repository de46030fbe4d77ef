//! The run of a plan, one event at a time.
#![tactic(auto)]

mod core_plan;
mod ends;
mod keeping;
mod looks;
mod lowest;
mod met;
mod name_changes;
mod plain;
mod rank;
mod replies;
mod running;
mod sight;
mod waits;
mod within;

pub use ends::add_unanswered;
pub use plain::plain_outcome;
pub use running::Core;
