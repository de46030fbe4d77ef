//! Clocks of many processes that share what they have in common: what a clock has as an older one has it is
//! kept once.
#![tactic(auto)]

mod notes;
mod rising;
mod rows;
mod trees;

pub use rising::Rising;
pub use trees::ClockTrees;
