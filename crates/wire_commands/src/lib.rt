//! The commands, from bytes to bytes: each in a module of its name, in all its forms.
#![tactic(auto)]

mod calls_json;
mod check;
mod check_anywhere;
mod check_same;
mod complete;
mod follow;
mod json_builder;
mod migrate;
mod place;
mod plain;
mod replay;
mod why;
mod witness;
mod witnesses;

pub use check::{answer_findings, check_plan};
pub use check_anywhere::{answer_found, check_placements};
pub use check_same::check_replies;
pub use follow::follow_plan;
pub use migrate::migrate_plan;
pub use place::place_plan;
pub use plain::run_plainly;
pub use replay::{Mode, ReplaySettings, Replayed, replay_plan};
pub use why::explain_order;
pub use witness::{PairAsked, witness_pair};
pub use witnesses::witness_races;
