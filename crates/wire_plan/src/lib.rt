//! Plans: the events that scripts are made of, and what each of them depends on. The definitions of runs,
//! and their laws, stand in `wire_runs`.
#![tactic(auto)]

mod bringing;
mod by_number;
mod deliveries;
mod events;
mod gets;
mod index;
mod key_rows;
mod keys;
mod kind;
mod meetings;
mod names;
mod plan;
mod rows;
mod sources;

pub use kind::Kind;
pub use plan::{Plan, fence_of};
pub use sources::Sources;
