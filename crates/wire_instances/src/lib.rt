//! The instances of a pattern, as texts of plans.
#![tactic(auto)]

mod calls;
mod cast;
mod excerpt;
mod frame;
mod nodes;
mod numbers;
mod search;
mod sizes;
mod tables;
mod text;
mod words;

pub use cast::{Cast, Choice, Nodes, Turn, is_cast, process_total};
pub use frame::{LoopTurns, turns_of};
pub use nodes::{all_alone, dealt, paired, per_node};
pub use numbers::pattern_fault;
pub use sizes::{Asked, processes_within, sizes_asked};
pub use tables::roles_by;
pub use text::{write_front, write_instance};
