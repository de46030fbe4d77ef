//! One verdict for every number of processes: all instances of a pattern with few processes of each role are judged, on
//! all placements.
#![tactic(auto)]

mod choices;
mod counterexample;
mod cutoff;
mod judge;
pub mod laws;
mod limits;
mod selections;
mod sizes;

pub use counterexample::Counterexample;
pub use cutoff::{cast_for, judge_pattern};
pub use judge::instance_scripts;
pub use selections::{Selection, all_selections};
pub use sizes::{all_sizes, most_of};
