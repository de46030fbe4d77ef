//! A run by many threads, round by round: of any plan over a core under a lock, of a settled one over a board without
//! such a lock. Which interleaving runs is open. It is proved that it can't go on, and what became of every call. Over
//! a board, the trails of the lanes and the words of the board tell that.
#![tactic(auto)]

mod by_core;
mod by_fates;
mod collect;
mod crew;
mod outcome;
mod over_core;
mod over_lanes;
mod queue;
mod rest;
mod rounds;
mod rows;
mod threads;

pub use collect::{MOST_WORKERS, run_any, run_workers};
pub use outcome::outcome_of;
