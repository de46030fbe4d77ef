//! A core that many threads may serve, one process at a time.
#![tactic(auto)]

mod advance;
mod lock;

pub use advance::advance_far;
pub use lock::LockedCore;
