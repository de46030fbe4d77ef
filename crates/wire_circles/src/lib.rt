//! Circles among those that wait: each of some waits for the next, and the last for the first. Such a circle is a
//! deadlock.
#![tactic(auto)]

mod search;

pub use search::find_circle;
