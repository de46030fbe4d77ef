//! What the few instances of a pattern that are judged tell of who waits in instances of any size.
#![tactic(auto)]

pub mod laws;
