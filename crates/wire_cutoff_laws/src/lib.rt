//! What few processes of each role of a pattern tell of any number of them.
#![tactic(auto)]

pub mod laws;
