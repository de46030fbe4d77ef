//! What one run of a program tells of all its runs.
#![tactic(auto)]

pub mod laws;
