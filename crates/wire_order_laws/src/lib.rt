//! What a plan with less order tells of a plan with more.
#![tactic(auto)]

pub mod laws;
