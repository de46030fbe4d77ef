//! What the answers of the instances that are judged tell of instances of any size.
#![tactic(auto)]

pub mod laws;
