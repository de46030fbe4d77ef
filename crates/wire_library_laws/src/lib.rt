//! What the rules tell of libraries of PMIx.
#![tactic(auto)]

pub mod laws;
