//! Laws of the instances of a pattern: nothing here runs. Each law is the contract of a function of [`laws`].
#![tactic(auto)]

pub mod laws;
