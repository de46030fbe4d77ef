//! Laws of instances of patterns and their texts: nothing here runs. Each law is the contract of a function of
//! [`laws`].
#![tactic(auto)]

pub mod laws;
