//! Laws of texts that are read again: nothing here runs. Each law is the contract of a function of [`laws`].
#![tactic(auto)]

pub mod laws;
