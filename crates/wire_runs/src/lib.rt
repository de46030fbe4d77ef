//! What runs of a plan are, and the laws that they keep: nothing here runs. The definitions stand in
//! `specs/`, to be read from `Plan` to `Laws`, and each law is the contract of a function of [`laws`], [`placing_laws`]
//! or [`embedding_laws`].
#![tactic(auto)]

pub mod embedding_laws;
pub mod laws;
pub mod placing_laws;
