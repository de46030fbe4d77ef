//! What the answers of an instance of a pattern tell of its instances with fewer ranks.
#![tactic(auto)]

pub mod laws;
