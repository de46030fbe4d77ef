//! The commands that read a pattern, from bytes to bytes.
#![tactic(auto)]

mod asked;
mod beyond;
mod check;
mod exact;
mod expand;
mod explained;
mod first_wait;
pub mod laws;
mod least;
mod left_out;
mod ranks;
mod reading;
mod spread;
mod strings;
mod succeeding;
mod verdict_json;

pub use asked::PatternAsked;
pub use check::check_pattern;
pub use expand::{Expansion, expand_pattern};
pub use spread::Spread;
