//! The calls by which a plan isn't portable: where some library may do otherwise than the rules say.
#![tactic(auto)]

mod asked;
mod brought;
mod coming;
mod commits;
mod fences;
mod gets;
mod hearing;
mod jobs;
mod judge;
mod last_stores;
mod libraries;
mod listed;
mod main_sets;
mod mates;
mod names;
mod nows;
mod own_calls;
mod phases;
mod puts;
mod reserved;
mod search;
mod spelt_apart;
mod sure;
mod waiting;

pub use libraries::{Libraries, Library};
pub use listed::{Rule, Unportable, UnportableList};
pub use search::{find_unportable, find_unportable_anywhere};
