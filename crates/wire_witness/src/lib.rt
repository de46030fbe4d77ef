//! Witnesses: two runs of a plan that show that the order of two calls matters. The search for one of two calls, and of
//! each race of a plan.
#![tactic(auto)]

mod all;
mod pair;
mod races;
mod runs;
mod search;
mod tried;
mod witness;

pub use all::{RaceSearch, search_races};
pub use pair::{PairSearch, search_pair};
pub use search::find_witness;
pub use tried::TriedRace;
pub use witness::Witness;
