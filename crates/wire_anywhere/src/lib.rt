//! What the checker finds on some placement of a plan's processes; and where nothing is found on any, which calls don't
//! have the same reply on all of them.
#![tactic(auto)]

mod answered;
mod carriers;
mod differing;
mod differing_search;
mod far_races;
mod finding_search;
mod gets;
mod key_races;
pub mod laws;
mod near_races;
mod placed;
mod racing_pairs;
mod replies;

pub use differing::Differing;
pub use differing_search::find_differing;
pub use finding_search::find_anywhere;
pub use placed::{Pair, PlacedFinding, PlacedList};
