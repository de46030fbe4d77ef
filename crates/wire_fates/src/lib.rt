//! Plans in which nothing is found, and the fate of each of their events: what it does once its sources are done,
//! whatever ran before. And what brings a key to a node before a get.
#![tactic(auto)]

mod fate;
mod fence_deliveries;
mod get_deliveries;
mod key_fates;
mod name_fates;
mod settled;
mod waiting;

pub use fate::{Fate, fate_of};
pub use fence_deliveries::{
    KeyRead, all_arrivals, comes_surely, late_source, may_be_late, next_arrival,
};
pub use get_deliveries::process_end;
pub use settled::{Settled, Unsettled};
