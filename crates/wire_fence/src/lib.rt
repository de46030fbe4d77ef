//! The fences of scripts, and who has arrived at them (PMIx Standard 5.0, PMIx_Fence).
#![tactic(auto)]

mod arrivals;
mod laws;
mod register;
mod table;

pub use arrivals::Arrivals;
pub use laws::{
    arrival_counts, arriving_is_missing, calls_are_arrivals, other_events_keep, somebody_is_missing,
};
pub use table::{FenceId, Fences};
