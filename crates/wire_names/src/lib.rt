//! What stands under published names (PMIx Standard 5.0, Publish/Lookup Operations). There is one range
//! for all processes.
#![tactic(auto)]

mod laws;
mod names;

pub use laws::names_follow;
pub use names::Names;
