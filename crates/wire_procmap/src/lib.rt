//! The process map: of each process its job, its node and its ranks, and the replies of the reserved
//! keys that tell them (PMIx Standard 5.0, Reserved Keys).
#![tactic(auto)]

mod key;
mod laws;
mod map;
mod row;
mod tally;

pub use laws::one_process;
pub use map::ProcMap;
