//! What one process has put and committed (PMIx Standard 5.0, Posting Key-Value Pairs). A put is held
//! in its process until the process's next commit, which hands all that was put so far to the server.
#![tactic(auto)]

mod chain;
mod laws;
mod seen;
mod store;

pub use laws::tells_puts;
pub use seen::Seen;
pub use store::RankStore;
