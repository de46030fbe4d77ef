//! What the checker reports of a plan: a finding, and lists of findings in few bytes.
#![tactic(auto)]

mod finding;
mod found;
mod list;
mod packed;

pub use finding::Finding;
pub use found::{FindingsBuilder, compare_findings};
pub use list::FindingList;
