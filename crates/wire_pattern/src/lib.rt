//! What a pattern says: jobs, roles, and one script for each role. And which plans are its instances.
#![tactic(auto)]

mod call;
pub mod laws;
mod pattern;
mod step;

pub use call::{Call, Indexed, Item, Who};
pub use pattern::{Job, Pattern, Role};
pub use step::{Line, Step, Turns};
