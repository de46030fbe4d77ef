//! What a plan says: its nodes, jobs and processes, and the calls of each process.
#![tactic(auto)]

mod canonical;
pub mod laws;
mod process;
mod scripts;
mod set_word;
mod sets;
mod texts;

pub use process::Process;
pub use scripts::{Format, Scripts, Tables};
pub use sets::Sets;
pub use texts::Texts;
