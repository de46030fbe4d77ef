//! The reader of a pattern's file: from its bytes to the pattern, or to its first fault.
#![tactic(auto)]

mod calls;
mod draft;
mod first_pass;
mod limits;
mod numbers;
mod reader;
mod second_pass;
mod third_pass;

pub use reader::{pattern_reads_once, read_pattern};
