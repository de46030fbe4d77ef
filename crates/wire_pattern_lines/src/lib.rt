//! The lines of a pattern's file: what the words of one line say.
#![tactic(auto)]

mod call;
mod key;
mod line;
mod procs;
mod roles;
mod sets;
mod word;

pub use call::CallLine;
pub use key::Key;
pub use line::{Line, is_header, pattern_says_once, read_pattern_line};
pub use procs::Proc;
pub use sets::{Item, Set};
