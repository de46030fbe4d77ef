//! The reader of the scripts' file: from its bytes to what it says, or to its first fault. Beside it, the reader of an
//! order of steps, from its bytes to the processes that take the steps, and that of a question about two calls.
#![tactic(auto)]

mod draft;
mod first_pass;
mod limits;
mod lines;
mod located;
mod members;
mod noted;
mod numbered_sets;
mod numbered_tables;
mod numbered_texts;
mod numbers;
mod order;
mod pieces;
mod proc_words;
mod question;
mod ranks;
mod reader;
mod second_pass;
mod shared_pass;
mod tasks;

pub use limits::{Limits, Size};
pub use lines::{Cursor, Statement};
pub use located::{read_located, read_located_shared};
pub use order::read_order_sized;
pub use question::{Question, question_reads_once, read_question};
pub use ranks::read_ranks;
pub use reader::{
    migrated_reads_back, one_canonical, read, read_shared, read_sized, reads_back, reads_once,
};
pub use wire_scripts::{Process, Scripts, Sets, Texts};
pub use wire_types::Version;
