//! The words of the texts: calls and processes, and what became of a call; and texts that are written in
//! chunks.
#![tactic(auto)]

mod calls;
mod chunks;
mod ends;

pub use calls::{
    find_call, push_call, push_number, push_proc, push_process, verb, verb_at, verb_of,
};
pub use chunks::Chunk;
pub use ends::{end_word, push_end, push_value, replied_value};
