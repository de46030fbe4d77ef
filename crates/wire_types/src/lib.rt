//! The words that all crates of `wire_up` speak: places, calls, replies, outcomes and faults, and the
//! readers and writers that its calls take. The definitions also say how the words of a plan are spelled;
//! code here writes the word of a process, and says which keys are reserved.
#![tactic(auto)]

mod call;
mod fault;
mod form;
mod memory;
mod packed;
mod place;
mod reply;
mod sink;
mod source;
mod verb;
mod version;
mod word;
mod wrap;

pub use call::{Call, Scope};
pub use fault::Fault;
pub use form::{Orders, OutputFormat};
pub use memory::{EndlessSource, MemorySink, MemorySource};
pub use packed::PackedCall;
pub use place::{CallAt, Event, Proc};
pub use reply::{CallEnd, Outcome, Reply, Status, Value};
pub use sink::{Failed, Sink, write_out};
pub use source::Source;
pub use verb::Verb;
pub use version::Version;
pub use word::{is_reserved, proc_word, write_proc};
pub use wrap::{FromRead, ToWrite};
