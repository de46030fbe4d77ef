//! What commands over one plan share: how the plan is read, how the answer is written, and a function that does both
//! for most of them.
#![tactic(auto)]

mod answer;
mod command;
mod ended;
mod options;
mod reading;
mod streamed;
mod whole;

pub use answer::{Answer, write_answer};
pub use command::{Command, run_command};
pub use ended::Ended;
pub use options::{AnswerStyle, CommandOptions, CommandRun};
pub use reading::{Alone, ReadsPlan, Shared, read_scripts, read_up_to};
pub use streamed::{StreamedCommand, run_streamed};
