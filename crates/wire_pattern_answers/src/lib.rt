//! With which statuses the get-nows of a pattern are answered, in the instances that are judged, on all placements.
#![tactic(auto)]

mod answers;
mod instance;
pub mod laws;
mod lines;
mod listing;
mod notes;
mod text;
mod told;

pub use answers::LineAnswers;
pub use instance::{notes_after, tell_answers};
pub use listing::{asked_lines, told_answers};
pub use notes::Note;
pub use text::write_answers;
pub use told::StatusesByLine;
