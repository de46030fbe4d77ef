//! At which call lines of a pattern a process can wait for ever: those at which something stands at the end of an
//! instance that is judged.
#![tactic(auto)]

pub mod laws;
mod line_set;
mod lines;
mod listing;
mod places;
mod stops;
mod text;

pub use line_set::LineSet;
pub use lines::{CallLine, verbs_of};
pub use listing::noted_lines;
pub use places::{Caller, places_of};
pub use stops::{ends_of_run, note_waits, process_roles};
pub use text::{text_of_verb, write_number, write_role, write_waits};
