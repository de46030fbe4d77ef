//! Explanations of faults: the line that is at fault, what was expected there, and the nearest word. Where a step of an
//! order can't be taken, they say where its rank stands and what it waits for.
#![tactic(auto)]

mod explanation;
mod file_faults;
mod format;
mod hint;
pub mod language;
mod laws;
pub mod line_places;
mod near;
mod not_arrived;
mod order_faults;
mod quote;
mod standing;
mod stop;
mod wait_words;

pub use file_faults::explain_file;
pub use language::Language;
pub use laws::{
    choices_are_words, lines_have_usages, pattern_choices_are_words, pattern_lines_have_usages,
    pattern_usages_are_lines, usages_are_lines, waits_are_reasons,
};
pub use line_places::Place;
pub use near::{find_nearest, is_within};
pub use order_faults::{explain_order, explain_part, explain_rank, explain_word};
pub use quote::{push_quoted, shown_text};
pub use standing::{Standing, find_standing, push_said_call};
pub use stop::explain_stop;
