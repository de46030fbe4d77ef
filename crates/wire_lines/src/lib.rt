//! The lines of a plan: where its file is cut, and what the words of one line say.
#![tactic(auto)]

mod call;
mod line;
mod sets;
mod text;
mod word;

pub use call::{CallLine, collect_of, is_star_alone, verb_of};
pub use line::{Line, header_version, read_line, says_once};
pub use sets::{Item, Set, cut_parts};
pub use text::{count_lines, cut_lines, cut_piece, cut_words, line_past, trim_return};
pub use word::{ProcName, is_key, is_name, is_text, is_word, number_of, scope_of};
