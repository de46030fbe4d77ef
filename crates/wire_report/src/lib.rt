//! The texts of a replay, of a chain, of findings and of what shows races, as bytes: in lines, or as JSON. Findings
//! that are one mistake are in groups; and each call has its place, the line of the file that editors and terminals
//! open.
#![tactic(auto)]

mod call_places;
mod chain_answer;
mod chain_parts;
mod findings;
mod grouped_text;
mod grouping;
mod groups_law;
mod label;
mod label_law;
mod line_pieces;
mod lower_call;
mod report;
mod report_lines;
mod streaming;
mod tally;
mod unsettled;
mod witness_lines;
mod writing;

pub use call_places::{SourceLines, line_of, push_place};
pub use chain_answer::{chain_text, one_chain_text, write_chain};
pub use chain_parts::{chain_steps, find_dead_calls, order_line, push_dead_line, push_event};
pub use findings::{findings_text, push_count, push_finding};
pub use grouped_text::{grouped_lines, push_first, push_last, push_note, push_second};
pub use grouping::group_findings;
pub use groups_law::{groups_part, one_list_of_groups};
pub use label::{Label, Pair, Subject, label_of, pair_of};
pub use label_law::{labels_tell, one_grouping};
pub use report::{report_text, write_report};
pub use streaming::write_findings;
pub use tally::{Group, groups_of};
pub use unsettled::{push_steps, unsettled_text, write_unsettled};
pub use witness_lines::{
    push_counts, push_ends, push_orders, push_shown, push_tried, unshown_text,
};
pub use writing::write_text;
