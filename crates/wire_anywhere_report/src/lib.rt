//! What `check --anywhere` writes, as bytes: the findings of all placements, each race on a key with the two ranks
//! that share a node where it races, and the calls whose replies differ between placements; in lines or as JSON, with
//! the lines of the file or without.
#![tactic(auto)]

mod differing_json;
mod differing_lines;
mod forms;
mod placed_groups;
mod placed_json;
mod placed_lines;

pub use forms::{on_placement_text, same_text};
