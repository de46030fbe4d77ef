//! Where something waits first in instances of a pattern that are larger than those that are judged.
#![tactic(auto)]

mod later;
mod text;
mod through;

pub use later::{Instance, Later, instance_with, later_lines};
pub use text::write_later;
