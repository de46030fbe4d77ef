//! Which events of a plan are live, and which come before which.
#![tactic(auto)]

mod clocks;
mod following;
mod grow;
mod held;
mod joins;
mod laws;
mod marked;
mod marks;
mod steps;
mod updates;
mod way;

pub use laws::one_shown;
pub use marked::MarkedPlan;
pub use marks::HappensBefore;
pub use updates::Update;
