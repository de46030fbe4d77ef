//! What a worker does in a round: it serves its own pieces and those that it steals, and then takes turns.
#![tactic(auto)]

mod gate;
mod serve;
mod turns;

pub use gate::{Gate, OpenGate};
pub use serve::{Crew, Serves, work, work_locked};
pub use turns::take_turns;
pub use wire_board::{Lane, Lanes, Served};
pub use wire_rounds::{Pass, Piece, StealRound, Take};
