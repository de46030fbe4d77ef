//! The work of one round, cut into pieces: one piece for each process. Each worker has a deque of pieces, and steals
//! from the deques of others when its own is empty. Whatever the workers do, each piece stands once: in what one of
//! them took, or in what is left at the end.
#![tactic(auto)]

mod deques;
mod laws;
mod round;
mod rule;

pub use laws::{deal_rises, takes_are_bounded};
pub use round::{Pass, StealRound, Take};
pub use rule::Piece;
