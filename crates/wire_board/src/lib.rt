//! The board of a run by threads: one word for each process, the number of its events that are done. No
//! call waits for a lock. Each word is moved by one seat alone, and the words are at every moment the cut
//! of a state that a run can come to. Each rank has a lane besides: its seat, with the trail of what its
//! events did, under a lock of its own. Threads that serve different ranks don't wait for each other.
#![tactic(auto)]

mod board;
mod fence_end;
mod hold;
mod lane;
mod lanes;
pub mod laws;
mod row;
mod seat;
mod shown;

pub use board::Board;
pub use lane::Lane;
pub use lanes::{Lanes, Served};
pub use row::{lanes_of, trails_of};
pub use seat::Seat;
pub use shown::{find_next_fate, first_source, skip_shown};
