//! The command line of `wire_up`: the words of it, what they ask for, and the command that they request.
#![tactic(auto)]

mod arguments;
mod commands;
mod help;
mod matching;
mod number;
mod reading;
pub mod request;
mod spreading;
pub mod wanted;

pub use matching::asked;
pub use number::workers_of;
pub use reading::read_request;
pub use request::{
    CallPair, CallWords, CheckScope, Command, ExpandOptions, PairOptions, PatternOptions, Refusal,
    ReplayOptions, Request, Spread,
};
pub use wanted::Asked;
