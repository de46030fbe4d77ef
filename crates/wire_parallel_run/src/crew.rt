//! What a worker can do in a round.

ghost use Rattle.std.specs.Prelude.{◌≡◌};
ghost use Rattle.wire_rounds.specs.declared.round.StealRound.{StealRound};
ghost use Rattle.wire_rounds.specs.Rounds.{IsPassOf, worker_of};

use std::alloc::Global;
use std::sync::Wait;
use wire_sched::{Crew, Gate, Pass, Serves, StealRound, take_turns};

/// What a worker can do in a round.
pub(crate) trait Works {
    /// The round whose pieces it takes.
    ghost dealt: { Self → StealRound };

    /// That round.
    fn round(&self) -> &StealRound
        ensures { result.now ≡ dealt self.now };

    /// Serves pieces of the round, and answers how many events that were.
    fn work<R: Wait>(&self, rt: &R, pass: &mut Pass) -> usize
        requires { IsPassOf (dealt self.now) pass.old }
        ensures { IsPassOf (dealt self.now) pass.new × (worker_of pass.new ≡ worker_of pass.old) };
}

/// The workers of a round: what they share, and where each has its memory.
#[derive(Drop)]
pub(crate) struct Workers<'r, S, G> {
    pub(crate) alloc: Global,
    pub(crate) crew: Crew<'r, S, G>,
}

impl<'r, S: Serves, G: Gate> Works for Workers<'r, S, G> {
    ghost dealt = { λ w. w.crew.round.now };

    fn round(&self) -> &StealRound {
        self.crew.round
    }

    fn work<R: Wait>(&self, rt: &R, pass: &mut Pass) -> usize {
        take_turns(rt, self.alloc, &self.crew, pass)
    }
}
