//! One round of workers, whatever they serve.

ghost use Rattle.std.specs.Prelude.{◌<◌};
ghost use Rattle.wire_rounds.specs.Rounds.{ArePassesOf};

use crate::crew::Workers;
use crate::threads::run_round;
use std::alloc::Global;
use std::sync::Wait;
use std::thread::Threads;
use wire_sched::{Crew, Gate, Pass, Piece, Serves, StealRound};

/// Serves the pieces that no worker took. Answers how many events that were.
fn serve_left<R: Wait, S: Serves, G: Gate>(
    rt: &R,
    served: &S,
    left: &[Piece],
    collector: usize,
    gate: &G,
) -> usize {
    let mut events = 0usize;
    for piece in left {
        gate.pass(collector, piece.rank);
        let there = served.serve_far(rt, piece.rank);
        events = events.saturating_add(there.events);
    }
    events
}

/// A round that is dealt, with the memory of its workers, and the number that the gate is called with for the
/// collector.
#[derive(Drop)]
pub(crate) struct Dealt {
    pub(crate) alloc: Global,
    pub(crate) round: StealRound,
    pub(crate) passes: Vec<Pass>,
    pub(crate) collector: usize,
}

/// One round: the workers serve the pieces, and the collector those that are left. Answers how many events that were.
pub(crate) fn serve_round<R: Threads + Wait + Sync, S: Serves + Sync, G: Gate + Sync>(
    rt: &R,
    served: &S,
    dealt: Dealt,
    gate: &G,
) -> usize
    requires { ArePassesOf dealt.round dealt.passes.items }
{
    let Dealt {
        alloc,
        round,
        passes,
        collector,
    } = dealt;
    let workers = Workers {
        alloc,
        crew: Crew {
            served,
            round: &round,
            gate,
        },
    };
    let (passes, taken) = run_round(rt, &workers, passes);
    let left = round.finish(passes);
    let events = serve_left(rt, served, left.as_slice(), collector, gate);
    taken.saturating_add(events)
}

/// How many events of one round are work for one more worker in the next. To start a thread takes about as long as
/// several hundred events.
const EVENTS_PER_WORKER: usize = 1_000;

/// How many workers the round after one of so many events has: at least one, and at most all.
pub(crate) fn workers_after(events: usize, workers: usize) -> usize
    requires { 0 < workers }
    ensures { 0 < result }
{
    workers.min(events / EVENTS_PER_WORKER + 1)
}
