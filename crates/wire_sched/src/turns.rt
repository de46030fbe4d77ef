//! The turns of a worker: after its round it goes on with the ranks that it served, while one of them moves.

ghost use Rattle.std.specs.Prelude.{◌≡◌, IfOk, vec_len};
ghost use Rattle.wire_rounds.specs.Rounds.{IsPassOf, worker_of};

use crate::gate::Gate;
use crate::serve::{Crew, Seen, Serves, serve_rank, serve_round};
use std::alloc::{AllocError, Global};
use std::sync::Wait;
use wire_rounds::Pass;
use wire_types::{Event, Proc};

/// How many turns a worker takes after its round at most. What is left then is dealt in the next round.
const MOST_TURNS: u32 = 1_000_000;

/// A round as `work` has it, and then turns: in each the worker looks at all ranks that it served in this round and
/// that wait, and serves again those for which the missing event has come. It calls the gate before each look. The
/// turns end with one in which no rank moved. Answers how many events that were, as `work` does. It takes memory before
/// the first piece; where there is none, it takes no turns. No clause says what it served.
pub fn take_turns<R: Wait, S: Serves, G: Gate>(
    rt: &R,
    alloc: Global,
    crew: &Crew<'_, S, G>,
    pass: &mut Pass,
) -> usize
    requires { IsPassOf crew.now.round.now pass.old }
    ensures kept { IsPassOf crew.now.round.now pass.new × (worker_of pass.new ≡ worker_of pass.old) }
{
    let mut seen = match nothing_seen(alloc, crew.round.ranks()) {
        Ok(seen) => seen,
        Err(_) => Vec::new(alloc),
    };
    let moved = serve_round(rt, crew, pass, &mut seen);
    take_more_turns(rt, crew, pass.worker(), moved, &mut seen)
}

/// Nothing seen yet, of so many ranks.
fn nothing_seen(alloc: Global, ranks: u32) -> Result<Vec<Seen>, AllocError>
    ensures { IfOk result (λ seen. vec_len seen ≡ ranks) }
{
    let nothing = Seen {
        done: 0,
        missing: None,
    };
    vec![in alloc; nothing; ranks as usize]
}

/// Turns after a round of so many events, until no rank moves in one. Answers how many events that were, those of the
/// round among them.
fn take_more_turns<R: Wait, S: Serves, G: Gate>(
    rt: &R,
    crew: &Crew<'_, S, G>,
    worker: usize,
    moved: usize,
    seen: &mut [Seen],
) -> usize {
    let mut moved = moved;
    let mut events = moved;
    'turns: for _ in 0..MOST_TURNS {
        if moved == 0 {
            break;
        }
        moved = take_turn(rt, crew, worker, seen);
        events = events.saturating_add(moved);
    }
    events
}

/// Looks once at each rank that waits. Answers how many events were done.
fn take_turn<R: Wait, S: Serves, G: Gate>(
    rt: &R,
    crew: &Crew<'_, S, G>,
    worker: usize,
    seen: &mut [Seen],
) -> usize {
    let mut events = 0usize;
    'ranks: for number in 0..crew.round.ranks() {
        let rank = Proc::new(number);
        if let Some(missing) = missing_of(seen, rank) {
            crew.gate.pass(worker, rank);
            if has_come(seen, missing) {
                events = events.saturating_add(serve_rank(rt, crew.served, rank, seen));
            }
        }
    }
    events
}

/// For which event a rank waits, if the worker served it and saw that.
fn missing_of(seen: &[Seen], rank: Proc) -> Option<Event> {
    match seen.get(rank.index()) {
        Some(seen) => seen.missing,
        None => None,
    }
}

/// Whether the worker saw that an event was done.
fn has_come(seen: &[Seen], event: Event) -> bool {
    match seen.get(event.proc.index()) {
        Some(seen) => (event.at as usize) < seen.done,
        None => false,
    }
}
