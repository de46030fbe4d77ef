//! A round of a worker: it serves its own pieces, and then those that it steals.

ghost use Rattle.std.specs.Prelude.{◌≡◌, IfSome, OnSome};
ghost use Rattle.wire_rounds.specs.Rounds.{IsPassOf, IsPieceOf, worker_of};
ghost use Rattle.wire_rounds.specs.Taken.{TookOneMore};

use crate::gate::Gate;
use std::sync::Wait;
use wire_board::{Lanes, Served};
use wire_locked::LockedCore;
use wire_rounds::{Pass, Piece, StealRound, Take};
use wire_types::{Event, Proc};

/// How often one deque may answer `Again`.
const MOST_AGAIN: u32 = 1_000;

/// The deque at which a worker steals next, and how often that one may still answer `Again`.
#[derive(Drop)]
struct Victim {
    deque: usize,
    tries: u32,
}

impl Victim {
    /// The first deque.
    fn first() -> Victim {
        Victim {
            deque: 0,
            tries: MOST_AGAIN,
        }
    }
}

/// What workers serve processes of: a core under one lock, or the lanes of a board, each under its own.
pub trait Serves {
    /// Waits for the lock, and then serves a process as far as it goes. Tells how many events that were, and, where
    /// that is known, for which event the process waits.
    fn serve_far<R: Wait>(&self, rt: &R, proc: Proc) -> Served;
}

impl<'a> Serves for Lanes<'a> {
    fn serve_far<R: Wait>(&self, rt: &R, proc: Proc) -> Served {
        Lanes::serve_far(self, rt, proc)
    }
}

impl<'a> Serves for LockedCore<'a> {
    fn serve_far<R: Wait>(&self, rt: &R, proc: Proc) -> Served {
        Served {
            events: self.serve(rt, proc),
            done: 0,
            missing: None,
        }
    }
}

/// What the workers of a round share: what they serve, the round, and the gate.
#[derive(Drop)]
pub struct Crew<'r, S, G> {
    pub served: &'r S,
    pub round: &'r StealRound,
    pub gate: &'r G,
}

/// What a worker saw of a rank when it served it last: how many of its events were done, and for which event it waited.
#[derive(Clone, Copy)]
pub(crate) struct Seen {
    pub(crate) done: usize,
    pub(crate) missing: Option<Event>,
}

/// A round over the lanes of a board: serves the pieces of the worker's own deque, and then those that it steals from
/// the other deques in turn. It leaves a deque that answered `Again` a thousand times. Before each piece it calls the
/// gate, and then it waits for the lock of that rank's lane. Answers how many events that were; once the sum is at its
/// type's greatest value, it stays there. It takes no memory. No clause says which pieces it served, or how many events
/// that were: other threads serve lanes too. `take_turns` begins with the same round. Only tests call this.
pub fn work<R: Wait, G: Gate>(
    rt: &R,
    lanes: &Lanes<'_>,
    round: &StealRound,
    pass: &mut Pass,
    gate: &G,
) -> usize
    requires { IsPassOf round.now pass.old }
    ensures kept { IsPassOf round.now pass.new × (worker_of pass.new ≡ worker_of pass.old) }
{
    let crew = Crew {
        served: lanes,
        round,
        gate,
    };
    serve_round(rt, &crew, pass, &mut [])
}

/// The same over a core under one lock. Answers how many steps it took. Only tests call this.
pub fn work_locked<R: Wait, G: Gate>(
    rt: &R,
    locked: &LockedCore<'_>,
    round: &StealRound,
    pass: &mut Pass,
    gate: &G,
) -> usize
    requires { IsPassOf round.now pass.old }
    ensures kept { IsPassOf round.now pass.new × (worker_of pass.new ≡ worker_of pass.old) }
{
    let crew = Crew {
        served: locked,
        round,
        gate,
    };
    serve_round(rt, &crew, pass, &mut [])
}

/// A round of a worker, over whatever is served. Keeps what was seen of each rank that there is room for in `seen`.
/// Answers how many events that were.
pub(crate) fn serve_round<R: Wait, S: Serves, G: Gate>(
    rt: &R,
    crew: &Crew<'_, S, G>,
    pass: &mut Pass,
    seen: &mut [Seen],
) -> usize
    requires { IsPassOf crew.now.round.now pass.old }
    ensures kept { IsPassOf crew.now.round.now pass.new × (worker_of pass.new ≡ worker_of pass.old) }
{
    let mut victim = Victim::first();
    let mut events = 0usize;
    'pieces: while let Some(piece) = next_piece(crew.round, pass, &mut victim) {
        crew.gate.pass(pass.worker(), piece.rank);
        events = events.saturating_add(serve_rank(rt, crew.served, piece.rank, seen));
    }
    events
}

/// Serves a rank, and keeps what was seen of it, if there is room for that. Answers how many events that were.
pub(crate) fn serve_rank<R: Wait, S: Serves>(
    rt: &R,
    served: &S,
    rank: Proc,
    seen: &mut [Seen],
) -> usize {
    let Served {
        events,
        done,
        missing,
    } = served.serve_far(rt, rank);
    if rank.index() < seen.len() {
        seen[rank.index()] = Seen { done, missing };
    }
    events
}

/// The front piece of the worker's own deque, or else one that it steals.
fn next_piece(round: &StealRound, pass: &mut Pass, victim: &mut Victim) -> Option<Piece>
    requires { IsPassOf round.now pass.old }
    ensures kept { IsPassOf round.now pass.new × (worker_of pass.new ≡ worker_of pass.old) }
    ensures piece { IfSome result (IsPieceOf round.now) }
    ensures more { OnSome result (TookOneMore pass.old pass.new) }
{
    match round.own_take(pass) {
        Some(piece) => Some(piece),
        None => steal_next(round, pass, victim),
    }
}

/// The front piece of the first deque from here on that gives one.
fn steal_next(round: &StealRound, pass: &mut Pass, victim: &mut Victim) -> Option<Piece>
    requires { IsPassOf round.now pass.old }
    ensures kept { IsPassOf round.now pass.new × (worker_of pass.new ≡ worker_of pass.old) }
    ensures piece { IfSome result (IsPieceOf round.now) }
    ensures more { OnSome result (TookOneMore pass.old pass.new) }
{
    'deques: while victim.deque < round.workers() {
        if victim.deque == pass.worker() || victim.tries == 0 {
            victim.deque += 1;
            victim.tries = MOST_AGAIN;
        } else {
            match round.steal_take(pass, victim.deque) {
                Take::Got(piece) => return Some(piece),
                Take::Empty => victim.tries = 0,
                Take::Again => victim.tries -= 1,
            }
        }
    }
    None
}
