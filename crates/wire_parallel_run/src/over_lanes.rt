//! Rounds of workers over the lanes of a board.

ghost use Rattle.std.specs.Prelude.{◌≡◌, ◌<◌, IfOk, IfSome, IsOkUnless};
ghost use Rattle.wire_types.specs.Outcome.{ends_of};
ghost use Rattle.wire_scripts.specs.Planned.{plan_of};
ghost use Rattle.wire_board.specs.Seats.{opening_seats};
ghost use Rattle.wire_board.specs.Lanes.{AreTrails};
ghost use Rattle.wire_rounds.specs.Rounds.{ArePassesOf};
ghost use Rattle.wire_core.specs.EndsAfter.{plain_ends};

use crate::outcome::outcome_of;
use crate::rounds::{Dealt, serve_round, workers_after};
use std::alloc::Global;
use std::sync::Wait;
use std::thread::Threads;
use wire_board::{Board, Seat};
use wire_fates::{Fate, Settled};
use wire_sched::{Gate, Lanes, StealRound};
use wire_types::{Fault, Outcome, Proc};

/// What a run over a board is given: the settled plan, how many workers, and the gate.
#[derive(Drop)]
pub(crate) struct Settings<'a, G> {
    pub(crate) settled: &'a Settled,
    pub(crate) workers: usize,
    pub(crate) gate: &'a G,
}

/// Serves the lowest process that is ready. Answers how many events that were.
fn serve_lowest<R: Wait, G: Gate>(rt: &R, lanes: &Lanes<'_>, settings: &Settings<'_, G>) -> usize {
    for number in 0..settings.settled.plan().process_count() {
        let proc = Proc::new(number);
        if lanes.ready(rt, proc) {
            settings.gate.pass(settings.workers, proc);
            return lanes.serve(rt, proc);
        }
    }
    0
}

/// One round, and where it did no event, the lowest process that is ready. Answers how many events that were.
fn run_lanes_round<R: Threads + Wait + Sync, G: Gate + Sync>(
    rt: &R,
    lanes: &Lanes<'_>,
    dealt: Dealt,
    settings: &Settings<'_, G>,
) -> usize
    requires { ArePassesOf dealt.round dealt.passes.items }
{
    match serve_round(rt, lanes, dealt, settings.gate) {
        0 => serve_lowest(rt, lanes, settings),
        events => events,
    }
}

/// Serves lanes by rounds, each of which deals every process, until all events are done or no process is ready. Each
/// round but the last does an event, so there are no more rounds than events. That all are done is told by a sum of
/// answers. It only ends the rounds: what became of the calls is told by the trails and the words.
fn run_lanes<R: Threads + Wait + Sync, G: Gate + Sync>(
    rt: &R,
    alloc: Global,
    lanes: &Lanes<'_>,
    settings: &Settings<'_, G>,
) -> Result<(), Fault>
    requires { 0 < settings.now.workers }
    ensures memory { IsOkUnless result Fault.Memory }
{
    let plan = settings.settled.plan();
    let total = plan.event_total();
    let mut wanted = settings.workers;
    let mut done = 0usize;
    'rounds: for number in 0..total as u64 {
        let (round, passes) = StealRound::deal(alloc, number, plan.process_count(), wanted)?;
        let dealt = Dealt {
            alloc,
            round,
            passes,
            collector: settings.workers,
        };
        let events = run_lanes_round(rt, lanes, dealt, settings);
        done = done.saturating_add(events);
        if events == 0 || done >= total {
            break;
        }
        wanted = workers_after(events, settings.workers);
    }
    Ok(())
}

/// The trails that the lanes of these seats have once they were served.
fn serve_seats<R: Threads + Wait + Sync, G: Gate + Sync>(
    rt: &R,
    alloc: Global,
    board: &Board,
    seats: Vec<Seat>,
    settings: &Settings<'_, G>,
) -> Result<Option<Vec<Vec<Fate>>>, Fault>
    requires workers { 0 < settings.now.workers }
    requires plan { board.now.plan ≡ settings.now.settled.now }
    requires seats { seats.items ≡ opening_seats board.now }
    ensures trails { IfOk result (λ o. IfSome o (λ trails. AreTrails (plan_of settings.now.settled.now) trails.items)) }
    ensures memory { IsOkUnless result Fault.Memory }
{
    let lanes = Lanes::new(alloc, board, settings.settled, seats)?;
    match run_lanes(rt, alloc, &lanes, settings) {
        Ok(()) => lanes.trails(alloc, settings.settled),
        Err(fault) => {
            drop(lanes);
            Err(fault)
        }
    }
}

/// Runs a settled plan by workers over a board, round by round, and tells what became of every call by the trails of
/// the lanes and the words of the board. `None` where a lane is of another plan or rank, where a trail isn't as long as
/// its word, or where a process can still take an event. The one fault is `Fault::Memory`.
pub(crate) fn board_outcome<R: Threads + Wait + Sync, G: Gate + Sync>(
    rt: &R,
    alloc: Global,
    settings: &Settings<'_, G>,
) -> Result<Option<Outcome>, Fault>
    requires { 0 < settings.now.workers }
    ensures ok { IfOk result (λ o. IfSome o (λ outcome. ends_of outcome ≡ plain_ends settings.now.settled.now)) }
    ensures memory { IsOkUnless result Fault.Memory }
{
    let (board, seats) = Board::new(alloc, settings.settled)?;
    let trails = serve_seats(rt, alloc, &board, seats, settings);
    let words = board.close(alloc, Vec::new(alloc));
    let Some(trails) = trails? else {
        return Ok(None);
    };
    let words = words?;
    outcome_of(alloc, settings.settled, trails.as_slice(), words.as_slice())
}
