//! Values of the library, as text.

ghost use Rattle.std.specs.Prelude.{◌≡◌, ◌<◌};
ghost use Rattle.std.specs.List.{All};
ghost use Rattle.wire_runs.specs.Plan.{event_count};
ghost use Rattle.wire_scripts.specs.Planned.{plan_of};

use std::alloc::{AllocError, Global};
use std::fmt::Write;
use wire_board::{Board, Seat};
use wire_happens_before::MarkedPlan;
use wire_plan::Plan;
use wire_races::Settled;
use wire_sched::{Pass, Piece};
use wire_types::{Event, Proc};

/// All that can be looked up in a plan.
pub fn plan_text(alloc: Global, plan: &Plan) -> Result<String, AllocError> {
    let mut text = String::new(alloc);
    for number in 0..plan.process_count() {
        push_events(&mut text, plan, Proc::new(number))?;
        push_keys(&mut text, plan, Proc::new(number))?;
    }
    push_names(&mut text, plan)?;
    Ok(text)
}

/// The events of a process, with their calls, and what they wait for.
fn push_events(text: &mut String, plan: &Plan, proc: Proc) -> Result<(), AllocError> {
    for at in 0..plan.event_count(proc) {
        push_event(text, plan, Event { proc, at })?;
    }
    Ok(())
}

/// An event, with its call, whether the scripts rule it out, and what it waits for.
fn push_event(text: &mut String, plan: &Plan, event: Event) -> Result<(), AllocError>
    requires { event.at < event_count (plan_of plan.now) event.proc.number }
{
    let (kind, call, may_come) = (plan.kind(event), plan.call_of(event), plan.may_come(event));
    let sources = plan.sources(event);
    let (previous, awaited, arrivals) = (sources.previous, sources.awaited, sources.arrivals);
    writeln!(text, "{event:?} {kind:?} {call:?} {may_come:?}")?;
    writeln!(text, "{previous:?} {awaited:?} {arrivals:?}")
}

/// What the script of a process says of each key.
fn push_keys(text: &mut String, plan: &Plan, owner: Proc) -> Result<(), AllocError> {
    for key in 0..plan.scripts().keys().len() {
        let (count, first, store) = (
            plan.put_count(owner, key),
            plan.first_put(owner, key),
            plan.store_of(owner, key),
        );
        writeln!(text, "{owner:?} {key} {count} {first:?} {store:?}")?;
        push_deliveries(text, plan, owner, key)?;
    }
    Ok(())
}

/// The first arrival of a process that brings a key to each node.
fn push_deliveries(
    text: &mut String,
    plan: &Plan,
    owner: Proc,
    key: u32,
) -> Result<(), AllocError> {
    for node in 0..plan.scripts().nodes().len() {
        let next = plan.next_delivery(owner, key, node, 0);
        writeln!(text, "{node} {next:?}")?;
    }
    Ok(())
}

/// The calls on each name.
fn push_names(text: &mut String, plan: &Plan) -> Result<(), AllocError> {
    for name in 0..plan.scripts().names().len() {
        let (once, calls) = (plan.once_published(name), plan.name_calls(name));
        writeln!(text, "{name} {once:?} {calls:?}")?;
    }
    Ok(())
}

/// The marks of a plan: the clock of each event, and the updates of each name.
pub fn marks_text(alloc: Global, marked: &MarkedPlan<'_>) -> Result<String, AllocError> {
    let plan = marked.plan();
    let mut text = String::new(alloc);
    for number in 0..plan.process_count() {
        push_clocks(&mut text, marked, Proc::new(number))?;
    }
    for name in 0..plan.scripts().names().len() {
        let updates = marked.marks().updates(name);
        writeln!(text, "{name} {updates:?}")?;
    }
    Ok(text)
}

/// The clocks of the events of a process.
fn push_clocks(text: &mut String, marked: &MarkedPlan<'_>, proc: Proc) -> Result<(), AllocError> {
    for at in 0..marked.plan().event_count(proc) {
        push_clock(text, marked, Event { proc, at })?;
    }
    Ok(())
}

/// The clock of an event: a number for each process, and whether the event is live.
fn push_clock(text: &mut String, marked: &MarkedPlan<'_>, event: Event) -> Result<(), AllocError> {
    for number in 0..marked.plan().process_count() {
        let clock = marked.marks().clock(event, Proc::new(number));
        write!(text, "{clock} ")?;
    }
    let is_live = marked.live(event);
    writeln!(text, "{is_live:?}")
}

/// The workers of a round, by their passes.
pub fn workers_text(alloc: Global, passes: &[Pass]) -> Result<String, AllocError> {
    let mut text = String::new(alloc);
    for pass in passes {
        let worker = pass.worker();
        writeln!(text, "worker {worker}")?;
    }
    Ok(text)
}

/// The pieces of a round.
pub fn push_pieces(text: &mut String, pieces: &[Piece]) -> Result<(), AllocError> {
    for piece in pieces {
        let (rank, round) = (piece.rank.number, piece.round);
        writeln!(text, "rank {rank} of round {round}")?;
    }
    Ok(())
}

/// The ranks of seats, and whether each shows that its next event can happen.
pub fn seats_text(
    alloc: Global,
    settled: &Settled,
    board: &Board,
    seats: &[Seat],
) -> Result<String, AllocError>
    requires plan { board.now.plan ≡ settled.now }
    requires seats { All (λ seat. seat.board ≡ board.now) seats.now }
{
    let mut text = String::new(alloc);
    for seat in seats {
        let (rank, shows) = (seat.rank().number, seat.shows(settled));
        writeln!(text, "rank {rank} {shows:?}")?;
    }
    Ok(text)
}

/// The words of a board.
pub fn push_words(text: &mut String, words: &[u64]) -> Result<(), AllocError> {
    writeln!(text, "words {words:?}")
}
