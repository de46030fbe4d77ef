//! What processes hear of each other within phases. That nothing is missed is only tested: else libraries
//! are blamed needlessly.

ghost use Rattle.std.specs.Prelude.{◌<◌};
ghost use Rattle.wire_runs.specs.Plan.{event_count};
ghost use Rattle.wire_scripts.specs.Planned.{plan_of};

use crate::phases::Phases;
use std::alloc::{AllocError, Global};
use wire_plan::{Kind, Plan};
use wire_types::{Event, Proc};

/// Of each process the events, in their order, that wait for what another process does in their phase.
pub(crate) struct Hearing {
    rows: Vec<Vec<u32>>,
}

// By hand and not derived: so dropping one is a call, and the proof of a function that drops one doesn't take it apart.
impl Drop for Hearing {
    fn drop(self) {
        let Hearing { rows: _ } = self;
    }
}

/// The event before one of its process, or the first one itself.
fn previous(event: Event) -> Event {
    Event {
        proc: event.proc,
        at: event.at.saturating_sub(1),
    }
}

/// The commit or the publish for which an event waits.
fn awaited(plan: &Plan, event: Event) -> Option<Event>
    requires { event.at < event_count (plan_of plan.now) event.proc.number }
{
    match plan.kind(event) {
        Kind::Get { owner, key } => plan.store_of(owner, key),
        Kind::LookupWait { name } => plan.once_published(name),
        _ => None,
    }
}

/// Whether the call for which an event waits is another process's, and of the event's phase.
fn waits_inside(plan: &Plan, phases: &Phases, event: Event) -> bool
    requires { event.at < event_count (plan_of plan.now) event.proc.number }
{
    match awaited(plan, event) {
        Some(source) => {
            source.proc.number != event.proc.number && !phases.is_earlier(source, event)
        }
        None => false,
    }
}

/// Whether an event waits for what another process does in the event's phase. A fence that ends no phase is taken so.
fn hears(plan: &Plan, phases: &Phases, event: Event) -> bool
    requires { event.at < event_count (plan_of plan.now) event.proc.number }
{
    match plan.kind(event) {
        Kind::Get { .. } | Kind::LookupWait { .. } => waits_inside(plan, phases, event),
        Kind::Leave { .. } => phases.phase(previous(event)) == phases.phase(event),
        _ => false,
    }
}

/// Those of a process.
fn row_of(alloc: Global, plan: &Plan, phases: &Phases, proc: Proc) -> Result<Vec<u32>, AllocError> {
    let mut row = Vec::new(alloc);
    for at in 0..plan.event_count(proc) {
        if hears(plan, phases, Event { proc, at }) {
            row.push(at)?;
        }
    }
    Ok(row)
}

impl Hearing {
    /// That of no process.
    pub(crate) fn empty(alloc: Global) -> Hearing {
        Hearing {
            rows: Vec::new(alloc),
        }
    }

    /// That of a plan.
    pub(crate) fn of(alloc: Global, plan: &Plan, phases: &Phases) -> Result<Hearing, AllocError> {
        let mut hearing = Hearing::empty(alloc);
        for number in 0..plan.process_count() {
            let row = row_of(alloc, plan, phases, Proc { number })?;
            hearing.rows.push(row)?;
        }
        Ok(hearing)
    }

    /// Whether a process has heard of another one before this event of its, in the event's phase. Where no row is kept of
    /// the process, it says yes.
    pub(crate) fn has_heard(&self, phases: &Phases, event: Event) -> bool {
        let Some(row) = self.rows.get(event.proc.index()) else {
            return true;
        };
        let count = row.partition_point(|at| *at < event.at);
        if count == 0 || count > row.len() {
            return false;
        }
        let last = Event {
            proc: event.proc,
            at: row[count - 1],
        };
        phases.phase(last) == phases.phase(event)
    }
}
