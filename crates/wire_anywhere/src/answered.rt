//! Which events of a plan in which nothing is found come in the plain run.

ghost use Rattle.std.specs.Prelude.{◌≡◌, ◌<◌, ◌↔◌, ℕ, IsTrue, IfOk, MatchOption, map};
ghost use Rattle.wire_runs.specs.Plan.{event_of, event_count};
ghost use Rattle.wire_scripts.specs.Planned.{plan_of};
ghost use Rattle.wire_runs.specs.State.{IsDone};
ghost use Rattle.wire_runs.specs.Laws.{plain_end};
ghost use Rattle.wire_runs.specs.Order.{Live};
ghost use Rattle.wire_runs.specs.Races.{IsSettled};
ghost use Rattle.wire_anywhere.specs.Answered.{IsStuck, IsFirstStuck, AreStuck, IsAfterStuck};

use std::alloc::{AllocError, Global};
use wire_fates::{Fate, fate_of};
use wire_happens_before::MarkedPlan;
use wire_plan::Kind;
use wire_types::{Event, Proc};

/// Whether a live event never comes, though all its sources may: it waits for a name that is absent after the calls
/// before it.
fn is_stuck(marked: &MarkedPlan<'_>, event: Event) -> bool
    requires settled { IsSettled (plan_of marked.now) }
    requires live { Live (plan_of marked.now) (event_of event) }
    ensures { IsTrue result ↔ IsStuck (plan_of marked.now) (event_of event) }
{
    match marked.plan().kind(event) {
        Kind::LookupWait { .. } => matches!(fate_of(marked, event), Fate::Waits),
        _ => false,
    }
}

/// The first event of a process at which it is stuck.
fn first_stuck(marked: &MarkedPlan<'_>, proc: Proc) -> Option<Event>
    requires { IsSettled (plan_of marked.now) }
    ensures { IsFirstStuck (plan_of marked.now) proc.number result }
{
    for at in 0..marked.plan().event_count(proc) {
        let event = Event { proc, at };
        if marked.live(event) && is_stuck(marked, event) {
            return Some(event);
        }
    }
    None
}

/// The first event of each process at which it is stuck.
pub(crate) fn stuck_events(alloc: Global, marked: &MarkedPlan<'_>) -> Result<Vec<Event>, AllocError>
    requires { IsSettled (plan_of marked.now) }
    ensures { IfOk result (λ stuck. AreStuck (plan_of marked.now) (map event_of stuck.items)) }
{
    let mut stuck = Vec::new(alloc);
    for number in 0..marked.plan().process_count() {
        if let Some(event) = first_stuck(marked, Proc { number }) {
            stuck.push(event)?;
        }
    }
    Ok(stuck)
}

/// Whether two events are the same.
fn is_same(x: Event, y: Event) -> bool
    ensures { IsTrue result ↔ (event_of x ≡ event_of y) }
{
    x.proc.number == y.proc.number && x.at == y.at
}

/// Whether an event is one of these, or after one of them.
fn is_after_some(marked: &MarkedPlan<'_>, stuck: &[Event], event: Event) -> bool
    ensures { IsTrue result ↔ IsAfterStuck (plan_of marked.now) (map event_of stuck.now) (event_of event) }
{
    for x in stuck {
        if is_same(*x, event) || marked.before(*x, event) {
            return true;
        }
    }
    false
}

/// Whether an event comes in the plain run: it is live, and no process is stuck at it or before it.
fn is_answered(marked: &MarkedPlan<'_>, stuck: &[Event], event: Event) -> bool
    requires settled { IsSettled (plan_of marked.now) }
    requires stuck { AreStuck (plan_of marked.now) (map event_of stuck.now) }
    ensures { IsTrue result ↔ IsDone (plain_end (plan_of marked.now)) (event_of event) }
{
    let _ = marked.marks();
    if !marked.live(event) {
        return false;
    }
    if is_after_some(marked, stuck, event) {
        return false;
    }
    true
}

/// How many events of a process come in the plain run, by bisection.
pub(crate) fn count_answered(marked: &MarkedPlan<'_>, stuck: &[Event], proc: Proc) -> u32
    requires settled { IsSettled (plan_of marked.now) }
    requires stuck { AreStuck (plan_of marked.now) (map event_of stuck.now) }
    ensures { result ≡ (plain_end (plan_of marked.now)).done proc.number }
{
    let mut low = 0;
    let mut high = marked.plan().event_count(proc);
    'bisection: while low < high {
        let at = low + (high - low) / 2;
        if is_answered(marked, stuck, Event { proc, at }) {
            low = at + 1;
        } else {
            high = at;
        }
    }
    low
}
