//! Whether a live event of a settled plan waits for ever.

ghost use Rattle.std.specs.Prelude.{◌≡◌, ◌↔◌, ◌<◌, ℕ, IsTrue, Some};
ghost use Rattle.wire_runs.specs.Plan.{LookupWait, event_count, event_of, kind};
ghost use Rattle.wire_runs.specs.Plan as runs;
ghost use Rattle.wire_scripts.specs.Planned.{plan_of};
ghost use Rattle.wire_runs.specs.Races.{IsSettled};
ghost use Rattle.wire_runs.specs.Fate as runs_fate;
ghost use Rattle.wire_runs.specs.Fate.{HasFate};
ghost use Rattle.wire_fates.specs.Waiting.{WaitsForEver, NoneWaitsForEver};

use crate::fate::{Fate, fate_of};
use wire_happens_before::MarkedPlan;
use wire_plan::{Kind, Plan};
use wire_types::{Event, Proc};

/// Whether an event of the plan is a `lookup-wait`.
fn is_lookup_wait(plan: &Plan, event: Event) -> bool
    requires { event.at < event_count (plan_of plan.now) event.proc.number }
    ensures { IsTrue result ↔ ((name : ℕ) × (kind (plan_of plan.now) (event_of event) ≡ Some (LookupWait name))) }
{
    matches!(plan.kind(event), Kind::LookupWait { .. })
}

/// Whether the fate of an event is to wait.
fn is_to_wait(marked: &MarkedPlan<'_>, event: Event) -> bool
    requires { IsSettled (plan_of marked.now) }
    ensures { IsTrue result ↔ HasFate (plan_of marked.now) (event_of event) runs_fate.Waits }
{
    matches!(fate_of(marked, event), Fate::Waits)
}

/// Whether an event of the plan is live and waits for ever. Only a `lookup-wait` does.
fn waits_for_ever(marked: &MarkedPlan<'_>, event: Event) -> bool
    requires settled { IsSettled (plan_of marked.now) }
    requires there { event.at < event_count (plan_of marked.now) event.proc.number }
    ensures { IsTrue result ↔ WaitsForEver (plan_of marked.now) (event_of event) }
{
    if !is_lookup_wait(marked.plan(), event) {
        return false;
    }
    marked.live(event) && is_to_wait(marked, event)
}

/// Whether no live event of a process waits for ever.
fn none_waits_of(marked: &MarkedPlan<'_>, proc: Proc) -> bool
    requires { IsSettled (plan_of marked.now) }
    ensures { IsTrue result ↔ ((y : runs.Event) → y.proc ≡ proc.number → ¬ (WaitsForEver (plan_of marked.now) y)) }
{
    for at in 0..marked.plan().event_count(proc) {
        if waits_for_ever(marked, Event { proc, at }) {
            return false;
        }
    }
    true
}

/// Whether no live event waits for ever.
pub(crate) fn none_waits_for_ever(marked: &MarkedPlan<'_>) -> bool
    requires { IsSettled (plan_of marked.now) }
    ensures { IsTrue result ↔ NoneWaitsForEver (plan_of marked.now) }
{
    for number in 0..marked.plan().process_count() {
        if !none_waits_of(marked, Proc::new(number)) {
            return false;
        }
    }
    true
}
