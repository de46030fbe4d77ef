//! Whether lookup-waits are of names that are published once and never taken away.

ghost use Rattle.std.specs.Prelude.{◌≡◌, ◌↔◌, ◌<◌, true, ℕ};
ghost use Rattle.wire_runs.specs.Plan.{event_of, event_count, process_count};
ghost use Rattle.wire_scripts.specs.Planned.{plan_of};
ghost use Rattle.wire_size_laws.specs.Answered.{WaitsForOne};
ghost use Rattle.wire_pattern_stages.specs.Lookups.{AreForOne, IsForOne};

use wire_plan::{Kind, Plan};
use wire_types::{Event, Proc};

/// Whether an event of the plan is no lookup-wait, or waits for a name that is published once and never taken away.
pub(crate) fn is_for_one(plan: &Plan, event: Event) -> bool
    requires { event.at < event_count (plan_of plan.now) event.proc.number }
    ensures { (result ≡ true) ↔ IsForOne (plan_of plan.now) (event_of event) }
{
    match plan.kind(event) {
        Kind::LookupWait { name } => plan.once_published(name).is_some(),
        _ => true,
    }
}

/// Whether this is so of each event of a process.
fn is_process_for_one(plan: &Plan, proc: Proc) -> bool
    ensures { (result ≡ true) ↔ AreForOne (plan_of plan.now) proc.number (event_count (plan_of plan.now) proc.number) }
{
    for at in 0..plan.event_count(proc) {
        if !is_for_one(plan, Event { proc, at }) {
            return false;
        }
    }
    true
}

/// Whether it is so of each event of the plan.
pub(crate) fn is_plan_for_one(plan: &Plan) -> bool
    ensures { (result ≡ true) ↔ WaitsForOne (plan_of plan.now) }
{
    for number in 0..plan.process_count() {
        if !is_process_for_one(plan, Proc::new(number)) {
            return false;
        }
    }
    true
}
