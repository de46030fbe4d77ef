//! Whether two calls race, without a look at any others that may.

ghost use Rattle.std.specs.Prelude.{◌≡◌, ◌∷◌, [], ◌<◌, ◌↔◌, IsTrue, IfOk, length};
ghost use Rattle.wire_runs.specs.Plan.{event_of, event_count, kind};
ghost use Rattle.wire_runs.specs.Ends.{calls_of, first_event};
ghost use Rattle.wire_runs.specs.Names.{calls_name};
ghost use Rattle.wire_scripts.specs.Planned.{plan_of};
ghost use Rattle.wire_races.specs.Racing.{RaceOnKey, RaceOnName, AreRacing};
ghost use Rattle.wire_races.specs.Contested as spec;
ghost use Rattle.wire_races.specs.Contested.{IsOneContested, HasNamesOf};

use crate::call_races::NameCall;
use crate::key_races::{add_event, are_unordered};
use crate::name_races::is_write;
use crate::reported::is_reported;
use crate::sweep_races::names_of;
use std::alloc::{AllocError, Global};
use wire_findings::FindingsBuilder;
use wire_happens_before::MarkedPlan;
use wire_plan::{Kind, Plan};
use wire_types::{CallAt, Event};

/// Whether two calls race on a key. The races of each of them as the get are looked through.
fn race_on_key(
    alloc: Global,
    marked: &MarkedPlan<'_>,
    x: CallAt,
    y: CallAt,
) -> Result<bool, AllocError>
    requires x_there { x.call < length (calls_of (plan_of marked.now) x.proc.number) }
    requires y_there { y.call < length (calls_of (plan_of marked.now) y.proc.number) }
    ensures { IfOk result (λ race. IsTrue race ↔ RaceOnKey (plan_of marked.now) (first_event (plan_of marked.now) x) (first_event (plan_of marked.now) y)) }
{
    let plan = marked.plan();
    let mut found = FindingsBuilder::new(alloc);
    add_event(marked, &mut found, plan.first_event(x))?;
    add_event(marked, &mut found, plan.first_event(y))?;
    let list = found.as_met();
    Ok(is_reported(&list, x, y))
}

/// Whether an event is a call on a name.
fn is_call(plan: &Plan, x: NameCall) -> bool
    requires { x.event.at < event_count (plan_of plan.now) x.event.proc.number }
    ensures { result ≡ calls_name (plan_of plan.now) x.name (event_of x.event) (kind (plan_of plan.now) (event_of x.event)) }
{
    match plan.kind(x.event) {
        Kind::Lookup { name } => name == x.name,
        Kind::LookupWait { name } => name == x.name,
        _ => is_write(plan, x),
    }
}

/// Whether an event can change a name on which another is a call.
fn is_disturbed(plan: &Plan, name: u32, x: Event, y: Event) -> bool
    requires x_there { x.at < event_count (plan_of plan.now) x.proc.number }
    requires y_there { y.at < event_count (plan_of plan.now) y.proc.number }
    ensures { result ≡ spec.is_disturbed (plan_of plan.now) name (event_of x) (event_of y) }
{
    is_write(plan, NameCall { name, event: x }) && is_call(plan, NameCall { name, event: y })
}

/// Whether one of two events can change a name, and the other is a call on it.
fn is_contested(plan: &Plan, name: u32, x: Event, y: Event) -> bool
    requires x_there { x.at < event_count (plan_of plan.now) x.proc.number }
    requires y_there { y.at < event_count (plan_of plan.now) y.proc.number }
    ensures { result ≡ spec.is_contested (plan_of plan.now) name (event_of x) (event_of y) }
{
    is_disturbed(plan, name, x, y) || is_disturbed(plan, name, y, x)
}

/// Whether one of these names is such.
fn is_one_contested(plan: &Plan, names: &[u32], x: Event, y: Event) -> bool
    requires x_there { x.at < event_count (plan_of plan.now) x.proc.number }
    requires y_there { y.at < event_count (plan_of plan.now) y.proc.number }
    ensures { IsTrue result ↔ IsOneContested (plan_of plan.now) names.now (event_of x) (event_of y) }
{
    for name in names {
        if is_contested(plan, *name, x, y) {
            return true;
        }
    }
    false
}

/// One name.
fn one_name(alloc: Global, name: u32) -> Result<Vec<u32>, AllocError>
    ensures { IfOk result (λ names. names.items ≡ name ∷ []) }
{
    let mut names = Vec::new(alloc);
    names.push(name)?;
    Ok(names)
}

/// The names on which an event is a call. Those of a call that takes away all names of its process are gathered, each
/// once.
fn names_called(alloc: Global, plan: &Plan, event: Event) -> Result<Vec<u32>, AllocError>
    requires { event.at < event_count (plan_of plan.now) event.proc.number }
    ensures { IfOk result (λ names. HasNamesOf (plan_of plan.now) (event_of event) names.items) }
{
    match plan.kind(event) {
        Kind::Publish { name } => one_name(alloc, name),
        Kind::Lookup { name } => one_name(alloc, name),
        Kind::LookupWait { name } => one_name(alloc, name),
        Kind::Unpublish { name } => one_name(alloc, name),
        Kind::UnpublishAll => names_of(alloc, plan, event.proc),
        _ => Ok(Vec::new(alloc)),
    }
}

/// Whether two events race on a name. The one publish of a name and a lookup that waits for it are in order where
/// both are live, so they aren't among the events that no chain orders.
fn race_on_name(
    alloc: Global,
    marked: &MarkedPlan<'_>,
    x: Event,
    y: Event,
) -> Result<bool, AllocError>
    requires x_there { x.at < event_count (plan_of marked.now) x.proc.number }
    requires y_there { y.at < event_count (plan_of marked.now) y.proc.number }
    ensures { IfOk result (λ race. IsTrue race ↔ RaceOnName (plan_of marked.now) (event_of x) (event_of y)) }
{
    if x.proc.number == y.proc.number || !are_unordered(marked, x, y) {
        return Ok(false);
    }
    let plan = marked.plan();
    let names = names_called(alloc, plan, x)?;
    Ok(is_one_contested(plan, names.as_slice(), x, y))
}

/// Whether two calls of a plan race, on a key or on a name: whether a race of the two is among the findings. The
/// other findings aren't looked for, so that it takes far less time than their list where they are many. The one
/// error is that memory ran out.
pub fn are_racing(
    alloc: Global,
    marked: &MarkedPlan<'_>,
    x: CallAt,
    y: CallAt,
) -> Result<bool, AllocError>
    requires x_there { x.call < length (calls_of (plan_of marked.now) x.proc.number) }
    requires y_there { y.call < length (calls_of (plan_of marked.now) y.proc.number) }
    ensures { IfOk result (λ race. IsTrue race ↔ AreRacing (plan_of marked.now) x y) }
{
    if race_on_key(alloc, marked, x, y)? {
        return Ok(true);
    }
    let plan = marked.plan();
    race_on_name(alloc, marked, plan.first_event(x), plan.first_event(y))
}
