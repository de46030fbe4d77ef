//! Whether an instance keeps stages.

ghost use Rattle.std.specs.Prelude.{◌≡◌, ◌<◌, true, ℕ, Some, OnOk, IfOk, map, option_map, slice_get, length};
ghost use Rattle.wire_types.specs.Texts.{lists_of};
ghost use Rattle.wire_runs.specs.Plan.{event_of, event_count, process_count, kind};
ghost use Rattle.wire_scripts.specs.Planned.{plan_of};
ghost use Rattle.wire_size_laws.specs.Stages as laws;
ghost use Rattle.wire_pattern_stages.specs.Views.{stages_by, key_by, label_by};
ghost use Rattle.wire_pattern_stages.specs.Rising.{Goes, AllGo, IsAlong, IsRight, AreRight};
ghost use Rattle.wire_pattern_stages.specs.Tables as spec;
ghost use Rattle.wire_pattern_stages.specs.Tables.{view_key};
ghost use Rattle.wire_pattern_stages.specs.Views as shown;
ghost use Rattle.wire_runs.specs.Plan as runs;
ghost use Rattle.wire_plan.specs.Index.{previous_of};

use crate::key::{Key, is_less, is_same, key_at};
use crate::labels::Label;
use crate::lookups::is_for_one;
use crate::stage::{LineStages, Stage, Stages, at_role};
use wire_plan::{Kind, Plan};
use wire_types::{Event, Proc};

/// What keys are told by: the plan of an instance, the role of each process, the label of each event, and the stages.
#[derive(Clone, Copy)]
pub(crate) struct View<'a> {
    pub(crate) plan: &'a Plan,
    pub(crate) roles: &'a [u32],
    pub(crate) labels: &'a [Vec<Label>],
    pub(crate) stages: &'a Stages,
}

/// Whether an event of the plan is the end of a fence.
fn ends_fence(plan: &Plan, event: Event) -> bool
    requires { event.at < event_count (plan_of plan.now) event.proc.number }
    ensures { result ≡ laws.is_leave (kind (plan_of plan.now) (event_of event)) }
{
    match plan.kind(event) {
        Kind::Leave { .. } => true,
        _ => false,
    }
}

/// Whether an event is the end of a fence.
pub(crate) fn is_leave(plan: &Plan, event: Event) -> bool
    ensures { result ≡ laws.is_leave (kind (plan_of plan.now) (event_of event)) }
{
    if event.at >= plan.event_count(event.proc) {
        return false;
    }
    ends_fence(plan, event)
}

/// The label of an event in a row.
fn label_at(row: &[Label], at: u32) -> Option<Label>
    ensures { option_map label_by result ≡ slice_get (map label_by row.now) at }
{
    match row.get(at as usize) {
        Some(label) => Some(*label),
        None => None,
    }
}

/// The label of an event, where it has one.
pub(crate) fn label_of(labels: &[Vec<Label>], event: Event) -> Option<Label>
    ensures { option_map label_by result ≡ spec.label_in event.at (slice_get labels.now event.proc.number) }
{
    match labels.get(event.proc.index()) {
        Some(row) => label_at(row.as_slice(), event.at),
        None => None,
    }
}

/// The role of a process, where it has one.
pub(crate) fn role_of(roles: &[u32], proc: Proc) -> Option<u32>
    ensures { result ≡ slice_get roles.now proc.number }
{
    match roles.get(proc.index()) {
        Some(role) => Some(*role),
        None => None,
    }
}

/// The key of nothing.
const LEAST: Key = Key {
    one: 0,
    two: 0,
    three: 0,
    four: 0,
};

/// The stage of a line, or that of leaving its fence.
fn side(stages: LineStages, leave: bool) -> Stage
    ensures { result ≡ shown.side leave stages }
{
    if leave { stages.leave } else { stages.enter }
}

/// The key of an event with this role and label.
fn key_in(stages: &Stages, role: Option<u32>, label: Option<Label>, leave: bool, caller: u32) -> Key
    ensures { key_by result ≡ laws.key_in (stages_by stages.now) role (option_map label_by label) leave caller }
{
    let Some(role) = role else {
        return LEAST;
    };
    let Some(label) = label else {
        return LEAST;
    };
    let line = at_role(stages.rows.as_slice(), role, label.step, label.line);
    key_at(side(line, leave), caller, label.each)
}

/// The key of an event.
fn key_of(view: &View, event: Event) -> Key
    ensures { key_by result ≡ view_key view.now (event_of event) }
{
    let role = role_of(view.roles, event.proc);
    let label = label_of(view.labels, event);
    let leave = is_leave(view.plan, event);
    key_in(view.stages, role, label, leave, event.proc.number)
}

/// Whether an event is earlier in its process than another.
fn is_earlier(x: Event, y: Event) -> bool
    ensures { result ≡ true → (x.proc.number ≡ y.proc.number) × (x.at < y.at) }
{
    x.proc.number == y.proc.number && x.at < y.at
}

/// Whether an event has a lesser key than another, or is earlier in its process.
fn goes(view: &View, x: Event, y: Event) -> bool
    ensures { result ≡ true → Goes (view_key view.now) (event_of x) (event_of y) }
{
    if is_earlier(x, y) {
        return true;
    }
    is_less(key_of(view, x), key_of(view, y))
}

/// Whether this is so of an event that needn't be there.
fn one_goes(view: &View, x: Option<Event>, y: Event) -> bool
    ensures { result ≡ true → (z : runs.Event) → option_map event_of x ≡ Some z → Goes (view_key view.now) z (event_of y) }
{
    match x {
        Some(x) => goes(view, x, y),
        None => true,
    }
}

/// Whether it is so of each of these events.
fn all_go(view: &View, events: &[Event], y: Event) -> bool
    ensures { result ≡ true → AllGo (view_key view.now) (map event_of events.now) (event_of y) }
{
    for x in events {
        if !goes(view, *x, y) {
            return false;
        }
    }
    true
}

/// Whether an event has no lesser key than the one before it.
fn is_along(view: &View, previous: Option<Event>, y: Event) -> bool
    requires { option_map event_of previous ≡ previous_of (event_of y) }
    ensures { result ≡ true → IsAlong (view_key view.now) (event_of y) }
{
    let Some(x) = previous else {
        return true;
    };
    let one = key_of(view, x);
    let other = key_of(view, y);
    is_less(one, other) || is_same(one, other)
}

/// Whether an event of the plan is as stages want it.
fn is_right(view: &View, y: Event) -> bool
    requires { y.at < event_count (plan_of view.now.plan.now) y.proc.number }
    ensures { result ≡ true → IsRight (view_key view.now) (plan_of view.now.plan.now) (event_of y) }
{
    let sources = view.plan.sources(y);
    if !is_for_one(view.plan, y) {
        return false;
    }
    if !is_along(view, sources.previous, y) {
        return false;
    }
    if !one_goes(view, sources.awaited, y) {
        return false;
    }
    all_go(view, sources.arrivals, y)
}

/// Whether each event of a process is.
fn is_process_right(view: &View, proc: Proc) -> bool
    ensures { result ≡ true → AreRight (view_key view.now) (plan_of view.now.plan.now) proc.number (event_count (plan_of view.now.plan.now) proc.number) }
{
    for at in 0..view.plan.event_count(proc) {
        if !is_right(view, Event { proc, at }) {
            return false;
        }
    }
    true
}

/// Whether each event of the plan is.
pub(crate) fn is_plan_right(view: &View) -> bool
    ensures { result ≡ true → (p : ℕ) → p < process_count (plan_of view.now.plan.now)
        → AreRight (view_key view.now) (plan_of view.now.plan.now) p (event_count (plan_of view.now.plan.now) p) }
{
    for number in 0..view.plan.process_count() {
        if !is_process_right(view, Proc::new(number)) {
            return false;
        }
    }
    true
}
