//! Calls on names.

ghost use Rattle.std.specs.Prelude.{◌≡◌, ◌<◌, ℕ, true, false, Some, map, IfOk, IsTrue, OnOk, slice_get};
ghost use Rattle.wire_types.specs.Replies.{bare};
ghost use Rattle.wire_runs.specs.Plan.{Publish, Unpublish, event_of, event_count, kind};
ghost use Rattle.wire_runs.specs.State.{Answer, State};
ghost use Rattle.wire_runs.specs.Step.{IsReachable};
ghost use Rattle.wire_runs.specs.Races.{IsSettled};
ghost use Rattle.wire_scripts.specs.Planned.{plan_of};
ghost use Rattle.wire_fates.specs.Fates.{answer_told};
ghost use Rattle.wire_fates.specs.declared.fate.Fate.TheVariants as told;
ghost use Rattle.wire_portable.specs.Named.{AreNever, FindsFree, FindsOwnName, IsNever, IsOnlyPublish};

use std::alloc::{AllocError, Global};
use wire_fates::{Fate, fate_of};
use wire_happens_before::MarkedPlan;
use wire_plan::Kind;
use wire_types::{Event, Proc, Status};

/// The live lookups of a settled plan that wait for ever: where processes stand at the end of each run. None of any other
/// plan.
pub(crate) fn stuck_lookups(
    alloc: Global,
    marked: &MarkedPlan<'_>,
    settled: bool,
) -> Result<Vec<Event>, AllocError>
    requires { settled ≡ true → IsSettled (plan_of marked.now) }
    ensures { IfOk result (λ stuck. AreNever (plan_of marked.now) (map event_of stuck.items)) }
{
    let mut stuck = Vec::new(alloc);
    if !settled || marked.plan().scripts().names().is_empty() {
        return Ok(stuck);
    }
    for number in 0..marked.plan().process_count() {
        add_stuck(marked, Proc { number }, &mut stuck)?;
    }
    Ok(stuck)
}

/// Adds those of a process.
fn add_stuck(marked: &MarkedPlan<'_>, proc: Proc, stuck: &mut Vec<Event>) -> Result<(), AllocError>
    requires { IsSettled (plan_of marked.now) }
    ensures { OnOk result (AreNever (plan_of marked.now) (map event_of stuck.old.items) → AreNever (plan_of marked.now) (map event_of stuck.new.items)) }
{
    for at in 0..marked.plan().event_count(proc) {
        add_if_stuck(marked, Event { proc, at }, stuck)?;
    }
    Ok(())
}

/// Adds an event, if it is one of them.
fn add_if_stuck(
    marked: &MarkedPlan<'_>,
    event: Event,
    stuck: &mut Vec<Event>,
) -> Result<(), AllocError>
    requires settled { IsSettled (plan_of marked.now) }
    requires there { event.at < event_count (plan_of marked.now) event.proc.number }
    ensures { OnOk result (AreNever (plan_of marked.now) (map event_of stuck.old.items) → AreNever (plan_of marked.now) (map event_of stuck.new.items)) }
{
    if !is_stuck(marked, event) {
        return Ok(());
    }
    stuck.push(event)?;
    Ok(())
}

/// Whether an event of a settled plan is a live lookup that waits for ever.
fn is_stuck(marked: &MarkedPlan<'_>, event: Event) -> bool
    requires settled { IsSettled (plan_of marked.now) }
    requires there { event.at < event_count (plan_of marked.now) event.proc.number }
    ensures { IsTrue result → IsNever (plan_of marked.now) (event_of event) }
{
    match marked.plan().kind(event) {
        Kind::LookupWait { .. } => marked.live(event) && waits(fate_of(marked, event)),
        _ => false,
    }
}

/// Whether a fate is to wait.
fn waits(fate: Fate) -> bool
    ensures { IsTrue result → fate ≡ told.Waits }
{
    matches!(fate, Fate::Waits)
}

/// Whether an event comes after one of these, which never come.
fn is_after_some(marked: &MarkedPlan<'_>, stuck: &[Event], event: Event) -> bool
    requires { AreNever (plan_of marked.now) (map event_of stuck.now) }
    ensures { IsTrue result → IsNever (plan_of marked.now) (event_of event) }
{
    for other in stuck {
        if marked.before(*other, event) {
            return true;
        }
    }
    false
}

/// Whether an event of a settled plan is replied this status, given events that never come.
fn is_replied(marked: &MarkedPlan<'_>, stuck: &[Event], event: Event, status: Status) -> bool
    requires settled { IsSettled (plan_of marked.now) }
    requires never { AreNever (plan_of marked.now) (map event_of stuck.now) }
    ensures { (s : State) (answer : Answer) → IsReachable (plan_of marked.now) s → slice_get (s.replies event.proc.number) event.at ≡ Some answer →
        answer_told (plan_of marked.now) answer ≡ told.Says (bare status) → IsTrue result }
{
    if !has_status(fate_of(marked, event), status) {
        return false;
    }
    !is_after_some(marked, stuck, event)
}

/// Whether a fate is a reply of this status.
fn has_status(fate: Fate, status: Status) -> bool
    ensures { fate ≡ told.Says (bare status) → IsTrue result }
{
    match fate {
        Fate::Says(reply) => reply.status == status,
        _ => false,
    }
}

/// Whether some call takes away a name.
fn is_taken(marked: &MarkedPlan<'_>, name: u32) -> bool {
    for call in marked.plan().name_calls(name) {
        if let Kind::Unpublish { .. } = marked.plan().kind(*call) {
            return true;
        }
    }
    false
}

/// Whether a publish of a plan that isn't settled may find its name there: it is published again, or taken away.
fn may_be_there(marked: &MarkedPlan<'_>, event: Event, name: u32) -> bool
    requires { kind (plan_of marked.now) (event_of event) ≡ Some (Publish name) }
    ensures { result ≡ false → IsOnlyPublish (plan_of marked.now) name (event_of event) }
{
    if !is_once(marked, event, name) {
        return true;
    }
    !marked.plan().sweeps(event.proc).is_empty() || is_taken(marked, name)
}

/// Whether a name is published once.
fn is_once(marked: &MarkedPlan<'_>, event: Event, name: u32) -> bool
    requires { kind (plan_of marked.now) (event_of event) ≡ Some (Publish name) }
    ensures { IsTrue result → IsOnlyPublish (plan_of marked.now) name (event_of event) }
{
    // Only the proof asks which publish it is.
    let _ = event;
    marked.plan().publishes(name).len() <= 1
}

/// Whether a publish may find its name there.
pub(crate) fn is_published(
    marked: &MarkedPlan<'_>,
    settled: bool,
    stuck: &[Event],
    event: Event,
    name: u32,
) -> bool
    requires settled { settled ≡ true → IsSettled (plan_of marked.now) }
    requires never { AreNever (plan_of marked.now) (map event_of stuck.now) }
    requires is { kind (plan_of marked.now) (event_of event) ≡ Some (Publish name) }
    ensures { result ≡ false → FindsFree (plan_of marked.now) name (event_of event) }
{
    if settled {
        is_replied(marked, stuck, event, Status::DuplicateKey)
    } else {
        may_be_there(marked, event, name)
    }
}

/// Whether an unpublish may miss its name.
pub(crate) fn is_missed(
    marked: &MarkedPlan<'_>,
    settled: bool,
    stuck: &[Event],
    event: Event,
) -> bool
    requires settled { settled ≡ true → IsSettled (plan_of marked.now) }
    requires never { AreNever (plan_of marked.now) (map event_of stuck.now) }
    ensures { result ≡ false → (name : ℕ) → kind (plan_of marked.now) (event_of event) ≡ Some (Unpublish name) →
        FindsOwnName (plan_of marked.now) name (event_of event) }
{
    if settled {
        is_replied(marked, stuck, event, Status::NotFound)
    } else {
        true
    }
}
