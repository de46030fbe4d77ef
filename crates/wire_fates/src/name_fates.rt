//! The replies to calls on names in a settled plan.

ghost use Rattle.std.specs.Prelude.{◌<◌, ◌≤◌, ℕ, length, option_map, IfSome};
ghost use Rattle.wire_runs.specs.Plan.{event_of, event_count};
ghost use Rattle.wire_scripts.specs.Planned.{plan_of};
ghost use Rattle.wire_runs.specs.Order.{Live, Before};
ghost use Rattle.wire_runs.specs.Races.{IsSettled};
ghost use Rattle.wire_happens_before.specs.Updates.{AreUpdates};
ghost use Rattle.wire_fates.specs.Cuts.{IsCut};
ghost use Rattle.wire_fates.specs.Pasts.{events_in, IsStanding, GivesPublish, GivesLookup, GivesUnpublish, IsFateOfWait};

use crate::fate::Fate;
use wire_happens_before::{MarkedPlan, Update};
use wire_plan::Plan;
use wire_types::{Event, Proc, Reply, Status, Value};

/// The reply to a publish of a name under which this publish stands.
pub(crate) fn publish_reply(standing: Option<Event>) -> Reply
    ensures { GivesPublish (option_map event_of standing) result }
{
    match standing {
        Some(_) => Reply::bare(Status::DuplicateKey),
        None => Reply::bare(Status::Success),
    }
}

/// The reply to a process's unpublish of a name under which this publish stands.
pub(crate) fn unpublish_reply(standing: Option<Event>, proc: Proc) -> Reply
    ensures { GivesUnpublish proc.number (option_map event_of standing) result }
{
    match standing {
        Some(publish) if publish.proc == proc => Reply::bare(Status::Success),
        _ => Reply::bare(Status::NotFound),
    }
}

/// The reply to a lookup of a name under which this publish stands.
pub(crate) fn lookup_reply(plan: &Plan, standing: Option<Event>) -> Reply
    requires { IfSome standing (λ e. e.at < event_count (plan_of plan.now) e.proc.number) }
    ensures { GivesLookup (plan_of plan.now) (option_map event_of standing) result }
{
    match standing {
        Some(publish) => Reply {
            status: Status::Success,
            value: Value::Published(plan.call_of(publish)),
        },
        None => Reply::bare(Status::NotFound),
    }
}

/// The fate of a lookup that waits for a name under which this publish stands.
pub(crate) fn waiting_fate(plan: &Plan, standing: Option<Event>) -> Fate
    requires { IfSome standing (λ e. e.at < event_count (plan_of plan.now) e.proc.number) }
    ensures { IsFateOfWait (plan_of plan.now) (option_map event_of standing) result }
{
    if standing.is_none() {
        return Fate::Waits;
    }
    Fate::Says(lookup_reply(plan, standing))
}

/// How many of the updates of a name are before an event, by bisection: in a settled plan each is before those
/// that stand behind it.
fn count_before(marked: &MarkedPlan<'_>, updates: &[Update], event: Event) -> usize
    ensures within { result ≤ length updates.now }
    ensures cut { let plan = plan_of marked.now in (name : ℕ) → IsSettled plan → AreUpdates plan (Live plan) name updates.now
        → IsCut (λ z. Before plan z (event_of event)) (events_in updates.now) result }
{
    let marks = marked.marks();
    let mut low = 0;
    let mut high = updates.len();
    'bisection: while low < high {
        let middle = low + (high - low) / 2;
        if marks.before(updates[middle].event, event) {
            low = middle + 1;
        } else {
            high = middle;
        }
    }
    low
}

/// The publish that stands under a name after the calls before an event of a settled plan.
pub(crate) fn standing_publish(marked: &MarkedPlan<'_>, event: Event, name: u32) -> Option<Event>
    requires { IsSettled (plan_of marked.now) }
    ensures standing { IsStanding (plan_of marked.now) (event_of event) name (option_map event_of result) }
    ensures there { IfSome result (λ e. e.at < event_count (plan_of marked.now) e.proc.number) }
{
    let marks = marked.marks();
    let updates = marks.updates(name);
    let count = count_before(marked, updates, event);
    if count == 0 {
        return None;
    }
    updates[count - 1].standing
}
