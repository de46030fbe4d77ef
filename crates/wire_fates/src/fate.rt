//! What an event of a settled plan does once all that is before it has happened.

ghost use Rattle.wire_runs.specs.Plan.{event_of};
ghost use Rattle.wire_scripts.specs.Planned.{plan_of};
ghost use Rattle.wire_runs.specs.Order.{Live};
ghost use Rattle.wire_runs.specs.Races.{IsSettled};
ghost use Rattle.wire_fates.specs.Fates.{IsFateOf};
ghost use Rattle.wire_fates.specs.Pasts.{IsFateInPast};

use crate::key_fates::{get_now_reply, get_reply};
use crate::name_fates::{
    lookup_reply, publish_reply, standing_publish, unpublish_reply, waiting_fate,
};
use wire_happens_before::MarkedPlan;
use wire_plan::Kind;
use wire_types::{Event, Reply, Status};

/// What an event of a settled plan does once its sources are done, whatever ran before.
#[derive(Clone, Copy, Debug, PartialEq, Eq)]
pub enum Fate {
    /// Its call gets this reply.
    Says(Reply),
    /// It happens, and gives no reply: the arrival at a fence.
    Silent,
    /// It never happens: it isn't live, or it waits for a name that is absent after the calls before it.
    Waits,
}

/// The fate of a live event.
fn live_fate(marked: &MarkedPlan<'_>, event: Event) -> Fate
    requires settled { IsSettled (plan_of marked.now) }
    requires live { Live (plan_of marked.now) (event_of event) }
    ensures { IsFateInPast (plan_of marked.now) (event_of event) result }
{
    let plan = marked.plan();
    match plan.kind(event) {
        Kind::Put { .. } | Kind::Commit | Kind::Leave { .. } => Fate::Says(Reply::bare(
            Status::Success,
        )),
        Kind::UnpublishAll => Fate::Says(Reply::bare(Status::Success)),
        Kind::Arrive { .. } => Fate::Silent,
        Kind::Get { owner, key } => Fate::Says(get_reply(plan, event, owner, key)),
        Kind::GetNow { owner, key } => Fate::Says(get_now_reply(marked, event, owner, key)),
        Kind::Publish { name } => Fate::Says(publish_reply(standing_publish(marked, event, name))),
        Kind::Lookup { name } => Fate::Says(lookup_reply(
            plan,
            standing_publish(marked, event, name),
        )),
        Kind::LookupWait { name } => waiting_fate(plan, standing_publish(marked, event, name)),
        Kind::Unpublish { name } => Fate::Says(unpublish_reply(
            standing_publish(marked, event, name),
            event.proc,
        )),
        Kind::Fixed(reply) => Fate::Says(reply),
    }
}

/// The fate of an event of a settled plan.
pub fn fate_of(marked: &MarkedPlan<'_>, event: Event) -> Fate
    requires { IsSettled (plan_of marked.now) }
    ensures { IsFateOf (plan_of marked.now) (event_of event) result }
{
    // It has a fate, since the order of its marks can be told.
    let _ = marked.marks();
    if marked.live(event) {
        live_fate(marked, event)
    } else {
        Fate::Waits
    }
}
