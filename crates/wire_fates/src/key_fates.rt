//! The replies to gets in a settled plan.

ghost use Rattle.std.specs.Prelude.{◌≡◌, ◌<◌, Some, true, false};
ghost use Rattle.wire_runs.specs.Plan.{Get, event_of, event_count, kind, same_node, admits};
ghost use Rattle.wire_scripts.specs.Planned.{plan_of};
ghost use Rattle.wire_runs.specs.Puts.{own};
ghost use Rattle.wire_runs.specs.Sight.{Shown, held, served};
ghost use Rattle.wire_runs.specs.Order.{Live};
ghost use Rattle.wire_runs.specs.Races.{IsSettled};
ghost use Rattle.wire_plan.specs.Index.{IsFirstPut};
ghost use Rattle.wire_fates.specs.Pasts.{GivesSight, GivesGet, GivesGetNow, GivesServed, GivesBrought};

use crate::fence_deliveries::{KeyRead, comes_surely};
use wire_happens_before::MarkedPlan;
use wire_plan::{Kind, Plan};
use wire_types::{Event, Proc, Reply, Scope, Status, Value};

/// Whether a put of this scope is for a process that is, or isn't, on the owner's node.
fn is_for(scope: Scope, on_node: bool) -> bool
    ensures { result ≡ admits scope on_node }
{
    match scope {
        Scope::Local => on_node,
        Scope::Remote => !on_node,
        Scope::Global => true,
    }
}

/// The reply that brings the value of a put.
fn value_reply(plan: &Plan, put: Event) -> Reply
    requires { put.at < event_count (plan_of plan.now) put.proc.number }
    ensures { GivesSight (plan_of plan.now) put.proc.number (Shown put.at) result }
{
    Reply {
        status: Status::Success,
        value: Value::Put(plan.call_of(put)),
    }
}

/// The reply that the owner's server gives of a put, to a process that is, or isn't, on its node.
fn served_reply(plan: &Plan, put: Event, on_node: bool, key: u32) -> Reply
    requires { IsFirstPut (plan_of plan.now) (event_of put) key }
    ensures { GivesSight (plan_of plan.now) put.proc.number (served (plan_of plan.now) put.proc.number on_node (Some put.at)) result }
{
    match plan.kind(put) {
        Kind::Put { scope, .. } if is_for(scope, on_node) => value_reply(plan, put),
        _ => Reply::bare(Status::ExistsOutsideScope),
    }
}

/// The reply to a get of the caller's own key: the put, if it is before the get.
fn own_reply(plan: &Plan, event: Event, key: u32) -> Reply
    requires { IsSettled (plan_of plan.now) }
    ensures { GivesSight (plan_of plan.now) event.proc.number (held (own (plan_of plan.now) event.proc.number key event.at)) result }
{
    let Some(put) = plan.first_put(event.proc, key) else {
        return Reply::bare(Status::NotFound);
    };
    if put.at < event.at {
        value_reply(plan, put)
    } else {
        Reply::bare(Status::NotFound)
    }
}

/// The reply to a live get that waits for a key (PMIx Standard 5.0, PMIx_Get). Where the key is another
/// process's, the commit that stores it comes before the get.
pub(crate) fn get_reply(plan: &Plan, event: Event, owner: Proc, key: u32) -> Reply
    requires settled { IsSettled (plan_of plan.now) }
    requires live { Live (plan_of plan.now) (event_of event) }
    requires get { kind (plan_of plan.now) (event_of event) ≡ Some (Get owner.number key) }
    ensures { GivesGet (plan_of plan.now) (event_of event) owner.number key result }
{
    if owner == event.proc {
        return own_reply(plan, event, key);
    }
    match plan.first_put(owner, key) {
        Some(put) => {
            let on_node = plan.node_of(owner) == plan.node_of(event.proc);
            served_reply(plan, put, on_node, key)
        }
        None => Reply::bare(Status::NotFound),
    }
}

/// The reply to a get that is answered at once, of a key that another process of the same node puts: what
/// is committed before the get.
fn node_reply(marked: &MarkedPlan<'_>, event: Event, put: Event, key: u32) -> Reply
    requires settled { IsSettled (plan_of marked.now) }
    requires put { IsFirstPut (plan_of marked.now) (event_of put) key }
    ensures { GivesServed (plan_of marked.now) (event_of event) put.proc.number key result }
{
    let plan = marked.plan();
    let Some(commit) = plan.store_of(put.proc, key) else {
        return Reply::bare(Status::NotFound);
    };
    if marked.before(commit, event) {
        served_reply(plan, put, true, key)
    } else {
        Reply::bare(Status::NotFound)
    }
}

/// The reply to a live get that is answered at once, of a key that a process of another node puts: what a
/// fence or a get surely brings before it.
fn away_reply(marked: &MarkedPlan<'_>, event: Event, put: Event, key: u32) -> Reply
    requires settled { IsSettled (plan_of marked.now) }
    requires live { Live (plan_of marked.now) (event_of event) }
    requires put { IsFirstPut (plan_of marked.now) (event_of put) key }
    requires away { same_node (plan_of marked.now) put.proc.number event.proc.number ≡ false }
    ensures { GivesBrought (plan_of marked.now) (event_of event) put.proc.number key result }
{
    let plan = marked.plan();
    let asked = KeyRead {
        get_now: event,
        owner: put.proc,
        key,
    };
    if comes_surely(marked, asked, plan.node_of(event.proc)) {
        value_reply(plan, put)
    } else {
        Reply::bare(Status::NotFound)
    }
}

/// The reply to a live get that is answered at once (PMIx Standard 5.0, PMIx_Get with PMIX_IMMEDIATE).
pub(crate) fn get_now_reply(marked: &MarkedPlan<'_>, event: Event, owner: Proc, key: u32) -> Reply
    requires settled { IsSettled (plan_of marked.now) }
    requires live { Live (plan_of marked.now) (event_of event) }
    ensures { GivesGetNow (plan_of marked.now) (event_of event) owner.number key result }
{
    let plan = marked.plan();
    if owner == event.proc {
        return own_reply(plan, event, key);
    }
    let Some(put) = plan.first_put(owner, key) else {
        return Reply::bare(Status::NotFound);
    };
    if plan.node_of(owner) == plan.node_of(event.proc) {
        node_reply(marked, event, put, key)
    } else {
        away_reply(marked, event, put, key)
    }
}
