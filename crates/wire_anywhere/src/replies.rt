//! Whether a call's reply isn't the same on every placement, and what it replies on two of them.

ghost use Rattle.std.specs.Prelude.{◌≡◌, ◌≢◌, ◌↔◌, ℕ, Some, IsTrue, MatchOption, if◌then◌else◌};
ghost use Rattle.wire_runs.specs.Plan.{Get, GetNow, event_of, kind, admits};
ghost use Rattle.wire_runs.specs.Plan as runs;
ghost use Rattle.wire_scripts.specs.Planned.{plan_of};
ghost use Rattle.wire_runs.specs.Puts.{scope_of as scope_in};
ghost use Rattle.wire_runs.specs.Ends.{call_of};
ghost use Rattle.wire_runs.specs.State.{IsDone};
ghost use Rattle.wire_runs.specs.Laws.{plain_end};
ghost use Rattle.wire_runs.specs.Placings.{IsSettledAnywhere};
ghost use Rattle.wire_plan.specs.Index.{IsFirstPut};
ghost use Rattle.wire_anywhere.specs.Gets.{AreGetLists};
ghost use Rattle.wire_anywhere.specs.Differing.{IsDifferingTold, IsCommitBefore, NoCommitBefore};

use crate::carriers::has_surely;
use crate::differing::Differing;
use crate::gets::GetTable;
use wire_fates::KeyRead;
use wire_happens_before::MarkedPlan;
use wire_plan::{Kind, Plan};
use wire_types::{Event, Proc, Scope, Status, Verb};

/// What a server that has a put of this scope replies to a process that is, or isn't, on its node.
fn served(scope: Scope, on_node: bool) -> Status
    ensures { result ≡ (if admits scope on_node then Status.Success else Status.ExistsOutsideScope) }
{
    match scope {
        Scope::Local if !on_node => Status::ExistsOutsideScope,
        Scope::Remote if on_node => Status::ExistsOutsideScope,
        _ => Status::Success,
    }
}

/// Whether a put of this scope is for all processes.
fn is_global(scope: Scope) -> bool
    ensures { IsTrue result ↔ (scope ≡ Scope.Global) }
{
    matches!(scope, Scope::Global)
}

/// The scope of a put.
fn scope_of(plan: &Plan, put: Event) -> Scope
    requires { (key : ℕ) × IsFirstPut (plan_of plan.now) (event_of put) key }
    ensures { result ≡ scope_in (plan_of plan.now) put.proc.number put.at }
{
    match plan.kind(put) {
        Kind::Put { scope, .. } => scope,
        _ => Scope::Global,
    }
}

/// A get that is answered in the plain run, if its reply isn't the same on every placement: if it is of another
/// process's key, and the put isn't for all nodes.
fn told_get(plan: &Plan, event: Event, owner: Proc, key: u32) -> Option<Differing>
    requires settled { IsSettledAnywhere (plan_of plan.now) }
    requires answered { IsDone (plain_end (plan_of plan.now)) (event_of event) }
    requires get { kind (plan_of plan.now) (event_of event) ≡ Some (Get owner.number key) }
    ensures { IsDifferingTold (plan_of plan.now) (event_of event) result }
{
    if owner == event.proc {
        return None;
    }
    let Some(put) = plan.first_put(owner, key) else {
        return None;
    };
    let scope = scope_of(plan, put);
    if is_global(scope) {
        return None;
    }
    Some(Differing {
        call: plan.call_of(event),
        verb: Verb::Get,
        owner,
        key,
        near: served(scope, true),
        alone: served(scope, false),
    })
}

/// The commit that stores a key, if it is before a get.
fn commit_before(marked: &MarkedPlan<'_>, asked: KeyRead) -> Option<Event>
    ensures { MatchOption result (NoCommitBefore (plan_of marked.now) asked.owner.number asked.key (event_of asked.get_now))
        (λ x. IsCommitBefore (plan_of marked.now) asked.owner.number asked.key (event_of asked.get_now) (event_of x)) }
{
    let Some(commit) = marked.plan().store_of(asked.owner, asked.key) else {
        return None;
    };
    if marked.before(commit, asked.get_now) {
        Some(commit)
    } else {
        None
    }
}

/// A get that is answered at once, with these replies.
fn differing_now(plan: &Plan, asked: KeyRead, near: Status, alone: Status) -> Differing
    requires { kind (plan_of plan.now) (event_of asked.get_now) ≡ Some (GetNow asked.owner.number asked.key) }
    ensures { result ≡ record {
      call = call_of (plan_of plan.now) (event_of asked.get_now);
      verb = Verb.GetNow;
      owner = asked.owner;
      key = asked.key;
      near = near;
      alone = alone;
    } }
{
    Differing {
        call: plan.call_of(asked.get_now),
        verb: Verb::GetNow,
        owner: asked.owner,
        key: asked.key,
        near,
        alone,
    }
}

/// A get that is answered at once, in the plain run, of another process's key whose commit is before it, if its reply
/// isn't the same on every placement: if the put isn't for all nodes, or its process doesn't surely have the key.
fn told_committed(marked: &MarkedPlan<'_>, table: &GetTable, asked: KeyRead) -> Option<Differing>
    requires table { AreGetLists (plan_of marked.now) table.now }
    requires settled { IsSettledAnywhere (plan_of marked.now) }
    requires answered { IsDone (plain_end (plan_of marked.now)) (event_of asked.get_now) }
    requires get { kind (plan_of marked.now) (event_of asked.get_now) ≡ Some (GetNow asked.owner.number asked.key) }
    requires another { asked.get_now.proc.number ≢ asked.owner.number }
    requires committed { (x : runs.Event) × IsCommitBefore (plan_of marked.now) asked.owner.number asked.key (event_of asked.get_now) x }
    ensures { IsDifferingTold (plan_of marked.now) (event_of asked.get_now) result }
{
    let plan = marked.plan();
    let Some(put) = plan.first_put(asked.owner, asked.key) else {
        return None;
    };
    let scope = scope_of(plan, put);
    let near = served(scope, true);
    if !has_surely(marked, table, asked, asked.get_now.proc) {
        return Some(differing_now(plan, asked, near, Status::NotFound));
    }
    if is_global(scope) {
        return None;
    }
    Some(differing_now(plan, asked, near, Status::Success))
}

/// A get that is answered at once, in the plain run, if its reply isn't the same on every placement: if it is of
/// another process's key whose commit is before it, and the put isn't for all nodes, or its process doesn't surely have
/// the key.
fn told_get_now(marked: &MarkedPlan<'_>, table: &GetTable, asked: KeyRead) -> Option<Differing>
    requires table { AreGetLists (plan_of marked.now) table.now }
    requires settled { IsSettledAnywhere (plan_of marked.now) }
    requires answered { IsDone (plain_end (plan_of marked.now)) (event_of asked.get_now) }
    requires get { kind (plan_of marked.now) (event_of asked.get_now) ≡ Some (GetNow asked.owner.number asked.key) }
    ensures { IsDifferingTold (plan_of marked.now) (event_of asked.get_now) result }
{
    if asked.owner == asked.get_now.proc {
        return None;
    }
    match commit_before(marked, asked) {
        Some(_) => told_committed(marked, table, asked),
        None => None,
    }
}

/// An event that comes in the plain run, if it is a call whose reply isn't the same on every placement.
pub(crate) fn told(marked: &MarkedPlan<'_>, table: &GetTable, event: Event) -> Option<Differing>
    requires table { AreGetLists (plan_of marked.now) table.now }
    requires settled { IsSettledAnywhere (plan_of marked.now) }
    requires answered { IsDone (plain_end (plan_of marked.now)) (event_of event) }
    ensures { IsDifferingTold (plan_of marked.now) (event_of event) result }
{
    let plan = marked.plan();
    match plan.kind(event) {
        Kind::Get { owner, key } => told_get(plan, event, owner, key),
        Kind::GetNow { owner, key } => {
            let asked = KeyRead {
                get_now: event,
                owner,
                key,
            };
            told_get_now(marked, table, asked)
        }
        _ => None,
    }
}
