//! Deliveries of a key to a node by fences, and what comes before a get that is answered at once.

ghost use Rattle.std.specs.Prelude.{◌≡◌, ℕ, List, suc, Some, IsTrue, MatchOption, ◌↔◌, map};
ghost use Rattle.wire_runs.specs.Plan.{Leave, event_of, kind};
ghost use Rattle.wire_runs.specs.Plan as runs;
ghost use Rattle.wire_scripts.specs.Planned.{plan_of};
ghost use Rattle.wire_runs.specs.Order.{IsArrival, Live};
ghost use Rattle.wire_runs.specs.Races.{IsPutOnce, ComesSurely};
ghost use Rattle.wire_plan.specs.Index.{AreArrivals};
ghost use Rattle.wire_fates.specs.Deliveries.{Arrives, AreOfRising, IsFoundAmong, IsBehindOwn, IsSure, IsSureByFence, IsSureByOwnFence};
ghost use Rattle.wire_fates.specs.Deliveries.{MayBeLate, IsLate, AllLive, NoneAfter, IsFirstLate, IsNextArrival};

use crate::get_deliveries::get_comes_surely;
use wire_happens_before::MarkedPlan;
use wire_plan::Plan;
use wire_types::{Event, Proc};

/// A get that is answered at once, and the key for which it asks.
#[derive(Clone, Copy)]
pub struct KeyRead {
    pub get_now: Event,
    pub owner: Proc,
    pub key: u32,
}

/// The end of the fence at which an event of the plan arrives: the next event of its process.
fn end_of(plan: &Plan, arrival: Event) -> Event
    requires { Arrives (plan_of plan.now) (event_of arrival) }
    ensures proc { result.proc ≡ arrival.proc }
    ensures next { result.at ≡ suc arrival.at }
    ensures leave { (members : List ℕ) (j : ℕ) → IsArrival (plan_of plan.now) members j (event_of arrival) →
        kind (plan_of plan.now) (event_of result) ≡ Some (Leave members) }
{
    // Scripts are sound, so the numbers of their events fit.
    let _ = plan.scripts();
    Event {
        proc: arrival.proc,
        at: arrival.at + 1,
    }
}

/// The arrivals at the fence of an arrival, in process order.
pub fn all_arrivals(plan: &Plan, arrival: Event) -> &[Event]
    requires { Arrives (plan_of plan.now) (event_of arrival) }
    ensures { (members : List ℕ) (j : ℕ) → IsArrival (plan_of plan.now) members j (event_of arrival) →
        AreArrivals (plan_of plan.now) members j (map event_of result.now) }
{
    plan.sources(end_of(plan, arrival)).arrivals
}

/// Whether each of these events is live.
fn all_live(marked: &MarkedPlan<'_>, events: &[Event]) -> bool
    ensures { IsTrue result ↔ AllLive (plan_of marked.now) (map event_of events.now) }
{
    for x in events {
        if !marked.live(*x) {
            return false;
        }
    }
    true
}

/// Whether a get is before none of these events.
fn is_before_none(marked: &MarkedPlan<'_>, get_now: Event, events: &[Event]) -> bool
    ensures { IsTrue result ↔ NoneAfter (plan_of marked.now) (event_of get_now) (map event_of events.now) }
{
    for x in events {
        if marked.before(get_now, *x) {
            return false;
        }
    }
    true
}

/// The first of these events that isn't before a get.
fn first_not_before(marked: &MarkedPlan<'_>, events: &[Event], get_now: Event) -> Option<Event>
    ensures { IsFirstLate (plan_of marked.now) (event_of get_now) (map event_of events.now) result }
{
    for x in events {
        if !marked.before(*x, get_now) {
            return Some(*x);
        }
    }
    None
}

/// The arrival of a process among these, which are in process order and one of each process, by bisection;
/// `None` where the process has none.
fn bisect_arrival(arrivals: &[Event], proc: Proc) -> Option<Event>
    requires { AreOfRising (map event_of arrivals.now) }
    ensures { IsFoundAmong proc.number (map event_of arrivals.now) result }
{
    let mut low = 0;
    let mut high = arrivals.len();
    'bisection: while low < high {
        let middle = low + (high - low) / 2;
        let arrival = arrivals[middle];
        if arrival.proc.number == proc.number {
            return Some(arrival);
        }
        if arrival.proc.number < proc.number {
            low = middle + 1;
        } else {
            high = middle;
        }
    }
    None
}

/// The arrival of a process among these, which are in process order and one of each process; `None` where
/// the process has none. At a fence of all processes it stands at the number of the process.
fn find_arrival(arrivals: &[Event], proc: Proc) -> Option<Event>
    requires { AreOfRising (map event_of arrivals.now) }
    ensures { IsFoundAmong proc.number (map event_of arrivals.now) result }
{
    match arrivals.get(proc.index()) {
        Some(arrival) if arrival.proc.number == proc.number => Some(*arrival),
        _ => bisect_arrival(arrivals, proc),
    }
}

/// Whether an event stands behind an arrival of its own process among these, which are in process
/// order and one of each process.
fn is_behind_own(arrivals: &[Event], event: Event) -> bool
    requires { AreOfRising (map event_of arrivals.now) }
    ensures { IsTrue result ↔ IsBehindOwn (event_of event) (map event_of arrivals.now) }
{
    match find_arrival(arrivals, event.proc) {
        Some(own) => own.at < event.at,
        None => false,
    }
}

/// Whether all arrivals at the fence of an arrival are live and before a live get. A get that stands
/// behind its own process's arrival at the fence comes after the end of the fence, and so after all of
/// them.
fn is_sure(marked: &MarkedPlan<'_>, get_now: Event, arrival: Event) -> bool
    requires live { Live (plan_of marked.now) (event_of get_now) }
    requires fence { Arrives (plan_of marked.now) (event_of arrival) }
    ensures { IsTrue result ↔ IsSure (plan_of marked.now) (event_of get_now) (event_of arrival) }
{
    let arrivals = all_arrivals(marked.plan(), arrival);
    if is_behind_own(arrivals, get_now) {
        return true;
    }
    all_live(marked, arrivals) && first_not_before(marked, arrivals, get_now).is_none()
}

/// Whether all arrivals at the fence of an arrival are live, and a get is before none of them.
pub fn may_be_late(marked: &MarkedPlan<'_>, get_now: Event, arrival: Event) -> bool
    requires fence { Arrives (plan_of marked.now) (event_of arrival) }
    ensures { IsTrue result ↔ MayBeLate (plan_of marked.now) (event_of get_now) (event_of arrival) }
{
    let arrivals = all_arrivals(marked.plan(), arrival);
    all_live(marked, arrivals) && is_before_none(marked, get_now, arrivals)
}

/// The first arrival, in process order, at the fence of an arrival that isn't before a get. All
/// arrivals there are live, and the get is before none of them.
pub fn late_source(marked: &MarkedPlan<'_>, get_now: Event, arrival: Event) -> Option<Event>
    requires may { MayBeLate (plan_of marked.now) (event_of get_now) (event_of arrival) }
    ensures { MatchOption result ((x : runs.Event) → IsLate (plan_of marked.now) (event_of get_now) (event_of arrival) x → ⊥)
        (λ x. IsLate (plan_of marked.now) (event_of get_now) (event_of arrival) (event_of x)) }
{
    first_not_before(marked, all_arrivals(marked.plan(), arrival), get_now)
}

/// The next arrival of a process, from its event of this number on, that brings its key to a node.
pub fn next_arrival(plan: &Plan, owner: Proc, key: u32, node: u32, from: u32) -> Option<Event>
    requires { IsPutOnce (plan_of plan.now) owner.number key }
    ensures { IsNextArrival (plan_of plan.now) owner.number key node from result }
{
    plan.next_delivery(owner, key, node, from)
}

/// Whether this node is that of a live get's process, and the last fence with data that the process has left
/// before the get brings the key there. A test for speed alone: where it fails, the first fence that brings the key is
/// looked at.
fn own_fence_brings(marked: &MarkedPlan<'_>, asked: KeyRead, node: u32) -> bool
    requires live { Live (plan_of marked.now) (event_of asked.get_now) }
    requires once { IsPutOnce (plan_of marked.now) asked.owner.number asked.key }
    ensures exactly { IsTrue result ↔ IsSureByOwnFence (plan_of marked.now) asked.owner.number asked.key node (event_of asked.get_now) }
    ensures sure { IsTrue result → IsSureByFence (plan_of marked.now) asked.owner.number asked.key node (event_of asked.get_now) }
{
    let plan = marked.plan();
    if plan.node_of(asked.get_now.proc) != node {
        return false;
    }
    let Some(own) = plan.last_bringing_arrival(asked.get_now) else {
        return false;
    };
    match find_arrival(all_arrivals(plan, own), asked.owner) {
        Some(arrival) => plan.is_sent(asked.owner, asked.key, arrival.at),
        None => false,
    }
}

/// Whether the first delivery of a key to a node by a fence comes before a get in every run.
fn first_fence_is_sure(marked: &MarkedPlan<'_>, asked: KeyRead, node: u32) -> bool
    requires live { Live (plan_of marked.now) (event_of asked.get_now) }
    requires once { IsPutOnce (plan_of marked.now) asked.owner.number asked.key }
    ensures { IsTrue result ↔ IsSureByFence (plan_of marked.now) asked.owner.number asked.key node (event_of asked.get_now) }
{
    match next_arrival(marked.plan(), asked.owner, asked.key, node, 0) {
        Some(first) => is_sure(marked, asked.get_now, first),
        None => false,
    }
}

/// Whether a delivery of a key to a node by a fence comes before a get in every run. If any does, the
/// first one does: all arrivals at its fence are before each later arrival of the owner. Mostly the last
/// fence with data that the get's own process has left is one that does, and that takes fewer lookups.
fn fence_comes_surely(marked: &MarkedPlan<'_>, asked: KeyRead, node: u32) -> bool
    requires live { Live (plan_of marked.now) (event_of asked.get_now) }
    requires once { IsPutOnce (plan_of marked.now) asked.owner.number asked.key }
    ensures { IsTrue result ↔ IsSureByFence (plan_of marked.now) asked.owner.number asked.key node (event_of asked.get_now) }
{
    own_fence_brings(marked, asked, node) || first_fence_is_sure(marked, asked, node)
}

/// Whether a delivery of a key to a node, by a fence or by a get, comes before a get in every run.
pub fn comes_surely(marked: &MarkedPlan<'_>, asked: KeyRead, node: u32) -> bool
    requires live { Live (plan_of marked.now) (event_of asked.get_now) }
    requires once { IsPutOnce (plan_of marked.now) asked.owner.number asked.key }
    ensures { IsTrue result ↔ ComesSurely (plan_of marked.now) asked.owner.number asked.key node (event_of asked.get_now) }
{
    if fence_comes_surely(marked, asked, node) {
        return true;
    }
    get_comes_surely(marked, asked, node)
}
