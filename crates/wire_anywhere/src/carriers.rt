//! Which processes surely have a key before a get-now, on whatever nodes they are.

ghost use Rattle.std.specs.Prelude.{◌≡◌, ◌≢◌, ◌↔◌, ℕ, Some, IsTrue, map, nat_lt, slice_get};
ghost use Rattle.wire_runs.specs.Plan.{event_of};
ghost use Rattle.wire_runs.specs.Plan as runs;
ghost use Rattle.wire_scripts.specs.Planned.{plan_of};
ghost use Rattle.wire_runs.specs.Placings.{HasSurely};
ghost use Rattle.wire_plan.specs.Bringing.{IsRising};
ghost use Rattle.wire_races.specs.KeyRaces.{IsOpenRead};
ghost use Rattle.wire_anywhere.specs.Gets.{AreCarrying, AreGetLists};
ghost use Rattle.wire_anywhere.specs.Carriers.{IsSureByFence, IsSureByGet, LacksSurely, IsFirstOf, IsLeastLacking};

use crate::gets::GetTable;
use wire_fates::{KeyRead, all_arrivals, next_arrival};
use wire_happens_before::MarkedPlan;
use wire_types::{Event, Proc};

/// How many events of a list in process order are of lower processes, by bisection.
fn count_below(list: &[Event], proc: Proc) -> usize
    ensures { IsRising (map event_of list.now) → (k : ℕ) (x : runs.Event) → slice_get (map event_of list.now) k ≡ Some x →
        nat_lt x.proc proc.number ≡ nat_lt k result }
{
    list.partition_point(|x| x.proc.number < proc.number)
}

/// The first event of a process among events in process order.
fn first_of(list: &[Event], proc: Proc) -> Option<Event>
    requires { IsRising (map event_of list.now) }
    ensures { IsFirstOf (map event_of list.now) proc.number result }
{
    match list.get(count_below(list, proc)) {
        Some(event) if event.proc.number == proc.number => Some(*event),
        _ => None,
    }
}

/// Whether a fence brings a key to a process before a get-now in every run. The owner's arrival there tells whether
/// the fence is complete before the get; where one isn't, no later one is.
fn fence_brings_surely(marked: &MarkedPlan<'_>, asked: KeyRead, proc: Proc) -> bool
    requires { IsOpenRead (plan_of marked.now) (event_of asked.get_now) asked.owner.number asked.key }
    ensures { IsTrue result ↔ IsSureByFence (plan_of marked.now) asked.owner.number asked.key proc.number (event_of asked.get_now) }
{
    let plan = marked.plan();
    let home = plan.node_of(asked.owner);
    let count = plan.event_count(asked.owner);
    let mut from = 0;
    'deliveries: while from < count {
        let Some(arrival) = next_arrival(plan, asked.owner, asked.key, home, from) else {
            return false;
        };
        if !marked.before(arrival, asked.get_now) {
            return false;
        }
        if first_of(all_arrivals(plan, arrival), proc).is_some() {
            return true;
        }
        from = arrival.at + 1;
    }
    false
}

/// Whether a get of a process that brings it a key is before a get-now, given all gets that bring this key away. If
/// any is, its first one is.
fn get_brings_surely(marked: &MarkedPlan<'_>, gets: &[Event], asked: KeyRead, proc: Proc) -> bool
    requires { AreCarrying (plan_of marked.now) asked.owner.number asked.key (map event_of gets.now) }
    ensures { IsTrue result ↔ IsSureByGet (plan_of marked.now) asked.owner.number asked.key proc.number (event_of asked.get_now) }
{
    match first_of(gets, proc) {
        Some(first) => marked.before(first, asked.get_now),
        None => false,
    }
}

/// Whether another process than the owner surely has the key before a get-now: a fence or a get of its own brings it
/// before that in every run.
pub(crate) fn has_surely(
    marked: &MarkedPlan<'_>,
    table: &GetTable,
    asked: KeyRead,
    proc: Proc,
) -> bool
    requires get { IsOpenRead (plan_of marked.now) (event_of asked.get_now) asked.owner.number asked.key }
    requires table { AreGetLists (plan_of marked.now) table.now }
    requires another { proc.number ≢ asked.owner.number }
    ensures { IsTrue result ↔ HasSurely (plan_of marked.now) asked.owner.number asked.key proc.number (event_of asked.get_now) }
{
    fence_brings_surely(marked, asked, proc)
        || get_brings_surely(marked, table.carrying(marked.plan(), asked), asked, proc)
}

/// Whether a process is another than the owner, and doesn't surely have the key before a get-now.
pub(crate) fn lacks(marked: &MarkedPlan<'_>, gets: &[Event], asked: KeyRead, proc: Proc) -> bool
    requires get { IsOpenRead (plan_of marked.now) (event_of asked.get_now) asked.owner.number asked.key }
    requires gets { AreCarrying (plan_of marked.now) asked.owner.number asked.key (map event_of gets.now) }
    ensures { IsTrue result ↔ LacksSurely (plan_of marked.now) asked.owner.number asked.key (event_of asked.get_now) proc.number }
{
    if proc.number == asked.owner.number {
        return false;
    }
    if fence_brings_surely(marked, asked, proc) {
        return false;
    }
    !get_brings_surely(marked, gets, asked, proc)
}

/// The process of the first of these events whose process lacks the key.
pub(crate) fn first_lacking(
    marked: &MarkedPlan<'_>,
    gets: &[Event],
    asked: KeyRead,
    list: &[Event],
) -> Option<Proc>
    requires get { IsOpenRead (plan_of marked.now) (event_of asked.get_now) asked.owner.number asked.key }
    requires gets { AreCarrying (plan_of marked.now) asked.owner.number asked.key (map event_of gets.now) }
    ensures { IsLeastLacking (plan_of marked.now) asked.owner.number asked.key (event_of asked.get_now) (map event_of list.now) result }
{
    for event in list {
        if lacks(marked, gets, asked, event.proc) {
            return Some(event.proc);
        }
    }
    None
}
