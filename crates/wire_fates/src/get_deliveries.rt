//! Deliveries of a key to a node by gets, where the plan keeps what gets bring.

ghost use Rattle.std.specs.Prelude.{◌-◌, ◌<◌, ◌≤◌, ◌↔◌, ℕ, IsTrue, length, map};
ghost use Rattle.wire_runs.specs.Plan.{event_of};
ghost use Rattle.wire_scripts.specs.Planned.{plan_of};
ghost use Rattle.wire_runs.specs.Races.{IsPutOnce};
ghost use Rattle.wire_plan.specs.Index.{AreGetDeliveries};
ghost use Rattle.wire_fates.specs.Deliveries.{AreOfOne, EndsAt, IsSureByGet};

use crate::fence_deliveries::KeyRead;
use wire_happens_before::MarkedPlan;
use wire_types::{Event, Proc};

/// The place behind the last get of the process whose get stands at this place, among gets in process
/// order. It is looked for by bisection.
pub fn process_end(gets: &[Event], place: usize) -> usize
    requires { place < length gets.now }
    ensures after { place < result }
    ensures last { AreOfOne (map event_of gets.now) place (result - 1) }
    ensures end { EndsAt (map event_of gets.now) place result }
{
    let proc = gets[place].proc;
    let mut low = place + 1;
    let mut high = gets.len();
    'bisection: while low < high {
        let middle = low + (high - low) / 2;
        if gets[middle].proc.number == proc.number {
            low = middle + 1;
        } else {
            high = middle;
        }
    }
    low
}

/// Where the gets of a process begin among gets in process order, by bisection: the first place at which to
/// look. The contract promises no more than a place among them, since what stands there is looked at.
fn own_place(gets: &[Event], proc: Proc) -> usize
    ensures { result ≤ length gets.now }
{
    gets.partition_point(|get| get.proc.number < proc.number)
}

/// Whether the get with which the caller's own process brought the key comes before a get. Most often it is
/// there, and then no other needs to be looked for. A test for speed alone: where it is true, a get comes
/// before; where it is false, nothing is promised, and the gets are looked at.
fn own_is_before(marked: &MarkedPlan<'_>, gets: &[Event], get_now: Event) -> bool
    ensures { (p key node : ℕ) → AreGetDeliveries (plan_of marked.now) p key node (map event_of gets.now) → IsTrue result →
        IsSureByGet (plan_of marked.now) p key node (event_of get_now) }
{
    match gets.get(own_place(gets, get_now.proc)) {
        Some(own) => marked.before(*own, get_now),
        None => false,
    }
}

/// Whether a get that brings a key to a node comes before a get in every run. Of the gets of a process
/// the first one does, if any does.
pub(crate) fn get_comes_surely(marked: &MarkedPlan<'_>, asked: KeyRead, node: u32) -> bool
    requires once { IsPutOnce (plan_of marked.now) asked.owner.number asked.key }
    ensures { IsTrue result ↔ IsSureByGet (plan_of marked.now) asked.owner.number asked.key node (event_of asked.get_now) }
{
    let gets = marked.plan().gets_to(asked.owner, asked.key, node);
    if own_is_before(marked, gets, asked.get_now) {
        return true;
    }
    let mut place = 0;
    'processes: while place < gets.len() {
        if marked.before(gets[place], asked.get_now) {
            return true;
        }
        place = process_end(gets, place);
    }
    false
}
