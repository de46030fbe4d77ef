//! The fences that events are part of, and who arrives at each fence.

ghost use Rattle.std.specs.Prelude.{◌≡◌, ◌<◌, ◌∷◌, [], ℕ, suc, List, true, Some, length, map as map_list, IfOk, OnOk};
ghost use Rattle.wire_runs.specs.Plan.{Leave, event_of, process_count, event_count, kind};
ghost use Rattle.wire_runs.specs.Fences.{arrivals as arrivals_of, is_full as is_full_fence};
ghost use Rattle.wire_scripts.specs.Scripts.{Scripts as TheScripts};
ghost use Rattle.wire_scripts.specs.Planned.{plan_of};
ghost use Rattle.wire_fence.specs.FenceTable.{FenceInfo, FenceTable, AreFencesOf, fence_at as the_fence_at};
ghost use Rattle.wire_plan.specs.Index.{AreArrivals};
ghost use Rattle.wire_plan.specs.Meetings.{is_of_fence, IsMet, arrivals_in, AreArrivalLists, AreArrivalListsTo};
ghost use Rattle.wire_plan.specs.Meetings.{IsArrivalAdded};

use crate::events::Events;
use crate::kind::Kind;
use std::alloc::{AllocError, Global};
use std::marker::Model;
use wire_fence::{FenceId, Fences};
use wire_types::{Event, Proc};

/// The fence that an event, the arrival at it or its end, is part of: its number among these fences of
/// the scripts.
pub(crate) fn fence_at(events: &Events, fences: &Fences, event: Event) -> FenceId
    requires fences { AreFencesOf events.now fences.now }
    requires half { is_of_fence (kind (plan_of events.now) (event_of event)) ≡ true }
    ensures { IsMet events.now fences.now (event_of event) result.number }
{
    fences.id_of(events.call_of(event))
}

/// Who arrives at each fence, by the fence's number: the event by which each of its callers arrives, in
/// process order.
#[derive(Drop)]
pub(crate) struct Meetings {
    arrivals: Vec<Vec<Event>>,
}

impl Model for Meetings {
    ghost use Rattle.std.specs.Prelude.{List, map};
    ghost use Rattle.wire_types.specs.declared.Event as place;

    ghost Value = { List (List place.Event) };

    ghost view = { λ m. map (λ v. v.items) m.arrivals.items };
}

/// Makes a list for the fence of this number, and for those below.
fn make_room(lists: &mut Vec<Vec<Event>>, alloc: Global, number: usize) -> Result<(), AllocError>
    ensures room { OnOk result (number < length lists.new.items) }
    ensures same { OnOk result ((n : ℕ) → arrivals_in (map_list (λ v. v.items) lists.new.items) n
        ≡ arrivals_in (map_list (λ v. v.items) lists.old.items) n) }
{
    'lists: while lists.len() <= number {
        lists.push(Vec::new(alloc))?;
    }
    Ok(())
}

/// Adds an arrival to the list of its fence.
fn add_arrival(
    lists: &mut Vec<Vec<Event>>,
    alloc: Global,
    fence: FenceId,
    event: Event,
) -> Result<(), AllocError>
    ensures { OnOk result (IsArrivalAdded fence.number event (map_list (λ v. v.items) lists.old.items) (map_list (λ v. v.items) lists.new.items)) }
{
    let number = fence.number as usize;
    make_room(lists, alloc, number)?;
    lists[number].push(event)?;
    Ok(())
}

/// Adds an event of the plan, where it is an arrival.
fn add_event(
    lists: &mut Vec<Vec<Event>>,
    alloc: Global,
    events: &Events,
    fences: &Fences,
    event: Event,
) -> Result<(), AllocError>
    requires fences { AreFencesOf events.now fences.now }
    requires there { event.at < event_count (plan_of events.now) event.proc.number }
    ensures { OnOk result (AreArrivalListsTo events.now fences.now event.proc.number event.at (map_list (λ v. v.items) lists.old.items) →
        AreArrivalListsTo events.now fences.now event.proc.number (suc event.at) (map_list (λ v. v.items) lists.new.items)) }
{
    if let Kind::Arrive { .. } = events.kind(event) {
        add_arrival(lists, alloc, fence_at(events, fences, event), event)?;
    }
    Ok(())
}

/// Adds the arrivals of a process.
fn add_process(
    lists: &mut Vec<Vec<Event>>,
    alloc: Global,
    events: &Events,
    fences: &Fences,
    proc: Proc,
) -> Result<(), AllocError>
    requires { AreFencesOf events.now fences.now }
    ensures { OnOk result (AreArrivalListsTo events.now fences.now proc.number 0 (map_list (λ v. v.items) lists.old.items) →
        AreArrivalListsTo events.now fences.now (suc proc.number) 0 (map_list (λ v. v.items) lists.new.items)) }
{
    for at in 0..events.event_count(proc) {
        add_event(lists, alloc, events, fences, Event { proc, at })?;
    }
    Ok(())
}

impl Meetings {
    /// Who arrives at these fences, which are those of the events' scripts.
    pub(crate) fn of(
        alloc: Global,
        events: &Events,
        fences: &Fences,
    ) -> Result<Meetings, AllocError>
        requires { AreFencesOf events.now fences.now }
        ensures { IfOk result (λ meetings. AreArrivalLists events.now fences.now meetings) }
    {
        let mut arrivals = Vec::new(alloc);
        for number in 0..events.process_count() {
            add_process(&mut arrivals, alloc, events, fences, Proc { number })?;
        }
        Ok(Meetings { arrivals })
    }

    /// The arrivals at a fence, in process order.
    pub(crate) fn arrivals(&self, fence: FenceId) -> &[Event]
        ensures { (s : TheScripts) (table : FenceTable) (info : FenceInfo) → AreArrivalLists s table self.now →
            the_fence_at table fence.number ≡ Some info →
            AreArrivals (plan_of s) info.members info.nth (map_list event_of result.now) }
    {
        match self.arrivals.get(fence.number as usize) {
            Some(list) => list.as_slice(),
            None => &[],
        }
    }
}

/// The arrivals at the fence that ends at an event, in process order.
pub(crate) fn arrivals_at<'a>(
    meetings: &'a Meetings,
    events: &Events,
    fences: &Fences,
    event: Event,
) -> &'a [Event]
    requires fences { AreFencesOf events.now fences.now }
    requires meetings { AreArrivalLists events.now fences.now meetings.now }
    requires half { is_of_fence (kind (plan_of events.now) (event_of event)) ≡ true }
    ensures { (members : List ℕ) → kind (plan_of events.now) (event_of event) ≡ Some (Leave members) →
        AreArrivals (plan_of events.now) members (arrivals_of (plan_of events.now) event.proc.number members event.at) (map_list event_of result.now) }
{
    meetings.arrivals(fence_at(events, fences, event))
}

/// Whether each member calls the fence that ends at an event.
pub(crate) fn is_full(events: &Events, fences: &Fences, event: Event) -> bool
    requires fences { AreFencesOf events.now fences.now }
    requires half { is_of_fence (kind (plan_of events.now) (event_of event)) ≡ true }
    ensures { (members : List ℕ) → kind (plan_of events.now) (event_of event) ≡ Some (Leave members) →
        result ≡ is_full_fence (plan_of events.now) members (arrivals_of (plan_of events.now) event.proc.number members event.at) }
{
    fences.full(fence_at(events, fences, event))
}
