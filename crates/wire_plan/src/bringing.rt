//! The arrivals at fences that bring data.

ghost use Rattle.std.specs.Prelude.{◌≡◌, ◌<◌, ◌≤◌, ◌&&◌, ℕ, length, suc, Some, slice_get, map, option_map, nat_lt, IfOk, IfSome, OnOk};
ghost use Rattle.wire_runs.specs.Plan.{event_of, event_count};
ghost use Rattle.wire_runs.specs.Plan as runs;
ghost use Rattle.wire_scripts.specs.Planned.{plan_of};
ghost use Rattle.wire_fence.specs.FenceTable.{AreFencesOf, fence_at as the_fence_at, full_in, collects_in};
ghost use Rattle.wire_plan.specs.Index.{IsLastBringingArrival};
ghost use Rattle.wire_plan.specs.Bringing.{AreBringing, AreBringingTo, IsFirstFrom, IsRising, is_below};

use crate::events::Events;
use crate::kind::Kind;
use crate::meetings::fence_at;
use std::alloc::{AllocError, Global};
use wire_fence::{FenceId, Fences};
use wire_types::{Event, Proc};

/// Whether a fence is called by each member, and says in each call that data is collected.
fn brings(fences: &Fences, fence: FenceId) -> bool
    ensures { result ≡ (full_in (the_fence_at fences.now fence.number) && collects_in (the_fence_at fences.now fence.number)) }
{
    fences.full(fence) && fences.collects(fence)
}

/// How many events of a list in process order are lower than an event, by bisection.
fn count_lower(list: &[Event], event: Event) -> usize
    ensures within { result ≤ length list.now }
    ensures exactly { IsRising (map event_of list.now) → (k : ℕ) (x : runs.Event) → slice_get (map event_of list.now) k ≡ Some x →
        is_below x (event_of event) ≡ nat_lt k result }
{
    list.partition_point(|x| *x < event)
}

/// The arrivals at fences that bring data, in process order. A fence brings data to the nodes of its members
/// where each member calls it, each with data collection (PMIx Standard 5.0, PMIx_Fence with
/// PMIX_COLLECT_DATA).
#[derive(Drop)]
pub(crate) struct BringingArrivals {
    arrivals: Vec<Event>,
}

impl BringingArrivals {
    /// Adds an event of the plan, where it is an arrival at a fence that brings data.
    fn add_event(
        &mut self,
        events: &Events,
        fences: &Fences,
        event: Event,
    ) -> Result<(), AllocError>
        requires fences { AreFencesOf events.now fences.now }
        requires there { event.at < event_count (plan_of events.now) event.proc.number }
        ensures { OnOk result (AreBringingTo (plan_of events.now) event.proc.number event.at self.old →
            AreBringingTo (plan_of events.now) event.proc.number (suc event.at) self.new) }
    {
        if let Kind::Arrive { .. } = events.kind(event) {
            let fence = fence_at(events, fences, event);
            if brings(fences, fence) {
                self.arrivals.push(event)?;
            }
        }
        Ok(())
    }

    /// Adds the arrivals of a process at fences that bring data.
    fn add_process(
        &mut self,
        events: &Events,
        fences: &Fences,
        proc: Proc,
    ) -> Result<(), AllocError>
        requires { AreFencesOf events.now fences.now }
        ensures { OnOk result (AreBringingTo (plan_of events.now) proc.number 0 self.old →
            AreBringingTo (plan_of events.now) (suc proc.number) 0 self.new) }
    {
        for at in 0..events.event_count(proc) {
            self.add_event(events, fences, Event { proc, at })?;
        }
        Ok(())
    }

    /// The arrivals at these fences, which are those of the events' scripts. The only error is that memory
    /// ran out.
    pub(crate) fn of(
        alloc: Global,
        events: &Events,
        fences: &Fences,
    ) -> Result<BringingArrivals, AllocError>
        requires { AreFencesOf events.now fences.now }
        ensures { IfOk result (λ table. AreBringing (plan_of events.now) table) }
    {
        let mut table = BringingArrivals {
            arrivals: Vec::new(alloc),
        };
        for number in 0..events.process_count() {
            table.add_process(events, fences, Proc::new(number))?;
        }
        Ok(table)
    }

    /// The first arrival of a process, from this event of it on, at a fence that brings data to a node. Those of
    /// the process are found by bisection, and looked at one by one.
    pub(crate) fn first_from(
        &self,
        events: &Events,
        fences: &Fences,
        node: u32,
        from: Event,
    ) -> Option<Event>
        requires fences { AreFencesOf events.now fences.now }
        requires bringing { AreBringing (plan_of events.now) self.now }
        ensures proc { IfSome result (λ e. e.proc ≡ from.proc) }
        ensures first { IsFirstFrom (plan_of events.now) from.proc.number node from.at result }
    {
        let list = self.arrivals.as_slice();
        let first = count_lower(list, from);
        for place in first..list.len() {
            let arrival = list[place];
            if arrival.proc != from.proc {
                return None;
            }
            if fences.reaches(fence_at(events, fences, arrival), node) {
                return Some(arrival);
            }
        }
        None
    }

    /// The last arrival of an event's process before it at a fence that brings data, by bisection.
    pub(crate) fn last_before(&self, event: Event) -> Option<Event>
        ensures { (plan : runs.Plan) → AreBringing plan self.now → IsLastBringingArrival plan (event_of event) (option_map event_of result) }
    {
        let list = self.arrivals.as_slice();
        let lower = count_lower(list, event);
        if lower == 0 {
            return None;
        }
        let arrival = list[lower - 1];
        if arrival.proc.number == event.proc.number {
            Some(arrival)
        } else {
            None
        }
    }
}
