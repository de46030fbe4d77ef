//! The ends of a fence, and in which order the arrivals at it are looked for.

ghost use Rattle.std.specs.Prelude.{◌≡◌, ℕ, ◌<◌, Some, IfSome, slice_get};
ghost use Rattle.wire_runs.specs.Plan.{event_of, event_count};
ghost use Rattle.wire_scripts.specs.Planned.{plan_of};
ghost use Rattle.wire_plan.specs.Index.{source_list};
ghost use Rattle.wire_board.specs.Lanes.{WaitsForMore, SameEvents};

use wire_plan::{Plan, Sources};
use wire_types::{Event, Proc};

/// The last of these arrivals by a process before this one, if they are in process order; or the last of all, where
/// there is none before.
fn member_before(arrivals: &[Event], proc: Proc) -> Option<Event>
    ensures { IfSome result (λ x. (k : ℕ) × (slice_get arrivals.now k ≡ Some x)) }
{
    let before = arrivals.partition_point(|arrival| arrival.proc.number < proc.number);
    let at = match before.checked_sub(1) {
        Some(at) => at,
        None => arrivals.len().saturating_sub(1),
    };
    match arrivals.get(at) {
        Some(arrival) => Some(*arrival),
        None => None,
    }
}

/// The event that follows one of the arrivals for which an event waits: the end of the same fence in the script of the
/// member before its process, or of the last member where none is before. None where the event doesn't end a fence.
pub(crate) fn end_before(plan: &Plan, event: Event) -> Option<Event>
    requires { event.at < event_count (plan_of plan.now) event.proc.number }
    ensures { IfSome result (λ end. WaitsForMore (plan_of plan.now) (event_of event) (event_of end)) }
{
    let sources = plan.sources(event);
    let Some(arrival) = member_before(sources.arrivals, event.proc) else {
        return None;
    };
    let Some(at) = arrival.at.checked_add(1) else {
        return None;
    };
    Some(Event {
        proc: arrival.proc,
        at,
    })
}

/// The first of these arrivals by a process after this one, if they are in process order.
fn next_member(arrivals: &[Event], proc: Proc) -> Option<Event>
    ensures { IfSome result (λ x. (k : ℕ) × (slice_get arrivals.now k ≡ Some x)) }
{
    let at = arrivals.partition_point(|arrival| arrival.proc.number <= proc.number);
    match arrivals.get(at) {
        Some(arrival) => Some(*arrival),
        None => None,
    }
}

/// These sources. Where they are those of the end of a fence, the arrival of the member after this process stands in
/// front of the other arrivals too: where ranks are served in order, that one is likely to be missing.
pub(crate) fn next_member_first<'a>(sources: Sources<'a>, proc: Proc) -> Sources<'a>
    ensures { SameEvents (source_list sources.entry.previous sources.entry.awaited sources.entry.arrivals.now)
        (source_list result.previous result.awaited result.arrivals.now) }
{
    match sources.awaited {
        Some(_) => sources,
        None => Sources {
            previous: sources.previous,
            awaited: next_member(sources.arrivals, proc),
            arrivals: sources.arrivals,
        },
    }
}
