//! The fences that events are part of.

ghost use Rattle.std.specs.Prelude.{◌≡◌, ◌<◌, ◌≤◌, ℕ, suc, true, false, Some, length, option_map, IfSome, IfNone};
ghost use Rattle.std.specs.Prelude.{OnSome};
ghost use Rattle.wire_runs.specs.Plan.{Arrive, event_of, kind_at, event_count, kind as kind_in};
ghost use Rattle.wire_runs.specs.Fences.{arrivals as arrivals_of, is_complete as all_arrived};
ghost use Rattle.wire_scripts.specs.Planned.{plan_of};
ghost use Rattle.wire_fence.specs.FenceTable.{AreFencesOf};
ghost use Rattle.wire_fence.specs.Arrivals.{TellsMissing, missing_at};
ghost use Rattle.wire_plan.specs.Kinds.{kind_of};
ghost use Rattle.wire_runs.specs.Sight.{delivered};
ghost use Rattle.wire_plan.specs.Meetings.{is_of_fence, fence_members};
ghost use Rattle.wire_core.specs.Met.{brings_at, stored_at, after_arrival, ArrivesAt};

use wire_fence::{Arrivals, FenceId, Fences};
use wire_plan::{Kind, Plan, fence_of};
use wire_types::{Event, Proc};

/// Whether all members have arrived at the fence that an event of the plan is part of.
pub(crate) fn is_complete(plan: &Plan, fences: &Fences, arrivals: &Arrivals, event: Event) -> bool
    requires fences { AreFencesOf plan.now fences.now }
    requires half { is_of_fence (kind_in (plan_of plan.now) (event_of event)) ≡ true }
    ensures { (cut : ℕ → ℕ) → TellsMissing plan.now cut fences.now arrivals.now
        → result ≡ all_arrived (plan_of plan.now) cut (fence_members (kind_in (plan_of plan.now) (event_of event)))
        (arrivals_of (plan_of plan.now) event.proc.number (fence_members (kind_in (plan_of plan.now) (event_of event))) (suc event.at)) }
{
    arrivals.complete(fence_of(plan, fences, event))
}

/// The fence at which an event of the plan, which is of this kind, arrives, where that is what it does.
pub(crate) fn find_fence(plan: &Plan, fences: &Fences, event: Event, kind: Kind) -> Option<FenceId>
    requires fences { AreFencesOf plan.now fences.now }
    requires is { kind_in (plan_of plan.now) (event_of event) ≡ Some (kind_of plan.now.sets kind) }
    ensures { ArrivesAt plan.now fences.now (event_of event) (option_map (λ f. f.number) result) }
{
    match kind {
        Kind::Arrive { .. } => Some(fence_of(plan, fences, event)),
        _ => None,
    }
}

/// Notes the arrival of a process at a fence, where there is one.
pub(crate) fn note_arrival(arrivals: &mut Arrivals, fence: Option<FenceId>, proc: Proc)
    requires { IfSome fence (λ f. 0 < missing_at arrivals.old f.number) }
    ensures { arrivals.new ≡ after_arrival (option_map (λ f. f.number) fence) arrivals.old }
{
    if let Some(fence) = fence {
        arrivals.arrive(fence, proc);
    }
}

/// Whether an event of the plan is an arrival at a fence that has brought the data of its process to a
/// node.
pub(crate) fn brings(
    plan: &Plan,
    fences: &Fences,
    arrivals: &Arrivals,
    event: Event,
    node: u32,
) -> bool
    requires fences { AreFencesOf plan.now fences.now }
    requires there { event.at < event_count (plan_of plan.now) event.proc.number }
    ensures { (cut : ℕ → ℕ) → TellsMissing plan.now cut fences.now arrivals.now →
        result ≡ brings_at (plan_of plan.now) cut event.proc.number node event.at }
{
    match plan.kind(event) {
        Kind::Arrive { .. } => {
            let fence = fence_of(plan, fences, event);
            if !arrivals.complete(fence) {
                return false;
            }
            if !fences.reaches(fence, node) {
                return false;
            }
            fences.collects(fence)
        }
        _ => false,
    }
}

/// Whether an event of the plan may bring the data of its process to a node, once what else it takes has
/// come.
pub(crate) fn may_bring(plan: &Plan, fences: &Fences, event: Event, node: u32) -> bool
    requires fences { AreFencesOf plan.now fences.now }
    requires there { event.at < event_count (plan_of plan.now) event.proc.number }
    ensures { result ≡ false → (cut : ℕ → ℕ) → brings_at (plan_of plan.now) cut event.proc.number node event.at ≡ false }
{
    match plan.kind(event) {
        Kind::Arrive { .. } => {
            let fence = fence_of(plan, fences, event);
            if !fences.collects(fence) {
                return false;
            }
            fences.reaches(fence, node)
        }
        _ => false,
    }
}
