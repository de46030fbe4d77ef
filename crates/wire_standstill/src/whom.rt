//! Whom each rank waits for.

ghost use Rattle.std.specs.Prelude.{◌≡◌, ◌<◌, ◌^◌, ◌++◌, [], ℕ, List, Some, map, length, option_map, IfOk, OnOk};
ghost use Rattle.std.specs.Option.{option_to_list};
ghost use Rattle.wire_runs.specs.Plan.{event_of, event_count};
ghost use Rattle.wire_runs.specs.State.{next_event};
ghost use Rattle.wire_scripts.specs.Planned.{plan_of};
ghost use Rattle.wire_plan.specs.Kinds.{kind_of};
ghost use Rattle.wire_core.specs.Course.{plan_in, state_of};
ghost use Rattle.wire_standstill.specs.Standstill as spec;
ghost use Rattle.wire_standstill.specs.Standstill.{ArePublishesFor, AreWaitedBy, AreWaits};

use std::alloc::{AllocError, Global};
use wire_core::Core;
use wire_plan::{Kind, Plan};
use wire_types::{Event, Proc};

/// Adds the rank of an event, where that hasn't happened.
fn push_undone(out: &mut Vec<u32>, core: &Core<'_>, event: Event) -> Result<(), AllocError>
    ensures { OnOk result (out.new.items ≡ out.old.items ++ spec.undone_rank (state_of core.now) (event_of event)) }
{
    if !core.is_done(event) {
        out.push(event.proc.number)?;
    }
    Ok(())
}

/// Adds the ranks of those of these events that haven't happened.
#[tactic(auto, using(crate::proofs::Awaited::pushed_more, crate::proofs::Awaited::pushed_all))]
fn push_all_undone(out: &mut Vec<u32>, core: &Core<'_>, events: &[Event]) -> Result<(), AllocError>
    ensures { OnOk result (out.new.items ≡ out.old.items ++ spec.undone_ranks (state_of core.now) (map event_of events.now)) }
{
    for event in events {
        push_undone(out, core, *event)?;
    }
    Ok(())
}

/// The same of one event, where there is one.
fn push_one_undone(
    out: &mut Vec<u32>,
    core: &Core<'_>,
    event: Option<Event>,
) -> Result<(), AllocError>
    ensures { OnOk result (out.new.items
        ≡ out.old.items ++ spec.undone_ranks (state_of core.now) (option_to_list (option_map event_of event))) }
{
    match event {
        Some(event) => push_undone(out, core, event),
        None => Ok(()),
    }
}

/// The publishes of the name for which an event of this kind waits; none where it waits for no name.
fn publishes_for(plan: &Plan, kind: Kind) -> &[Event]
    ensures { ArePublishesFor (plan_of plan.now) (kind_of plan.now.sets kind) (map event_of result.now) }
{
    match kind {
        Kind::LookupWait { name } => plan.publishes(name),
        _ => &[],
    }
}

/// The ranks for which the rank of an event waits, which is its next and of the plan.
fn ranks_before(alloc: Global, core: &Core<'_>, event: Event) -> Result<Vec<u32>, AllocError>
    requires next { event_of event ≡ next_event (state_of core.now) event.proc.number }
    requires there { event.at < event_count (plan_in core.now) event.proc.number }
    ensures { IfOk result (λ ranks. AreWaitedBy (plan_in core.now) (state_of core.now) event.proc.number ranks.items) }
{
    let plan = core.plan();
    let sources = plan.sources(event);
    let mut ranks = Vec::new(alloc);
    push_one_undone(&mut ranks, core, sources.awaited)?;
    push_all_undone(&mut ranks, core, sources.arrivals)?;
    push_all_undone(&mut ranks, core, publishes_for(plan, plan.kind(event)))?;
    Ok(ranks)
}

/// The ranks for which a rank waits.
fn ranks_awaited(alloc: Global, core: &Core<'_>, proc: Proc) -> Result<Vec<u32>, AllocError>
    ensures { IfOk result (λ ranks. AreWaitedBy (plan_in core.now) (state_of core.now) proc.number ranks.items) }
{
    let at = core.next_event(proc).at;
    let event = Event { proc, at };
    if event.at < core.plan().event_count(proc) {
        ranks_before(alloc, core, event)
    } else {
        Ok(Vec::new(alloc))
    }
}

/// For each rank those for whom it waits.
pub(crate) fn waits_of(alloc: Global, core: &Core<'_>) -> Result<Vec<Vec<u32>>, AllocError>
    ensures waits { IfOk result (λ waits. AreWaits (plan_in core.now) (state_of core.now) waits.items) }
    ensures few { IfOk result (λ waits. length waits.items < 2 ^ 32) }
{
    let mut waits = Vec::new(alloc);
    for number in 0..core.plan().process_count() {
        waits.push(ranks_awaited(alloc, core, Proc::new(number))?)?;
    }
    Ok(waits)
}
