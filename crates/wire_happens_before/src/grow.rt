//! Marking: events are marked one after another, each after its sources, until none is ready.

ghost use Rattle.std.specs.Prelude.{◌≡◌, ◌<◌, ◌≤◌, ◌^◌, ℕ, [], IfOk, OnOk, MatchOption, length};
ghost use Rattle.std.specs.Bool.{OnTrue, OnFalse};
ghost use Rattle.wire_runs.specs.Plan.{process_count};
ghost use Rattle.wire_scripts.specs.Planned.{plan_of};
ghost use Rattle.wire_happens_before.specs.Clocks.{items_at, marked_count, AreMarks};
ghost use Rattle.wire_happens_before.specs.Marking.{AreClocks, IsNextBase};
ghost use Rattle.wire_happens_before.specs.Meeting.{plan_in, left_in, IsStuckIn, IsGrowing};

use crate::clocks::Clocks;
use crate::following::mark_followers;
use crate::joins::{Growth, find_ended_fence, meet};
use crate::updates::Updates;
use crate::way::{Way, waits_for};
use std::alloc::{AllocError, Global};
use wire_clocks::ClockTrees;
use wire_plan::Plan;
use wire_types::{Event, Proc};

/// For each process no root, with room for one for each of its events.
fn no_roots(alloc: Global, plan: &Plan) -> Result<Vec<Vec<u32>>, AllocError>
    ensures count { IfOk result (λ v. length v.items ≡ process_count (plan_of plan.now)) }
    ensures none { IfOk result (λ v. (p : ℕ) → items_at v.items p ≡ []) }
{
    let mut roots = Vec::with_capacity(alloc, plan.process_count() as usize)?;
    for number in 0..plan.process_count() {
        let count = plan.event_count(Proc::new(number));
        roots.push(Vec::with_capacity(alloc, count as usize)?)?;
    }
    Ok(roots)
}

/// No event is marked.
fn no_clocks(alloc: Global, plan: &Plan) -> Result<Clocks, AllocError>
    ensures { IfOk result (λ clocks. AreClocks (plan_of plan.now) clocks) }
{
    let roots = no_roots(alloc, plan)?;
    let trees = ClockTrees::new(alloc, plan.process_count())?;
    Ok(Clocks {
        roots,
        trees,
        updates: Updates::empty(alloc),
    })
}

/// The root of a base for the process's next event, if it is ready.
fn next_base(growth: &mut Growth<'_>, proc: Proc) -> Result<Option<u32>, AllocError>
    requires { IsGrowing growth.old }
    ensures growing { OnOk result (IsGrowing growth.new) }
    ensures plan { growth.new.plan.now ≡ growth.old.plan.now }
    ensures same { OnOk result (growth.new.clocks.roots.items ≡ growth.old.clocks.roots.items) }
    ensures next { IfOk result (λ o. MatchOption o (IsStuckIn growth.new proc.number)
        (λ n. IsNextBase (plan_in growth.new) growth.new.clocks proc.number n)) }
{
    let plan = growth.plan;
    let at = growth.clocks.marked(proc);
    if at >= plan.event_count(proc) as usize {
        return Ok(None);
    }
    let event = Event {
        proc,
        at: at as u32,
    };
    if !plan.may_come(event) {
        return Ok(None);
    }
    let sources = plan.sources(event);
    if !growth.clocks.is_source_marked(sources.awaited) {
        return Ok(None);
    }
    let Some(fence) = find_ended_fence(growth, event) else {
        let clocks = &mut growth.clocks;
        let root = clocks.base_after(sources.previous, sources.awaited)?;
        return Ok(Some(root));
    };
    let met = meet(
        &mut growth.clocks,
        &mut growth.meetings,
        fence,
        sources.arrivals,
    )?;
    Ok(met)
}

/// Marks the next event of a process, where it is ready. Whether it was.
fn mark_next(alloc: Global, growth: &mut Growth<'_>, proc: Proc) -> Result<bool, AllocError>
    requires { IsGrowing growth.old }
    ensures growing { OnOk result (IsGrowing growth.new) }
    ensures plan { growth.new.plan.now ≡ growth.old.plan.now }
    ensures falls { IfOk result (λ b. OnTrue b (left_in growth.new < left_in growth.old)) }
    ensures same { IfOk result (λ b. OnFalse b (growth.new.clocks.roots.items ≡ growth.old.clocks.roots.items)) }
    ensures stuck { IfOk result (λ b. OnFalse b (IsStuckIn growth.new proc.number)) }
{
    let Some(root) = next_base(growth, proc)? else {
        return Ok(false);
    };
    let at = growth.clocks.marked(proc) as u32;
    let event = Event { proc, at };
    let plan = growth.plan;
    growth.clocks.mark(alloc, plan, event, root)?;
    Ok(true)
}

/// Marks the events of a process as long as they are ready. Whether any was.
fn mark_run(alloc: Global, growth: &mut Growth<'_>, proc: Proc) -> Result<bool, AllocError>
    requires { IsGrowing growth.old }
    ensures growing { OnOk result (IsGrowing growth.new) }
    ensures plan { growth.new.plan.now ≡ growth.old.plan.now }
    ensures not_more { OnOk result (left_in growth.new ≤ left_in growth.old) }
    ensures falls { IfOk result (λ b. OnTrue b (left_in growth.new < left_in growth.old)) }
    ensures same { IfOk result (λ b. OnFalse b (growth.new.clocks.roots.items ≡ growth.old.clocks.roots.items)) }
    ensures stuck { OnOk result (IsStuckIn growth.new proc.number) }
{
    let mut moved = mark_followers(growth, proc)?;
    'events: while mark_next(alloc, growth, proc)? {
        mark_followers(growth, proc)?;
        moved = true;
    }
    Ok(moved)
}

/// Passes over the processes, each with its run of ready events. Whether any event was marked.
fn mark_once(alloc: Global, growth: &mut Growth<'_>) -> Result<bool, AllocError>
    requires { IsGrowing growth.old }
    ensures growing { OnOk result (IsGrowing growth.new) }
    ensures plan { growth.new.plan.now ≡ growth.old.plan.now }
    ensures not_more { OnOk result (left_in growth.new ≤ left_in growth.old) }
    ensures falls { IfOk result (λ b. OnTrue b (left_in growth.new < left_in growth.old)) }
    ensures stuck { IfOk result (λ b. OnFalse b ((p : ℕ) → p < process_count (plan_in growth.new) → IsStuckIn growth.new p)) }
{
    let mut moved = false;
    for number in 0..growth.plan.process_count() {
        if mark_run(alloc, growth, Proc::new(number))? {
            moved = true;
        }
    }
    Ok(moved)
}

/// Marks what is ready in a process, then in the one that it waits for, and so on, as long as they are new to
/// the way.
fn mark_way_down(
    alloc: Global,
    growth: &mut Growth<'_>,
    way: &mut Way,
    first: Proc,
) -> Result<(), AllocError>
    requires { IsGrowing growth.old }
    ensures growing { OnOk result (IsGrowing growth.new) }
    ensures plan { growth.new.plan.now ≡ growth.old.plan.now }
    ensures not_more { OnOk result (left_in growth.new ≤ left_in growth.old) }
{
    let mut proc = first;
    for _step in 0..growth.plan.process_count() {
        if !way.take(proc)? {
            return Ok(());
        }
        mark_run(alloc, growth, proc)?;
        let Some(next) = waits_for(growth, proc) else {
            return Ok(());
        };
        proc = next;
    }
    Ok(())
}

/// Marks what is ready along a way through all processes, and then in the processes of the way, the last one first.
fn mark_way(alloc: Global, growth: &mut Growth<'_>, way: &mut Way) -> Result<(), AllocError>
    requires { IsGrowing growth.old }
    ensures growing { OnOk result (IsGrowing growth.new) }
    ensures plan { growth.new.plan.now ≡ growth.old.plan.now }
    ensures not_more { OnOk result (left_in growth.new ≤ left_in growth.old) }
{
    for number in 0..growth.plan.process_count() {
        mark_way_down(alloc, growth, way, Proc::new(number))?;
    }
    for k in 0..way.procs.len() {
        let proc = way.procs[way.procs.len() - 1 - k];
        mark_run(alloc, growth, proc)?;
    }
    Ok(())
}

/// Marks what is ready, each process after the one that it waits for, as far as that goes in one round: the
/// passes are then few.
fn mark_along_waits(alloc: Global, growth: &mut Growth<'_>) -> Result<(), AllocError>
    requires { IsGrowing growth.old }
    ensures growing { OnOk result (IsGrowing growth.new) }
    ensures plan { growth.new.plan.now ≡ growth.old.plan.now }
    ensures not_more { OnOk result (left_in growth.new ≤ left_in growth.old) }
{
    let mut way = Way::new(alloc, growth.plan.process_count() as usize)?;
    mark_way(alloc, growth, &mut way)
}

/// Marks what is ready in all processes, until nothing more is ready.
fn mark_ready(alloc: Global, growth: &mut Growth<'_>) -> Result<(), AllocError>
    requires { IsGrowing growth.old }
    ensures growing { OnOk result (IsGrowing growth.new) }
    ensures plan { growth.new.plan.now ≡ growth.old.plan.now }
    ensures stuck { OnOk result ((p : ℕ) → p < process_count (plan_in growth.new) → IsStuckIn growth.new p) }
{
    let mut moved = true;
    'passes: while moved {
        mark_along_waits(alloc, growth)?;
        moved = mark_once(alloc, growth)?;
    }
    Ok(())
}

/// The clocks of all live events of a plan.
pub(crate) fn mark_all(alloc: Global, plan: &Plan) -> Result<Clocks, AllocError>
    ensures marks { IfOk result (λ clocks. AreMarks (plan_of plan.now) clocks) }
    ensures few { IfOk result (λ clocks. (p : ℕ) → marked_count clocks p < 2 ^ 32) }
{
    let mut growth = Growth {
        plan,
        fences: plan.fences(),
        clocks: no_clocks(alloc, plan)?,
        meetings: Vec::new(alloc),
    };
    mark_ready(alloc, &mut growth)?;
    Ok(growth.clocks)
}
