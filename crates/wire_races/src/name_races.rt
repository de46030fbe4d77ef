//! Races on names.

ghost use Rattle.std.specs.Prelude.{◌≡◌, ◌<◌, ◌≤◌, ◌↔◌, ℕ, Some, true, false, IsTrue, IfOk, OnOk, length, map, take};
ghost use Rattle.std.specs.Prelude.{slice_get};
ghost use Rattle.wire_runs.specs.Plan.{event_of, kind, event_count};
ghost use Rattle.wire_runs.specs.Plan as runs;
ghost use Rattle.wire_scripts.specs.Planned.{plan_of};
ghost use Rattle.wire_runs.specs.Names.{calls_name, writes_name};
ghost use Rattle.wire_runs.specs.Order.{Live};
ghost use Rattle.wire_runs.specs.Findings.{NameRace};
ghost use Rattle.wire_plan.specs.Index.{is_plain_call, AreNameCalls};
ghost use Rattle.wire_findings.specs.Findings.{shown};
ghost use Rattle.wire_races.specs.FindingKinds.{IsOfName, AllAdded};
ghost use Rattle.wire_findings.specs.Collected.{AreFound};
ghost use Rattle.wire_races.specs.Adding.{AddsFindings};
ghost use Rattle.wire_races.specs.Pieces.{IsPiece, ArePieces};
ghost use Rattle.wire_races.specs.NameRaces.{IsRaceOn, IsPlainRaceOn, IsRaceFrom, IsNameRaceWith, AllRace, race_between};
ghost use Rattle.wire_races.specs.NameRaces.{AreCallsOn, AreOf, AreRising};
ghost use Rattle.wire_races.specs.NameRaces.{IsStretch, AreRivals, AreHigher, HasRivals, AreWriters, IsAbove, IsBelow};
ghost use Rattle.wire_races.specs.NameRaces.{AreThoseUnordered};
ghost use Rattle.wire_fates.specs.Cuts.{IsCut};
ghost use Rattle.wire_races.specs.NameRaces.{AreFacing, IsOneOf, AreSweepers, IsSweptRace, IsSweptRaceOn};
ghost use Rattle.wire_scripts.specs.Scripts.{numbers_of};

use crate::call_races::{NameCall, add_races, find_unordered};
use crate::search_pieces::add_pieces;
use crate::sweep_races::{add_sweep_races, is_publisher, sweepers_of};
use rayon::prelude::*;
use std::alloc::{AllocError, Global};
use std::thread::Threads;
use wire_findings::FindingsBuilder;
use wire_happens_before::MarkedPlan;
use wire_plan::{Kind, Plan};
use wire_types::{Event, Proc};

/// Whether an event can change what stands under a name.
pub(crate) fn is_write(plan: &Plan, x: NameCall) -> bool
    requires { x.event.at < event_count (plan_of plan.now) x.event.proc.number }
    ensures { result ≡ writes_name (plan_of plan.now) x.name (event_of x.event) (kind (plan_of plan.now) (event_of x.event)) }
{
    match plan.kind(x.event) {
        Kind::Publish { name } => name == x.name,
        Kind::Unpublish { name } => name == x.name,
        Kind::UnpublishAll => is_publisher(plan, x.event.proc, x.name),
        _ => false,
    }
}

/// Adds the races of a live call with calls of another process. The one publish of a name and a
/// lookup that waits for it are in order where both are live, so the one isn't among those that no chain
/// orders with the other.
fn add_between(
    marked: &MarkedPlan<'_>,
    found: &mut FindingsBuilder,
    x: NameCall,
    run: &[Event],
) -> Result<(), AllocError>
    requires found { AreFound (plan_of marked.now) found.old }
    requires x { calls_name (plan_of marked.now) x.name (event_of x.event) (kind (plan_of marked.now) (event_of x.event)) ≡ true }
    requires live { Live (plan_of marked.now) (event_of x.event) }
    requires rivals { AreRivals (plan_of marked.now) x.name (event_of x.event) (map event_of run.now) }
    requires run { IsStretch (map event_of run.now) }
    ensures { OnOk result (AddsFindings (plan_of marked.now) found.old found.new (IsNameRaceWith (plan_of marked.now) x.name (event_of x.event) (map event_of run.now))) }
{
    let those = find_unordered(marked, x.event, run);
    add_races(marked.plan(), found, x, those)
}

/// How many of these calls in process order are of processes up to this one, by bisection.
fn count_upto(calls: &[Event], proc: Proc) -> usize
    ensures within { result ≤ length calls.now }
    ensures cut { (plan : runs.Plan) (name : ℕ) → AreCallsOn plan name (map event_of calls.now) →
        IsCut (λ z. z.proc ≤ proc.number) (map event_of calls.now) result }
{
    calls.partition_point(|call| call.proc.number <= proc.number)
}

/// How many of the first of these calls in process order are of this process, which is that of the first one.
fn stretch_length(calls: &[Event], proc: Proc) -> usize
    ensures within { result ≤ length calls.now }
    ensures stretch { (plan : runs.Plan) (name : ℕ) (x : Event) → AreCallsOn plan name (map event_of calls.now) → slice_get calls.now 0 ≡ Some x →
        x.proc ≡ proc → AreOf proc.number (map event_of (take result calls.now)) }
    ensures more { (plan : runs.Plan) (name : ℕ) (x : Event) → AreCallsOn plan name (map event_of calls.now) →
        slice_get calls.now 0 ≡ Some x → x.proc ≡ proc → 0 < result }
{
    count_upto(calls, proc)
}

/// Adds the races of a live call with higher calls, which are cut into stretches of one process each.
fn add_rivals(
    marked: &MarkedPlan<'_>,
    found: &mut FindingsBuilder,
    x: NameCall,
    rivals: &[Event],
) -> Result<(), AllocError>
    requires found { AreFound (plan_of marked.now) found.old }
    requires x { calls_name (plan_of marked.now) x.name (event_of x.event) (kind (plan_of marked.now) (event_of x.event)) ≡ true }
    requires live { Live (plan_of marked.now) (event_of x.event) }
    requires rivals { AreRivals (plan_of marked.now) x.name (event_of x.event) (map event_of rivals.now) }
    ensures { OnOk result (AddsFindings (plan_of marked.now) found.old found.new
        (IsNameRaceWith (plan_of marked.now) x.name (event_of x.event) (map event_of rivals.now))) }
{
    let mut rest = rivals;
    'stretches: while let Some(first) = rest.first() {
        let (stretch, others) = rest.split_at(stretch_length(rest, first.proc));
        add_between(marked, found, x, stretch)?;
        rest = others;
    }
    Ok(())
}

/// Adds the races of a call with all higher ones.
fn add_call(
    marked: &MarkedPlan<'_>,
    found: &mut FindingsBuilder,
    x: NameCall,
    rivals: &[Event],
) -> Result<(), AllocError>
    requires found { AreFound (plan_of marked.now) found.old }
    requires x { calls_name (plan_of marked.now) x.name (event_of x.event) (kind (plan_of marked.now) (event_of x.event)) ≡ true }
    requires rivals { AreRivals (plan_of marked.now) x.name (event_of x.event) (map event_of rivals.now) }
    requires higher { AreHigher (plan_of marked.now) x.name (event_of x.event) (map event_of rivals.now) }
    requires all { HasRivals (plan_of marked.now) x.name (event_of x.event) (map event_of rivals.now) }
    ensures { OnOk result (AddsFindings (plan_of marked.now) found.old found.new (IsRaceFrom (plan_of marked.now) x.name (event_of x.event))) }
{
    if marked.live(x.event) {
        add_rivals(marked, found, x, rivals)
    } else {
        Ok(())
    }
}

/// The calls of processes above this one.
fn calls_above(calls: &[Event], proc: Proc) -> &[Event]
    ensures { (plan : runs.Plan) (name : ℕ) → AreCallsOn plan name (map event_of calls.now) →
        IsAbove proc.number (map event_of calls.now) (map event_of result.now) }
{
    calls.split_at(count_upto(calls, proc)).1
}

/// The calls with which a call on a name may race as the lower one: those of higher processes, and if it
/// can't change the name, only such as can.
fn rivals_of<'a>(plan: &Plan, x: NameCall, calls: &'a [Event], writers: &'a [Event]) -> &'a [Event]
    requires x { is_plain_call x.name (kind (plan_of plan.now) (event_of x.event)) ≡ true }
    requires calls { AreNameCalls (plan_of plan.now) x.name (map event_of calls.now) }
    requires writers { AreWriters (plan_of plan.now) x.name (map event_of writers.now) }
    ensures rivals { AreRivals (plan_of plan.now) x.name (event_of x.event) (map event_of result.now) }
    ensures higher { AreHigher (plan_of plan.now) x.name (event_of x.event) (map event_of result.now) }
    ensures all { HasRivals (plan_of plan.now) x.name (event_of x.event) (map event_of result.now) }
{
    if is_write(plan, x) {
        calls_above(calls, x.event.proc)
    } else {
        calls_above(writers, x.event.proc)
    }
}

/// The calls on a name alone that can change it.
fn writers_of(alloc: Global, plan: &Plan, name: u32) -> Result<Vec<Event>, AllocError>
    ensures { IfOk result (λ writers. AreWriters (plan_of plan.now) name (map event_of writers.items)) }
{
    let calls = plan.name_calls(name);
    let mut writers = Vec::new(alloc);
    for event in calls {
        let event = *event;
        if is_write(plan, NameCall { name, event }) {
            writers.push(event)?;
        }
    }
    Ok(writers)
}

/// Adds the races between calls on a name alone, from the lower call of each.
fn add_races_on(
    marked: &MarkedPlan<'_>,
    found: &mut FindingsBuilder,
    name: u32,
    writers: &[Event],
) -> Result<(), AllocError>
    requires found { AreFound (plan_of marked.now) found.old }
    requires writers { AreWriters (plan_of marked.now) name (map event_of writers.now) }
    ensures { OnOk result (AddsFindings (plan_of marked.now) found.old found.new (IsPlainRaceOn (plan_of marked.now) name)) }
{
    let plan = marked.plan();
    let calls = plan.name_calls(name);
    for event in calls {
        let x = NameCall {
            name,
            event: *event,
        };
        add_call(marked, found, x, rivals_of(plan, x, calls, writers))?;
    }
    Ok(())
}

/// The calls of a process that take away all its names, none where it is that of the other call.
fn find_facing<'a>(plan: &'a Plan, x: Event, proc: Proc) -> &'a [Event]
    ensures { AreFacing (plan_of plan.now) (event_of x) proc.number (map event_of result.now) }
{
    if x.proc.number != proc.number {
        plan.sweeps(proc)
    } else {
        &[]
    }
}

/// Adds the races of a call on one name with those calls of these processes that take away all their names.
fn add_swept(
    marked: &MarkedPlan<'_>,
    found: &mut FindingsBuilder,
    x: NameCall,
    procs: &[Proc],
) -> Result<(), AllocError>
    requires found { AreFound (plan_of marked.now) found.old }
    requires x { calls_name (plan_of marked.now) x.name (event_of x.event) (kind (plan_of marked.now) (event_of x.event)) ≡ true }
    requires procs { AreSweepers (plan_of marked.now) x.name (numbers_of procs.now) }
    ensures { OnOk result (AddsFindings (plan_of marked.now) found.old found.new (IsSweptRace (plan_of marked.now) x.name (event_of x.event) (numbers_of procs.now))) }
{
    if !marked.live(x.event) {
        return Ok(());
    }
    let plan = marked.plan();
    for proc in procs {
        add_between(marked, found, x, find_facing(plan, x.event, *proc))?;
    }
    Ok(())
}

/// Adds the races on a name of the calls on it alone with those calls of these processes that take away all their
/// names.
fn add_races_swept(
    marked: &MarkedPlan<'_>,
    found: &mut FindingsBuilder,
    name: u32,
    procs: &[Proc],
) -> Result<(), AllocError>
    requires found { AreFound (plan_of marked.now) found.old }
    requires procs { AreSweepers (plan_of marked.now) name (numbers_of procs.now) }
    ensures { OnOk result (AddsFindings (plan_of marked.now) found.old found.new (IsSweptRaceOn (plan_of marked.now) name)) }
{
    let calls = marked.plan().name_calls(name);
    for event in calls {
        let x = NameCall {
            name,
            event: *event,
        };
        add_swept(marked, found, x, procs)?;
    }
    Ok(())
}

/// The races on a name in which one call at least is on this name alone: a piece of the search.
fn make_piece(
    alloc: Global,
    marked: &MarkedPlan<'_>,
    name: u32,
) -> Result<FindingsBuilder, AllocError>
    ensures { IfOk result (IsPiece (plan_of marked.now) (IsRaceOn (plan_of marked.now) name)) }
{
    let mut found = FindingsBuilder::new(alloc);
    let writers = writers_of(alloc, marked.plan(), name)?;
    add_races_on(marked, &mut found, name, writers.as_slice())?;
    let procs = sweepers_of(alloc, marked.plan(), name)?;
    add_races_swept(marked, &mut found, name, procs.as_slice())?;
    Ok(found)
}

/// A piece for each name, in their order, made by several threads. Most names have few calls, so
/// that fewer than sixteen of them aren't worth a thread of their own.
fn make_pieces(
    rt: &(impl Threads + Sync),
    alloc: Global,
    marked: &MarkedPlan<'_>,
) -> Result<Vec<FindingsBuilder>, AllocError>
    ensures { IfOk result (λ pieces. ArePieces (plan_of marked.now) (length marked.now.names) (IsRaceOn (plan_of marked.now)) pieces.items) }
{
    let plan = marked.plan();
    (0..plan.scripts().names().len())
        .into_par_iter()
        .with_min_len(16)
        .map(
            |name: u32| -> Result<FindingsBuilder, AllocError>
                ensures { IfOk result (IsPiece (plan_of marked.entry.now) (IsRaceOn (plan_of marked.entry.now) name)) }
            { make_piece(alloc, marked, name) },
        )
        .collect::<Result<Vec<_>, AllocError>>(rt, alloc)?
}

/// Adds the races on names: for each name the pairs of live calls of different processes on it, one
/// of which can change it, that no chain orders (PMIx Standard 5.0, PMIx_Publish,
/// PMIx_Lookup, PMIx_Unpublish). The only error is that memory ran out.
///
/// Each call on a name is compared with those of higher processes, which are cut into stretches of one
/// process each. Those of a stretch that race with a call stand between two borders, which are found by
/// bisection. So the races on a name are found in their order. The calls of a process that take away all its
/// names are such a stretch too, on each name that the process publishes; no list has them name by name.
/// With one another they are compared once, and not once for each name.
pub(crate) fn add_name_races(
    rt: &(impl Threads + Sync),
    alloc: Global,
    marked: &MarkedPlan<'_>,
    found: &mut FindingsBuilder,
) -> Result<(), AllocError>
    requires found { AreFound (plan_of marked.now) found.old }
    ensures found { OnOk result (AreFound (plan_of marked.now) found.new) }
    ensures all { OnOk result (AllAdded (plan_of marked.now) IsOfName found.old found.new) }
{
    // Scripts are sound, so each call on a name is on one of theirs.
    let _ = marked.plan().scripts();
    let pieces = make_pieces(rt, alloc, marked)?;
    add_pieces(found, pieces)?;
    add_sweep_races(alloc, marked, found)
}
