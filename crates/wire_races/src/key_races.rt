//! Races on keys: a get that is answered at once, and the commit or the fence that brings the key.

ghost use Rattle.std.specs.Prelude.{◌≡◌, ◌<◌, ◌≤◌, ◌*◌, ◌/◌, ℕ, Some, OnOk, IsTrue, IfOk, ◌↔◌, true, false};
ghost use Rattle.wire_runs.specs.Plan.{GetNow, event_of, process_count, event_count, event_total, kind, node_of};
ghost use Rattle.wire_runs.specs.Plan.{same_node};
ghost use Rattle.wire_scripts.specs.Planned.{plan_of};
ghost use Rattle.wire_runs.specs.EventLists.{IsLower};
ghost use Rattle.wire_runs.specs.Races.{IsUnordered};
ghost use Rattle.wire_runs.specs.Findings.{IsKeyRace};
ghost use Rattle.wire_plan.specs.Index.{IsDelivering};
ghost use Rattle.wire_findings.specs.Findings.{shown};
ghost use Rattle.wire_findings.specs.Collected.{AreFound};
ghost use Rattle.wire_fates.specs.Deliveries.{MayBeLate};
ghost use Rattle.wire_races.specs.FindingKinds.{IsOfKey, AllAdded};
ghost use Rattle.wire_races.specs.Adding.{AddsFindings, ToldIn, ToldBetween};
ghost use Rattle.wire_races.specs.Pieces.{IsPiece};
ghost use Rattle.wire_races.specs.KeyRaces.{IsRaceOf, IsKeyRaceBy, IsOpenRead, IsLateBy, AreLateBelow};
ghost use Rattle.wire_races.specs.KeyRaces.{IsUnsure, HasPieces, IsKeyRaceIn, AreKeyPieces};

use crate::get_races::add_get_races;
use crate::search_pieces::add_pieces;
use rayon::prelude::*;
use std::alloc::{AllocError, Global};
use std::thread::Threads;
use wire_fates::{KeyRead, comes_surely, late_source, may_be_late, next_arrival};
use wire_findings::{Finding, FindingsBuilder};
use wire_happens_before::MarkedPlan;
use wire_plan::{Kind, Plan};
use wire_types::{Event, Proc};

/// Whether an event stands before another in process order, or earlier in the same process.
pub fn is_lower(x: Event, y: Event) -> bool
    ensures { IsTrue result ↔ IsLower (event_of x) (event_of y) }
{
    x.proc.number < y.proc.number || (x.proc.number == y.proc.number && x.at < y.at)
}

/// Whether two events are live and neither is before the other.
pub fn are_unordered(marked: &MarkedPlan<'_>, x: Event, y: Event) -> bool
    ensures { IsTrue result ↔ IsUnordered (plan_of marked.now) (event_of x) (event_of y) }
{
    marked.live(x) && marked.live(y) && !marked.before(x, y) && !marked.before(y, x)
}

/// The race of a get with an event, the lower call first.
fn race_of(plan: &Plan, source: Event, asked: KeyRead) -> Finding
    requires { IsKeyRace (plan_of plan.now) (event_of source) (event_of asked.get_now) asked.owner.number asked.key }
    ensures { IsRaceOf (event_of source) (event_of asked.get_now) asked.owner.number asked.key (shown (plan_of plan.now) result) }
{
    let first = plan.call_of(source);
    let second = plan.call_of(asked.get_now);
    if is_lower(source, asked.get_now) {
        Finding::KeyRace(first, second, asked.owner, asked.key)
    } else {
        Finding::KeyRace(second, first, asked.owner, asked.key)
    }
}

/// Adds the race of a get with an event.
pub(crate) fn add_race(
    plan: &Plan,
    found: &mut FindingsBuilder,
    source: Event,
    asked: KeyRead,
) -> Result<(), AllocError>
    requires race { IsKeyRace (plan_of plan.now) (event_of source) (event_of asked.get_now) asked.owner.number asked.key }
    requires found { AreFound (plan_of plan.now) found.old }
    ensures { OnOk result (AddsFindings (plan_of plan.now) found.old found.new (IsRaceOf (event_of source) (event_of asked.get_now) asked.owner.number asked.key)) }
{
    found.add(race_of(plan, source, asked))
}

/// Adds the race of a get with the commit that stores its key on the same node, if they race.
fn add_node_race(
    marked: &MarkedPlan<'_>,
    found: &mut FindingsBuilder,
    asked: KeyRead,
) -> Result<(), AllocError>
    requires found { AreFound (plan_of marked.now) found.old }
    requires get { IsOpenRead (plan_of marked.now) (event_of asked.get_now) asked.owner.number asked.key }
    requires node { same_node (plan_of marked.now) asked.owner.number asked.get_now.proc.number ≡ true }
    ensures { OnOk result (AddsFindings (plan_of marked.now) found.old found.new (IsKeyRaceBy (plan_of marked.now) (event_of asked.get_now))) }
{
    let plan = marked.plan();
    let Some(commit) = plan.store_of(asked.owner, asked.key) else {
        return Ok(());
    };
    if are_unordered(marked, commit, asked.get_now) {
        add_race(plan, found, commit, asked)
    } else {
        Ok(())
    }
}

/// Adds the race of a get with the delivery of an arrival, if they race.
fn add_late(
    marked: &MarkedPlan<'_>,
    found: &mut FindingsBuilder,
    asked: KeyRead,
    arrival: Event,
) -> Result<(), AllocError>
    requires found { AreFound (plan_of marked.now) found.old }
    requires late { IsUnsure (plan_of marked.now) (event_of asked.get_now) asked.owner.number asked.key }
    requires may { MayBeLate (plan_of marked.now) (event_of asked.get_now) (event_of arrival) }
    requires proc { arrival.proc ≡ asked.owner }
    requires delivers { let plan = plan_of marked.now in IsDelivering plan asked.owner.number asked.key (node_of plan asked.get_now.proc.number) arrival.at }
    ensures { let plan = plan_of marked.now in OnOk result (AddsFindings plan found.old found.new
        (IsLateBy plan (event_of asked.get_now) asked.owner.number asked.key (node_of plan asked.get_now.proc.number) arrival.at)) }
{
    match late_source(marked, asked.get_now, arrival) {
        Some(source) => add_race(marked.plan(), found, source, asked),
        None => Ok(()),
    }
}

/// Adds the races of a get with the deliveries of its key by fences, none of which comes surely before it. Where
/// one can't come late, since the get is before an arrival at its fence or one of these isn't live, no
/// later one can.
fn add_all_late(
    marked: &MarkedPlan<'_>,
    found: &mut FindingsBuilder,
    asked: KeyRead,
    node: u32,
) -> Result<(), AllocError>
    requires found { AreFound (plan_of marked.now) found.old }
    requires late { IsUnsure (plan_of marked.now) (event_of asked.get_now) asked.owner.number asked.key }
    requires node { node ≡ node_of (plan_of marked.now) asked.get_now.proc.number }
    ensures { OnOk result (AddsFindings (plan_of marked.now) found.old found.new
        (AreLateBelow (plan_of marked.now) (event_of asked.get_now) asked.owner.number asked.key (node_of (plan_of marked.now) asked.get_now.proc.number)
        (event_count (plan_of marked.now) asked.owner.number))) }
{
    let plan = marked.plan();
    let count = plan.event_count(asked.owner);
    let mut from = 0;
    'deliveries: while from < count {
        let Some(arrival) = next_arrival(plan, asked.owner, asked.key, node, from) else {
            return Ok(());
        };
        if !may_be_late(marked, asked.get_now, arrival) {
            return Ok(());
        }
        add_late(marked, found, asked, arrival)?;
        from = arrival.at + 1;
    }
    Ok(())
}

/// Adds the races of a get with the deliveries of its key from another node.
fn add_delivery_races(
    marked: &MarkedPlan<'_>,
    found: &mut FindingsBuilder,
    asked: KeyRead,
) -> Result<(), AllocError>
    requires found { AreFound (plan_of marked.now) found.old }
    requires get { IsOpenRead (plan_of marked.now) (event_of asked.get_now) asked.owner.number asked.key }
    requires node { same_node (plan_of marked.now) asked.owner.number asked.get_now.proc.number ≡ false }
    ensures { OnOk result (AddsFindings (plan_of marked.now) found.old found.new (IsKeyRaceBy (plan_of marked.now) (event_of asked.get_now))) }
{
    let node = marked.plan().node_of(asked.get_now.proc);
    if comes_surely(marked, asked, node) {
        return Ok(());
    }
    add_all_late(marked, found, asked, node)?;
    add_get_races(marked, found, asked, node)
}

/// Whether a get that is answered at once is live, and of a key that another process puts once.
pub fn is_open(marked: &MarkedPlan<'_>, asked: KeyRead) -> bool
    requires get { kind (plan_of marked.now) (event_of asked.get_now) ≡ Some (GetNow asked.owner.number asked.key) }
    ensures { IsTrue result ↔ IsOpenRead (plan_of marked.now) (event_of asked.get_now) asked.owner.number asked.key }
{
    asked.get_now.proc.number != asked.owner.number
        && marked.plan().put_count(asked.owner, asked.key) == 1
        && marked.live(asked.get_now)
}

/// Adds the races of a get that is answered at once.
fn add_get_now(
    marked: &MarkedPlan<'_>,
    found: &mut FindingsBuilder,
    asked: KeyRead,
) -> Result<(), AllocError>
    requires found { AreFound (plan_of marked.now) found.old }
    requires get { kind (plan_of marked.now) (event_of asked.get_now) ≡ Some (GetNow asked.owner.number asked.key) }
    ensures { OnOk result (AddsFindings (plan_of marked.now) found.old found.new (IsKeyRaceBy (plan_of marked.now) (event_of asked.get_now))) }
{
    if !is_open(marked, asked) {
        return Ok(());
    }
    let plan = marked.plan();
    let home = plan.node_of(asked.owner);
    let away = plan.node_of(asked.get_now.proc);
    if home == away {
        add_node_race(marked, found, asked)
    } else {
        add_delivery_races(marked, found, asked)
    }
}

/// Adds the races of an event of the plan, where it is a get that is answered at once.
pub(crate) fn add_event(
    marked: &MarkedPlan<'_>,
    found: &mut FindingsBuilder,
    event: Event,
) -> Result<(), AllocError>
    requires found { AreFound (plan_of marked.now) found.old }
    requires there { event.at < event_count (plan_of marked.now) event.proc.number }
    ensures { OnOk result (AddsFindings (plan_of marked.now) found.old found.new (IsKeyRaceBy (plan_of marked.now) (event_of event))) }
{
    match marked.plan().kind(event) {
        Kind::GetNow { owner, key } => {
            let asked = KeyRead {
                get_now: event,
                owner,
                key,
            };
            add_get_now(marked, found, asked)
        }
        _ => Ok(()),
    }
}

/// Adds the races of the gets of a process.
fn add_process(
    marked: &MarkedPlan<'_>,
    found: &mut FindingsBuilder,
    proc: Proc,
) -> Result<(), AllocError>
    requires found { AreFound (plan_of marked.now) found.old }
    ensures { OnOk result (AddsFindings (plan_of marked.now) found.old found.new
        (ToldIn (IsKeyRaceBy (plan_of marked.now)) proc.number (event_count (plan_of marked.now) proc.number))) }
{
    for at in 0..marked.plan().event_count(proc) {
        add_event(marked, found, Event { proc, at })?;
    }
    Ok(())
}

/// Adds the races of the gets of processes that stand side by side: from one to below the end.
fn add_processes(
    marked: &MarkedPlan<'_>,
    found: &mut FindingsBuilder,
    from: u32,
    end: u32,
) -> Result<(), AllocError>
    requires order { from ≤ end }
    requires found { AreFound (plan_of marked.now) found.old }
    ensures { OnOk result (AddsFindings (plan_of marked.now) found.old found.new (ToldBetween (IsKeyRaceBy (plan_of marked.now)) from end)) }
{
    for number in from..end {
        add_process(marked, found, Proc { number })?;
    }
    Ok(())
}

/// How many processes a piece of the search has at least, so that it is worth a thread: so many as have some 4,096 events
/// on average, or all processes of a plan of less than 65,536 events, which one thread searches in a few milliseconds.
pub fn least_processes(plan: &Plan) -> usize
    ensures small { event_total (plan_of plan.now) < 65536 → result ≡ process_count (plan_of plan.now) }
    ensures large { 65536 ≤ event_total (plan_of plan.now) →
        result ≡ process_count (plan_of plan.now) * 4096 / event_total (plan_of plan.now) }
{
    let count = plan.process_count() as usize;
    let total = plan.event_total();
    if total < 65_536 {
        return count;
    }
    count * 4_096 / total
}

/// How many processes, side by side, a piece of the search has.
fn piece_size(plan: &Plan) -> u32
    ensures { 0 < result }
{
    least_processes(plan).max(1).min(u32::MAX as usize) as u32
}

/// How many pieces of this size there are: one for each process at most.
fn piece_count(plan: &Plan, size: u32) -> u32
    requires { 0 < size }
    ensures enough { HasPieces (plan_of plan.now) size result }
    ensures most { result ≤ process_count (plan_of plan.now) }
{
    match plan.process_count().checked_sub(1) {
        Some(last) => last / size + 1,
        None => 0,
    }
}

/// Of so many processes the first of a piece of this size, and the one behind its last; the last piece may have fewer.
fn processes_of(piece: u32, size: u32, count: u32) -> (u32, u32)
    requires { 0 < size }
    ensures order { result.0 ≤ result.1 }
    ensures within { result.1 ≤ count }
    ensures these { (p : ℕ) → p < count → (((result.0 ≤ p) × (p < result.1)) ↔ (p / size ≡ piece)) }
{
    let from = (piece as u64 * size as u64).min(count as u64);
    let end = (from + size as u64).min(count as u64);
    (from as u32, end as u32)
}

/// The races of the gets of the processes of a piece of this size.
fn make_piece(
    alloc: Global,
    marked: &MarkedPlan<'_>,
    size: u32,
    piece: u32,
) -> Result<FindingsBuilder, AllocError>
    requires { 0 < size }
    ensures { IfOk result (IsPiece (plan_of marked.now) (IsKeyRaceIn (plan_of marked.now) size piece)) }
{
    let (from, end) = processes_of(piece, size, marked.plan().process_count());
    let mut found = FindingsBuilder::new(alloc);
    add_processes(marked, &mut found, from, end)?;
    Ok(found)
}

/// The pieces of the search, in their order, made by several threads. Each has so many processes; the last may have
/// fewer.
fn make_pieces(
    rt: &(impl Threads + Sync),
    alloc: Global,
    marked: &MarkedPlan<'_>,
    size: u32,
) -> Result<Vec<FindingsBuilder>, AllocError>
    requires { 0 < size }
    ensures { IfOk result (λ pieces. AreKeyPieces (plan_of marked.now) pieces.items) }
{
    (0..piece_count(marked.plan(), size))
        .into_par_iter()
        .with_min_len(1)
        .map(
            |number: u32| -> Result<FindingsBuilder, AllocError>
                requires { 0 < size }
                ensures { IfOk result (IsPiece (plan_of marked.entry.now) (IsKeyRaceIn (plan_of marked.entry.now) size number)) }
            { make_piece(alloc, marked, size, number) },
        )
        .collect::<Result<Vec<_>, AllocError>>(rt, alloc)?
}

/// Adds all races on keys: of each get that is answered at once, with the commit that stores the
/// key on its node, or with the fences, and the gets whose values are kept, that bring it to its node (PMIx
/// Standard 5.0, PMIx_Get with PMIX_IMMEDIATE, PMIx_Commit, and PMIx_Fence with PMIX_COLLECT_DATA). The one error is
/// that memory ran out.
pub(crate) fn add_key_races(
    rt: &(impl Threads + Sync),
    alloc: Global,
    marked: &MarkedPlan<'_>,
    found: &mut FindingsBuilder,
) -> Result<(), AllocError>
    requires found { AreFound (plan_of marked.now) found.old }
    ensures found { OnOk result (AreFound (plan_of marked.now) found.new) }
    ensures all { OnOk result (AllAdded (plan_of marked.now) IsOfKey found.old found.new) }
{
    let size = piece_size(marked.plan());
    let pieces = make_pieces(rt, alloc, marked, size)?;
    add_pieces(found, pieces)
}
