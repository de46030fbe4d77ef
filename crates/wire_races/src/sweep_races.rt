//! Races between sweeps, the calls that take away all names of their processes.

ghost use Rattle.std.specs.Prelude.{◌≡◌, ◌≤◌, ◌<◌, ◌↔◌, ℕ, Some, true, false, IsTrue, IfOk, OnOk, length, take};
ghost use Rattle.std.specs.Prelude.{slice_get, map};
ghost use Rattle.std.specs.List.{Contains};
ghost use Rattle.std.specs.List.Sorted.{IsStrictlyIncreasing, IsNonDecreasingBy};
ghost use Rattle.wire_runs.specs.Plan.{event_of, kind, event_count};
ghost use Rattle.wire_runs.specs.Plan as runs;
ghost use Rattle.wire_runs.specs.Names.{is_publish};
ghost use Rattle.wire_runs.specs.Names as runs_names;
ghost use Rattle.wire_scripts.specs.Planned.{plan_of};
ghost use Rattle.wire_scripts.specs.Scripts.{numbers_of};
ghost use Rattle.wire_findings.specs.Collected.{AreFound};
ghost use Rattle.wire_races.specs.Adding.{AddsFindings};
ghost use Rattle.wire_races.specs.NameRaces.{AllRace, IsOneOf, AreSweepers};
ghost use Rattle.wire_races.specs.SweepRaces.{IsSweepRace, IsSweepRaceOf, ArePublished, AddsShares, AreShares};
ghost use Rattle.wire_races.specs.SweepRaces.{AreShared, AreSharesOf};
ghost use Rattle.wire_races.specs.SweepRaces.{IsRaceOnOne, IsSweepRaceWith, IsSharedRace};

use crate::call_races::{NameCall, add_races, find_unordered};
use std::alloc::{AllocError, Global};
use wire_findings::FindingsBuilder;
use wire_happens_before::MarkedPlan;
use wire_plan::{Kind, Plan};
use wire_types::{Event, Proc};

// A name that two processes publish: the higher one, which can take away all its names, and the name.
#[derive(Clone, Copy)]
struct Share {
    proc: Proc,
    name: u32,
}

/// Whether this process is the last of these.
fn is_last(procs: &[Proc], proc: Proc) -> bool
    ensures { IsTrue result → IsOneOf proc.number (numbers_of procs.now) }
{
    match procs.last() {
        Some(last) => last.number == proc.number,
        None => false,
    }
}

/// Whether a process can take away all its names, and isn't the last of these.
fn is_new(plan: &Plan, procs: &[Proc], proc: Proc) -> bool
    ensures { result ≡ false → (z : runs.Event) → z.proc ≡ proc.number → kind (plan_of plan.now) z ≡ Some runs.UnpublishAll →
        IsOneOf proc.number (numbers_of procs.now) }
{
    if plan.sweeps(proc).is_empty() {
        return false;
    }
    !is_last(procs, proc)
}

/// The processes that publish a name and can take away all their names.
pub(crate) fn sweepers_of(alloc: Global, plan: &Plan, name: u32) -> Result<Vec<Proc>, AllocError>
    ensures { IfOk result (λ procs. AreSweepers (plan_of plan.now) name (numbers_of procs.items)) }
{
    let publishes = plan.publishes(name);
    let mut procs = Vec::new(alloc);
    for publish in publishes {
        if is_new(plan, procs.as_slice(), publish.proc) {
            procs.push(publish.proc)?;
        }
    }
    Ok(procs)
}

/// Whether a process publishes a name.
pub(crate) fn is_publisher(plan: &Plan, proc: Proc, name: u32) -> bool
    ensures { result ≡ runs_names.publishes (plan_of plan.now) proc.number name (event_count (plan_of plan.now) proc.number) }
{
    let publishes = plan.publishes(name);
    for publish in publishes {
        if publish.proc.number == proc.number {
            return true;
        }
    }
    false
}

/// The name that an event of the plan publishes, if it is a publish.
fn name_published(plan: &Plan, event: Event) -> Option<u32>
    requires { event.at < event_count (plan_of plan.now) event.proc.number }
    ensures { (name : ℕ) → (is_publish name (kind (plan_of plan.now) (event_of event)) ≡ true) ↔ (result ≡ Some name) }
{
    match plan.kind(event) {
        Kind::Publish { name } => Some(name),
        _ => None,
    }
}

/// The names that a process publishes, each once.
pub(crate) fn names_of(alloc: Global, plan: &Plan, proc: Proc) -> Result<Vec<u32>, AllocError>
    ensures those { IfOk result (λ names. ArePublished (plan_of plan.now) proc.number names.items) }
    ensures once { IfOk result (λ names. IsStrictlyIncreasing names.items) }
{
    let mut names = Vec::new(alloc);
    for at in 0..plan.event_count(proc) {
        if let Some(name) = name_published(plan, Event { proc, at }) {
            names.push(name)?;
        }
    }
    names.sort_unstable();
    names.dedup();
    Ok(names)
}

/// Adds the shares in a name of those of these processes that are higher than this one.
fn add_shares(
    shares: &mut Vec<Share>,
    proc: Proc,
    name: u32,
    procs: &[Proc],
) -> Result<(), AllocError>
    ensures { OnOk result (AddsShares proc.number name (numbers_of procs.now) shares.old.items shares.new.items) }
{
    for higher in procs {
        let higher = *higher;
        if higher.number > proc.number {
            shares.push(Share { proc: higher, name })?;
        }
    }
    Ok(())
}

/// What a process shares of these names with higher ones that can take away all their names. The shares of each
/// process stand side by side.
fn shares_of(
    alloc: Global,
    plan: &Plan,
    proc: Proc,
    names: &[u32],
) -> Result<Vec<Share>, AllocError>
    ensures those { IfOk result (λ shares. AreShares (plan_of plan.now) proc.number names.now shares.items) }
    ensures sorted { IfOk result (λ shares. IsNonDecreasingBy (λ s. s.proc.number) shares.items) }
{
    let mut shares = Vec::new(alloc);
    for name in names {
        let name = *name;
        let procs = sweepers_of(alloc, plan, name)?;
        add_shares(&mut shares, proc, name, procs.as_slice())?;
    }
    shares.sort_unstable_by_key(|share| share.proc.number);
    Ok(shares)
}

/// Adds the races of a call with these on the name of each of these shares.
fn add_on_names(
    plan: &Plan,
    found: &mut FindingsBuilder,
    x: Event,
    those: &[Event],
    shares: &[Share],
) -> Result<(), AllocError>
    requires found { AreFound (plan_of plan.now) found.old }
    requires races { (s : Share) → Contains shares.now s → AllRace (plan_of plan.now) s.name (event_of x) (map event_of those.now) }
    ensures { OnOk result (AddsFindings (plan_of plan.now) found.old found.new (IsRaceOnOne (plan_of plan.now) (event_of x) (map event_of those.now) shares.now)) }
{
    for share in shares {
        let x = NameCall {
            name: share.name,
            event: x,
        };
        add_races(plan, found, x, those)?;
    }
    Ok(())
}

/// Adds the races of a sweep with those of a higher process, on the names that both publish. Which of those race
/// with it depends on no name, so that names are looked at only where there are such.
fn add_sweep(
    marked: &MarkedPlan<'_>,
    found: &mut FindingsBuilder,
    x: Event,
    higher: Proc,
    shares: &[Share],
) -> Result<(), AllocError>
    requires found { AreFound (plan_of marked.now) found.old }
    requires sweeps { kind (plan_of marked.now) (event_of x) ≡ Some runs.UnpublishAll }
    requires shared { AreShared (plan_of marked.now) x.proc.number shares.now }
    requires of_it { AreSharesOf higher.number shares.now }
    ensures { OnOk result (AddsFindings (plan_of marked.now) found.old found.new (IsSweepRaceWith (plan_of marked.now) (event_of x) shares.now)) }
{
    if !marked.live(x) {
        return Ok(());
    }
    let plan = marked.plan();
    let those = find_unordered(marked, x, plan.sweeps(higher));
    if those.is_empty() {
        return Ok(());
    }
    add_on_names(plan, found, x, those, shares)
}

/// Adds the races of the sweeps of one process with those of a higher one, on the names that both publish.
fn add_stretch(
    marked: &MarkedPlan<'_>,
    found: &mut FindingsBuilder,
    lower: Proc,
    higher: Proc,
    shares: &[Share],
) -> Result<(), AllocError>
    requires found { AreFound (plan_of marked.now) found.old }
    requires shared { AreShared (plan_of marked.now) lower.number shares.now }
    requires of_it { AreSharesOf higher.number shares.now }
    ensures { OnOk result (AddsFindings (plan_of marked.now) found.old found.new (IsSharedRace (plan_of marked.now) lower.number shares.now)) }
{
    let sweeps = marked.plan().sweeps(lower);
    for x in sweeps {
        add_sweep(marked, found, *x, higher, shares)?;
    }
    Ok(())
}

/// How many of the first of these shares are of this process.
fn stretch_size(shares: &[Share], proc: Proc) -> usize
    ensures within { result ≤ length shares.now }
    ensures stretch { AreSharesOf proc.number (take result shares.now) }
    ensures more { (s : Share) → slice_get shares.now 0 ≡ Some s → s.proc ≡ proc → 0 < result }
{
    for place in 0..shares.len() {
        if shares[place].proc.number != proc.number {
            return place;
        }
    }
    shares.len()
}

/// Adds the races of the sweeps of a process with those of higher ones, on the names that it shares with them. The
/// shares are cut into stretches of one process each.
fn add_shared(
    marked: &MarkedPlan<'_>,
    found: &mut FindingsBuilder,
    proc: Proc,
    shares: &[Share],
) -> Result<(), AllocError>
    requires found { AreFound (plan_of marked.now) found.old }
    requires shared { AreShared (plan_of marked.now) proc.number shares.now }
    ensures { OnOk result (AddsFindings (plan_of marked.now) found.old found.new (IsSharedRace (plan_of marked.now) proc.number shares.now)) }
{
    let mut rest = shares;
    'stretches: while let Some(first) = rest.first() {
        let (stretch, others) = rest.split_at(stretch_size(rest, first.proc));
        add_stretch(marked, found, proc, first.proc, stretch)?;
        rest = others;
    }
    Ok(())
}

/// Adds the races of the sweeps of a process with those of higher ones.
fn add_process(
    alloc: Global,
    marked: &MarkedPlan<'_>,
    found: &mut FindingsBuilder,
    proc: Proc,
) -> Result<(), AllocError>
    requires { AreFound (plan_of marked.now) found.old }
    ensures { OnOk result (AddsFindings (plan_of marked.now) found.old found.new (IsSweepRaceOf (plan_of marked.now) proc.number)) }
{
    let plan = marked.plan();
    if plan.sweeps(proc).is_empty() {
        return Ok(());
    }
    let names = names_of(alloc, plan, proc)?;
    let shares = shares_of(alloc, plan, proc, names.as_slice())?;
    add_shared(marked, found, proc, shares.as_slice())
}

/// Adds the races between sweeps. The one error is that memory ran out.
///
/// The sweeps of two processes race on each name that both publish, where no chain orders them. So each is compared
/// once with those of a higher process, by bisection, whatever number of names the two share.
pub(crate) fn add_sweep_races(
    alloc: Global,
    marked: &MarkedPlan<'_>,
    found: &mut FindingsBuilder,
) -> Result<(), AllocError>
    requires { AreFound (plan_of marked.now) found.old }
    ensures { OnOk result (AddsFindings (plan_of marked.now) found.old found.new (IsSweepRace (plan_of marked.now))) }
{
    for number in 0..marked.plan().process_count() {
        add_process(alloc, marked, found, Proc { number })?;
    }
    Ok(())
}
