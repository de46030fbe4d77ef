//! Runs in which one of two calls comes first.

ghost use Rattle.std.specs.Prelude.{◌≡◌, ◌<◌, ◌==◌, ◌↔◌, ◌++◌, ℕ, List, length, IfOk, IfSome, IfErr, IsTrue};
ghost use Rattle.std.specs.Prelude.{if◌then◌else◌};
ghost use Rattle.wire_types.specs.declared.Fault.TheVariants.{Memory};
ghost use Rattle.wire_runs.specs.Plan.{event_of, event_count, Event as Spot};
ghost use Rattle.wire_runs.specs.State.{IsDone};
ghost use Rattle.wire_runs.specs.Ends.{calls_of, first_event};
ghost use Rattle.wire_scripts.specs.Planned.{plan_of};
ghost use Rattle.wire_core.specs.Course.{plan_in, state_of};
ghost use Rattle.wire_core.specs.Within.{RunsWithin};
ghost use Rattle.wire_witness.specs.Witness.{ComesFirst};
ghost use Rattle.wire_witness.specs.NotShown.{IsHeldRun, IsNeededRun};
ghost use Rattle.wire_witness.specs.Runs.{AreLimitsBefore, AreLimitsUpTo, GoesOn, HasOnly, HasRunAhead, IsWitnessRun, steps_of};

use std::alloc::{AllocError, Global};
use wire_core::Core;
use wire_happens_before::MarkedPlan;
use wire_plan::Plan;
use wire_types::{CallAt, CallEnd, Event, Fault, Proc};

/// A run that can't go on, in which one of two calls comes first.
pub(crate) struct Run<'a> {
    pub core: Core<'a>,
    /// How the call ends that comes first.
    pub first_end: CallEnd,
    /// How the other call ends.
    pub other_end: CallEnd,
}

// By hand and not derived: so dropping one is a call, and the proof of a function that drops one doesn't take it apart.
impl Drop for Run<'_> {
    fn drop(self) {
        let Run {
            core: _,
            first_end: _,
            other_end: _,
        } = self;
    }
}

/// For each process how many events it may take before the held one.
fn limits_before(alloc: Global, plan: &Plan, held: Event) -> Result<Vec<u32>, AllocError>
    ensures { IfOk result (λ limits. AreLimitsBefore (plan_of plan.now) (event_of held) limits.items) }
{
    let mut limits = Vec::with_capacity(alloc, plan.process_count() as usize)?;
    for number in 0..plan.process_count() {
        limits.push(limit_before(plan, held, number))?;
    }
    Ok(limits)
}

/// How many events a process may take: all that it has, and the process of the held event those before it.
fn limit_before(plan: &Plan, held: Event, number: u32) -> u32
    ensures { result ≡ (if number == held.proc.number then held.at else event_count (plan_of plan.now) number) }
{
    if number == held.proc.number {
        held.at
    } else {
        plan.event_count(Proc::new(number))
    }
}

/// For each process how many of its events are this one or before it.
fn limits_upto(alloc: Global, marked: &MarkedPlan<'_>, event: Event) -> Result<Vec<u32>, AllocError>
    ensures { IfOk result (λ limits. AreLimitsUpTo (plan_of marked.now) (event_of event) limits.items) }
{
    let count = marked.plan().process_count();
    let marks = marked.marks();
    let mut limits = Vec::with_capacity(alloc, count as usize)?;
    for number in 0..count {
        limits.push(marks.clock(event, Proc::new(number)))?;
    }
    Ok(limits)
}

/// Runs a core within these limits, and answers whether then x has happened and y hasn't.
#[tactic(auto, using(crate::proofs::Comes::comes_now, crate::proofs::Comes::kept_scripts))]
fn runs_ahead(core: &mut Core<'_>, limits: &[u32], x: Event, y: Event) -> bool
    ensures scripts { core.new.scripts ≡ core.old.scripts }
    ensures within { RunsWithin limits.now core.old core.new }
    ensures told { IsTrue result ↔ HasOnly core.new (event_of x) (event_of y) }
    ensures ahead { IsTrue result → ComesFirst (plan_in core.new) core.new.history (event_of x) (event_of y) }
{
    core.run_within(limits);
    core.is_done(x) && !core.is_done(y)
}

/// Runs a core within these limits, and answers whether then y has happened.
#[tactic(auto, using(crate::proofs::Comes::comes_within, crate::proofs::Comes::kept_scripts))]
fn runs_to(core: &mut Core<'_>, limits: &[u32], y: Event) -> bool
    ensures scripts { core.new.scripts ≡ core.old.scripts }
    ensures within { RunsWithin limits.now core.old core.new }
    ensures told { IsTrue result ↔ IsDone (state_of core.new) (event_of y) }
    ensures kept { (a b : Spot) → ComesFirst (plan_in core.old) core.old.history a b → ComesFirst (plan_in core.new) core.new.history a b }
{
    core.run_within(limits);
    core.is_done(y)
}

/// The run to its end, of a core in whose run the first call has come before the other.
fn finish<'a>(core: Core<'a>, first: CallAt, other: CallAt) -> Run<'a>
    requires comes { ComesFirst (plan_in core) core.history (first_event (plan_in core) first) (first_event (plan_in core) other) }
    requires first_there { first.call < length (calls_of (plan_in core) first.proc.number) }
    requires other_there { other.call < length (calls_of (plan_in core) other.proc.number) }
    ensures run { IsWitnessRun core.entry.scripts first other result }
    ensures later { (more : List ℕ) × (result.core.history ≡ core.entry.history ++ more) }
{
    let mut core = core;
    core.run_lowest();
    // The steps are an interleaving.
    let _ = core.history();
    Run {
        first_end: core.end_of(first),
        other_end: core.end_of(other),
        core,
    }
}

/// A core that has run within these limits, where then x has happened and y hasn't.
fn core_ahead<'a>(
    alloc: Global,
    plan: &'a Plan,
    limits: &[u32],
    x: Event,
    y: Event,
) -> Result<Option<Core<'a>>, Fault>
    ensures scripts { IfOk result (λ o. IfSome o (λ core. core.scripts ≡ plan.now)) }
    ensures within { IfOk result (HasRunAhead plan.now limits.now (event_of x) (event_of y)) }
    ensures ahead { IfOk result (λ o. IfSome o (λ core. ComesFirst (plan_in core) core.history (event_of x) (event_of y))) }
    ensures err { IfErr result (λ e. e ≡ Memory) }
{
    let mut core = Core::new(alloc, plan)?;
    if runs_ahead(&mut core, limits, x, y) {
        Ok(Some(core))
    } else {
        drop(core);
        Ok(None)
    }
}

/// The run to its end, of a core in whose run the first call has come before the other, where y happens within
/// these limits.
fn finish_after<'a>(
    core: Core<'a>,
    limits: &[u32],
    y: Event,
    first: CallAt,
    other: CallAt,
) -> Option<Run<'a>>
    requires comes { ComesFirst (plan_in core) core.history (first_event (plan_in core) first) (first_event (plan_in core) other) }
    requires first_there { first.call < length (calls_of (plan_in core) first.proc.number) }
    requires other_there { other.call < length (calls_of (plan_in core) other.proc.number) }
    ensures run { IfSome result (IsWitnessRun core.entry.scripts first other) }
    ensures goes_on { GoesOn core.entry limits.now (event_of y) result }
{
    let mut core = core;
    if runs_to(&mut core, limits, y) {
        Some(finish(core, first, other))
    } else {
        drop(core);
        None
    }
}

/// The run in which the other call is held back as long as any other process can take a step.
pub(crate) fn make_held_run<'a>(
    alloc: Global,
    plan: &'a Plan,
    first: CallAt,
    other: CallAt,
) -> Result<Option<Run<'a>>, Fault>
    requires first_there { first.call < length (calls_of (plan_of plan.now) first.proc.number) }
    requires other_there { other.call < length (calls_of (plan_of plan.now) other.proc.number) }
    ensures ok { IfOk result (λ o. IfSome o (IsWitnessRun plan.now first other)) }
    ensures made { IfOk result (λ o. IsHeldRun (plan_of plan.now) (first_event (plan_of plan.now) first) (first_event (plan_of plan.now) other) (steps_of o)) }
    ensures err { IfErr result (λ e. e ≡ Memory) }
{
    let x = plan.first_event(first);
    let held = plan.first_event(other);
    let limits = limits_before(alloc, plan, held)?;
    match core_ahead(alloc, plan, limits.as_slice(), x, held)? {
        Some(core) => Ok(Some(finish(core, first, other))),
        None => Ok(None),
    }
}

/// The run in which only what is before the first call comes before it, and after it only what is before the
/// other call, up to that.
pub(crate) fn make_needed_run<'a>(
    alloc: Global,
    marked: &MarkedPlan<'a>,
    first: CallAt,
    other: CallAt,
) -> Result<Option<Run<'a>>, Fault>
    requires first_there { first.call < length (calls_of (plan_of marked.now) first.proc.number) }
    requires other_there { other.call < length (calls_of (plan_of marked.now) other.proc.number) }
    ensures ok { IfOk result (λ o. IfSome o (IsWitnessRun marked.now first other)) }
    ensures made { IfOk result (λ o. IsNeededRun (plan_of marked.now) (first_event (plan_of marked.now) first)
        (first_event (plan_of marked.now) other) (steps_of o)) }
    ensures err { IfErr result (λ e. e ≡ Memory) }
{
    let plan = marked.plan();
    let x = plan.first_event(first);
    let y = plan.first_event(other);
    let limits = limits_upto(alloc, marked, x)?;
    let later = limits_upto(alloc, marked, y)?;
    match core_ahead(alloc, plan, limits.as_slice(), x, y)? {
        Some(core) => Ok(finish_after(core, later.as_slice(), y, first, other)),
        None => Ok(None),
    }
}
