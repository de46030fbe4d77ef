//! The search for a witness.

ghost use Rattle.std.specs.Prelude.{◌≡◌, ◌<◌, ◌↔◌, length, IfOk, IfSome, IfNone, IfErr, IsTrue};
ghost use Rattle.wire_types.specs.declared.Fault.TheVariants.{Memory};
ghost use Rattle.wire_runs.specs.Ends.{calls_of};
ghost use Rattle.wire_scripts.specs.Planned.{plan_of};
ghost use Rattle.wire_scripts.specs.Scripts.{numbers_of};
ghost use Rattle.wire_words.specs.Words.{end_text};
ghost use Rattle.wire_witness.specs.Witness.{IsWitness};
ghost use Rattle.wire_witness.specs.NotShown.{EndAlikeWhereMade, EndAlike, IsNotShown, NoRunDiffers, ShowsNothing};
ghost use Rattle.wire_witness.specs.Runs.{AreAlikeBeside, EndsDiffer, AreHeldRuns, AreNeededRuns, AreRunsOf, IsWitnessRun};
ghost use Rattle.wire_witness.specs.Runs.{steps_of};

use crate::runs::{Run, make_held_run, make_needed_run};
use crate::witness::Witness;
use std::alloc::{AllocError, Global};
use wire_happens_before::MarkedPlan;
use wire_plan::Plan;
use wire_scripts::Scripts;
use wire_types::{CallAt, CallEnd, Fault};
use wire_words::push_end;

/// A pair of calls.
#[derive(Clone, Copy)]
struct Pair {
    x: CallAt,
    y: CallAt,
}

/// Two ends of one call of a pair that differ as they are written, and the other call.
#[derive(Clone, Copy)]
struct Difference {
    call: CallAt,
    other: CallAt,
    first_end: CallEnd,
    second_end: CallEnd,
}

/// A run in which the first call of a pair comes first, and one in which the second does, where they were found.
struct Runs<'a> {
    first: Option<Run<'a>>,
    second: Option<Run<'a>>,
}

// By hand and not derived: so dropping one is a call, and the proof of a function that drops one doesn't take it apart.
impl Drop for Runs<'_> {
    fn drop(self) {
        let Runs {
            first: _,
            second: _,
        } = self;
    }
}

/// Whether two ends are written alike; the values that they bring may then come from different calls.
fn read_alike(
    alloc: Global,
    scripts: &Scripts,
    one: &CallEnd,
    other: &CallEnd,
) -> Result<bool, AllocError>
    ensures { IfOk result (λ alike. IsTrue alike ↔ (end_text scripts.now one.now ≡ end_text scripts.now other.now)) }
{
    let mut text = Vec::new(alloc);
    push_end(&mut text, scripts, one)?;
    let mut other_text = Vec::new(alloc);
    push_end(&mut other_text, scripts, other)?;
    Ok(text.as_slice() == other_text.as_slice())
}

/// The call whose ends are written differently in two runs of a plan: the first in which x comes first, the second
/// in which y does.
#[tactic(auto, using(crate::proofs::Alike::end_alike))]
fn find_difference(
    alloc: Global,
    plan: &Plan,
    pair: Pair,
    first: &Run<'_>,
    second: &Run<'_>,
) -> Result<Option<Difference>, AllocError>
    requires first { IsWitnessRun plan.now pair.x pair.y first.now }
    requires second { IsWitnessRun plan.now pair.y pair.x second.now }
    ensures apart { IfOk result (λ o. IfSome o (EndsDiffer plan.now pair.x pair.y first.now second.now)) }
    ensures alike { IfOk result (λ o. IfNone o (EndAlike plan.now pair.x pair.y first.now.core.history second.now.core.history)) }
{
    let scripts = plan.scripts();
    if !read_alike(alloc, scripts, &first.first_end, &second.other_end)? {
        return Ok(Some(Difference {
            call: pair.x,
            other: pair.y,
            first_end: first.first_end,
            second_end: second.other_end,
        }));
    }
    if !read_alike(alloc, scripts, &first.other_end, &second.first_end)? {
        return Ok(Some(Difference {
            call: pair.y,
            other: pair.x,
            first_end: first.other_end,
            second_end: second.first_end,
        }));
    }
    Ok(None)
}

/// The witness that two runs are in which the ends of a call differ.
fn witness_of(
    alloc: Global,
    apart: Difference,
    first: &Run<'_>,
    second: &Run<'_>,
) -> Result<Witness, AllocError>
    ensures first { IfOk result (λ w. numbers_of w.first.items ≡ first.now.core.history) }
    ensures second { IfOk result (λ w. numbers_of w.second.items ≡ second.now.core.history) }
    ensures apart { IfOk result (λ w. (w.call ≡ apart.call) × (w.other ≡ apart.other)
        × (w.first_end ≡ apart.first_end) × (w.second_end ≡ apart.second_end)) }
{
    let steps = first.core.history().to_vec(alloc)?;
    let others = second.core.history().to_vec(alloc)?;
    Ok(Witness {
        first: steps,
        second: others,
        call: apart.call,
        other: apart.other,
        first_end: apart.first_end,
        second_end: apart.second_end,
    })
}

/// The witness that two runs of a plan are, if they are one.
#[tactic(auto, using(crate::proofs::Laid::laid_ok))]
fn lay(
    alloc: Global,
    plan: &Plan,
    pair: Pair,
    first: &Run<'_>,
    second: &Run<'_>,
) -> Result<Option<Witness>, AllocError>
    requires first { IsWitnessRun plan.now pair.x pair.y first.now }
    requires second { IsWitnessRun plan.now pair.y pair.x second.now }
    ensures shown { IfOk result (λ o. IfSome o (IsWitness plan.now pair.x pair.y)) }
    ensures alike { IfOk result (λ o. IfNone o (EndAlike plan.now pair.x pair.y first.now.core.history second.now.core.history)) }
{
    let Some(apart) = find_difference(alloc, plan, pair, first, second)? else {
        return Ok(None);
    };
    let witness = witness_of(alloc, apart, first, second)?;
    Ok(Some(witness))
}

/// The witness that two runs of a plan are, where both were made, if they are one.
fn lay_both(
    alloc: Global,
    plan: &Plan,
    pair: Pair,
    first: &Option<Run<'_>>,
    second: &Option<Run<'_>>,
) -> Result<Option<Witness>, AllocError>
    requires first { IfSome first.now (IsWitnessRun plan.now pair.x pair.y) }
    requires second { IfSome second.now (IsWitnessRun plan.now pair.y pair.x) }
    ensures shown { IfOk result (λ o. IfSome o (IsWitness plan.now pair.x pair.y)) }
    ensures alike { IfOk result (λ o. IfNone o (EndAlikeWhereMade plan.now pair.x pair.y (steps_of first.now) (steps_of second.now))) }
{
    let Some(first) = first else {
        return Ok(None);
    };
    let Some(second) = second else {
        return Ok(None);
    };
    lay(alloc, plan, pair, first, second)
}

/// The runs in which one of the calls is held back.
fn make_held_runs<'a>(alloc: Global, marked: &MarkedPlan<'a>, pair: Pair) -> Result<Runs<'a>, Fault>
    requires x_there { pair.x.call < length (calls_of (plan_of marked.now) pair.x.proc.number) }
    requires y_there { pair.y.call < length (calls_of (plan_of marked.now) pair.y.proc.number) }
    ensures ok { IfOk result (AreRunsOf marked.now pair.x pair.y) }
    ensures made { IfOk result (AreHeldRuns marked.now pair.x pair.y) }
    ensures err { IfErr result (λ e. e ≡ Memory) }
{
    let plan = marked.plan();
    let first = make_held_run(alloc, plan, pair.x, pair.y)?;
    match make_held_run(alloc, plan, pair.y, pair.x) {
        Ok(second) => Ok(Runs { first, second }),
        Err(fault) => {
            drop(first);
            Err(fault)
        }
    }
}

/// The runs in which only what is needed comes before the calls.
fn make_needed_runs<'a>(
    alloc: Global,
    marked: &MarkedPlan<'a>,
    pair: Pair,
) -> Result<Runs<'a>, Fault>
    requires x_there { pair.x.call < length (calls_of (plan_of marked.now) pair.x.proc.number) }
    requires y_there { pair.y.call < length (calls_of (plan_of marked.now) pair.y.proc.number) }
    ensures ok { IfOk result (AreRunsOf marked.now pair.x pair.y) }
    ensures made { IfOk result (AreNeededRuns marked.now pair.x pair.y) }
    ensures err { IfErr result (λ e. e ≡ Memory) }
{
    let first = make_needed_run(alloc, marked, pair.x, pair.y)?;
    match make_needed_run(alloc, marked, pair.y, pair.x) {
        Ok(second) => Ok(Runs { first, second }),
        Err(fault) => {
            drop(first);
            Err(fault)
        }
    }
}

/// The witness among these runs of a plan, each laid beside each that the other call comes first in.
fn lay_all(
    alloc: Global,
    plan: &Plan,
    pair: Pair,
    held: &Runs<'_>,
    needed: &Runs<'_>,
) -> Result<Option<Witness>, AllocError>
    requires held { AreRunsOf plan.now pair.x pair.y held.now }
    requires needed { AreRunsOf plan.now pair.x pair.y needed.now }
    ensures shown { IfOk result (λ o. IfSome o (IsWitness plan.now pair.x pair.y)) }
    ensures alike { IfOk result (λ o. IfNone o (AreAlikeBeside plan.now pair.x pair.y held.now needed.now)) }
{
    match lay_both(alloc, plan, pair, &needed.first, &needed.second)? {
        Some(witness) => return Ok(Some(witness)),
        None => {}
    }
    match lay_both(alloc, plan, pair, &held.first, &needed.second)? {
        Some(witness) => return Ok(Some(witness)),
        None => {}
    }
    match lay_both(alloc, plan, pair, &needed.first, &held.second)? {
        Some(witness) => Ok(Some(witness)),
        None => Ok(None),
    }
}

/// The witness among the runs in which one of the calls is held back, or among those and the others.
fn find_beside(
    alloc: Global,
    marked: &MarkedPlan<'_>,
    pair: Pair,
    held: &Runs<'_>,
) -> Result<Option<Witness>, Fault>
    requires x_there { pair.x.call < length (calls_of (plan_of marked.now) pair.x.proc.number) }
    requires y_there { pair.y.call < length (calls_of (plan_of marked.now) pair.y.proc.number) }
    requires held { AreRunsOf marked.now pair.x pair.y held.now }
    ensures shown { IfOk result (λ o. IfSome o (IsWitness marked.now pair.x pair.y)) }
    ensures not_shown { IfOk result (λ o. IfNone o (NoRunDiffers marked.now pair.x pair.y (steps_of held.now.first) (steps_of held.now.second))) }
    ensures err { IfErr result (λ e. e ≡ Memory) }
{
    let plan = marked.plan();
    match lay_both(alloc, plan, pair, &held.first, &held.second)? {
        Some(witness) => return Ok(Some(witness)),
        None => {}
    }
    let needed = make_needed_runs(alloc, marked, pair)?;
    let found = lay_all(alloc, plan, pair, held, &needed);
    drop(needed);
    match found? {
        Some(witness) => Ok(Some(witness)),
        None => Ok(None),
    }
}

/// A witness of two calls that are the plan's.
fn find_among(alloc: Global, marked: &MarkedPlan<'_>, pair: Pair) -> Result<Option<Witness>, Fault>
    requires x_there { pair.x.call < length (calls_of (plan_of marked.now) pair.x.proc.number) }
    requires y_there { pair.y.call < length (calls_of (plan_of marked.now) pair.y.proc.number) }
    ensures shown { IfOk result (λ o. IfSome o (IsWitness marked.now pair.x pair.y)) }
    ensures not_shown { IfOk result (λ o. IfNone o (ShowsNothing marked.now pair.x pair.y)) }
    ensures err { IfErr result (λ e. e ≡ Memory) }
{
    let held = make_held_runs(alloc, marked, pair)?;
    let found = find_beside(alloc, marked, pair, &held);
    drop(held);
    match found? {
        Some(witness) => Ok(Some(witness)),
        None => Ok(None),
    }
}

/// Whether a call is one of the plan.
#[tactic(auto, using(crate::proofs::Laid::made))]
fn is_there(plan: &Plan, call: CallAt) -> bool
    ensures { IsTrue result ↔ (call.call < length (calls_of (plan_of plan.now) call.proc.number)) }
{
    match plan.scripts().processes().get(call.proc.index()) {
        Some(process) => (call.call as usize) < process.calls().len(),
        None => false,
    }
}

/// A witness of two calls of a plan, where one is found among four runs, each of which takes at each step the lowest
/// process that can go on, but for one change: in two of them one of the calls is held back as long as anything else
/// can happen; in the others only what a chain demands comes before the one call, and then before the other. `None` is
/// the answer where none of these runs shows a difference, which doesn't mean that there is no witness; and of a call
/// that isn't the plan's. The contract says that four runs of these kinds show none; that they are the ones that take
/// the lowest process is tested. The one fault is `Fault::Memory`.
pub fn find_witness(
    alloc: Global,
    marked: &MarkedPlan<'_>,
    x: CallAt,
    y: CallAt,
) -> Result<Option<Witness>, Fault>
    ensures shown { IfOk result (λ o. IfSome o (IsWitness marked.now x y)) }
    ensures not_shown { IfOk result (λ o. IfNone o (IsNotShown marked.now x y)) }
    ensures err { IfErr result (λ e. e ≡ Memory) }
{
    if !is_there(marked.plan(), x) || !is_there(marked.plan(), y) {
        return Ok(None);
    }
    match find_among(alloc, marked, Pair { x, y })? {
        Some(witness) => Ok(Some(witness)),
        None => Ok(None),
    }
}
