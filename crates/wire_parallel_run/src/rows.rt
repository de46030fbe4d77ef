//! What became of the calls, where no process can go on.

ghost use Rattle.std.specs.Prelude.{◌≡◌, ◌<◌, length, map, nat_lt, IfOk, IsOkUnless};
ghost use Rattle.wire_types.specs.declared.Fault.TheVariants.{Memory};
ghost use Rattle.wire_types.specs.declared.CallEnd.TheVariants.{Replied};
ghost use Rattle.wire_types.specs.Outcome.{ends_of};
ghost use Rattle.wire_runs.specs.Plan.{event_count, process_count};
ghost use Rattle.wire_runs.specs.Ends.{calls_of};
ghost use Rattle.wire_scripts.specs.Planned.{plan_of};
ghost use Rattle.wire_parallel_run.specs.Trails.{said_in, trail_of, told_row, told_outcome};

use std::alloc::{AllocError, Global};
use wire_core::add_unanswered;
use wire_fates::Fate;
use wire_plan::Plan;
use wire_types::{CallEnd, Fault, Outcome, Proc};

/// The trail of a process; an empty one where it has none.
pub(crate) fn trail_of(trails: &[Vec<Fate>], proc: Proc) -> &[Fate]
    ensures { result.now ≡ trail_of trails.now proc.number }
{
    match trails.get(proc.index()) {
        Some(trail) => trail.as_slice(),
        None => &[],
    }
}

/// How many calls a process has.
pub(crate) fn call_count(plan: &Plan, proc: Proc) -> usize
    requires { proc.number < process_count (plan_of plan.now) }
    ensures { result ≡ length (calls_of (plan_of plan.now) proc.number) }
{
    plan.scripts().processes()[proc.index()].calls().len()
}

/// The calls that get the replies of this trail, with room for so many calls.
fn ends_of_trail(alloc: Global, trail: &[Fate], calls: usize) -> Result<Vec<CallEnd>, AllocError>
    ensures { IfOk result (λ ends. ends.items ≡ map Replied (said_in trail.now)) }
{
    let mut ends = Vec::with_capacity(alloc, calls)?;
    for fate in trail {
        if let Fate::Says(reply) = fate {
            ends.push(CallEnd::Replied(*reply))?;
        }
    }
    Ok(ends)
}

/// What became of so many calls of a process with this trail.
fn row_of_trail(alloc: Global, trail: &[Fate], calls: usize) -> Result<Vec<CallEnd>, Fault>
    ensures ok { IfOk result (λ ends. ends.items ≡ told_row trail.now calls) }
    ensures memory { IsOkUnless result Memory }
{
    let mut ends = ends_of_trail(alloc, trail, calls)?;
    let replied = ends.len();
    add_unanswered(&mut ends, false, calls.saturating_sub(replied))?;
    Ok(ends)
}

/// Whether a process has events that its trail doesn't have.
fn is_short(plan: &Plan, proc: Proc, trail: &[Fate]) -> bool
    ensures { result ≡ nat_lt (length trail.now) (event_count (plan_of plan.now) proc.number) }
{
    trail.len() < plan.event_count(proc) as usize
}

/// What became of every call, and how many processes wait, where no process can go on.
pub(crate) fn outcome_of_trails(
    alloc: Global,
    plan: &Plan,
    trails: &[Vec<Fate>],
) -> Result<Outcome, Fault>
    ensures ok { IfOk result (λ outcome. ends_of outcome ≡ told_outcome (plan_of plan.now) trails.now) }
    ensures memory { IsOkUnless result Memory }
{
    let mut rows = Vec::with_capacity(alloc, plan.process_count() as usize)?;
    let mut waiting = 0;
    for number in 0..plan.process_count() {
        let proc = Proc::new(number);
        let trail = trail_of(trails, proc);
        let row = row_of_trail(alloc, trail, call_count(plan, proc))?;
        rows.push_reserved(row);
        if is_short(plan, proc, trail) {
            waiting += 1;
        }
    }
    Ok(Outcome { rows, waiting })
}
