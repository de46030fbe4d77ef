//! The outcome of a settled plan in which no live event waits for ever, without a run: its live events happen, and no
//! others, and what each of them does is its fate.

ghost use Rattle.std.specs.Prelude.{◌≡◌, ◌≢◌, ◌↔◌, ◌<◌, ◌++◌, map, IfOk, IsTrue, OnOk, IsOkUnless};
ghost use Rattle.wire_types.specs.declared.Fault.TheVariants.{Memory};
ghost use Rattle.wire_types.specs.declared.CallEnd.TheVariants.{Replied};
ghost use Rattle.wire_types.specs.Outcome.{ends_of};
ghost use Rattle.wire_scripts.specs.Planned.{plan_of};
ghost use Rattle.wire_runs.specs.Plan.{process_count};
ghost use Rattle.wire_runs.specs.Ends.{is_waiting, replies_of, row};
ghost use Rattle.wire_runs.specs.Laws.{plain_end};
ghost use Rattle.wire_core.specs.EndsAfter.{plain_ends};
ghost use Rattle.wire_fates.specs.Waiting.{NoneWaitsForEver};
ghost use Rattle.wire_parallel_run.specs.Trails.{said_by};

use crate::rows::call_count;
use std::alloc::{AllocError, Global};
use wire_core::add_unanswered;
use wire_fates::{Fate, Settled};
use wire_types::{CallEnd, Event, Fault, Outcome, Proc};

/// Adds the reply that a fate gives to a call, if it gives one.
fn add_said(ends: &mut Vec<CallEnd>, fate: Fate) -> Result<(), AllocError>
    ensures { OnOk result (ends.new.items ≡ ends.old.items ++ map Replied (said_by fate)) }
{
    if let Fate::Says(reply) = fate {
        ends.push(CallEnd::Replied(reply))?;
    }
    Ok(())
}

/// Whether an event of this fate happens.
fn happens(fate: Fate) -> bool
    ensures { IsTrue result ↔ (fate ≢ Fate.Waits) }
{
    !matches!(fate, Fate::Waits)
}

/// The calls of a process that get a reply, with room for so many calls, and how many of its events happen.
fn replied_by_fates(
    alloc: Global,
    settled: &Settled,
    proc: Proc,
    calls: usize,
) -> Result<(Vec<CallEnd>, u32), AllocError>
    requires { NoneWaitsForEver (plan_of settled.now) }
    ensures ends { IfOk result (λ r. r.0.items
        ≡ map Replied (replies_of (plan_of settled.now) ((plain_end (plan_of settled.now)).replies proc.number))) }
    ensures done { IfOk result (λ r. r.1 ≡ (plain_end (plan_of settled.now)).done proc.number) }
{
    // The plan is settled, and at the end exactly its live events are done.
    settled.live_are_done();
    let plan = settled.plan();
    let mut ends = Vec::with_capacity(alloc, calls)?;
    let mut done = 0;
    for at in 0..plan.event_count(proc) {
        let fate = settled.fate(Event { proc, at });
        add_said(&mut ends, fate)?;
        if happens(fate) {
            done = at + 1;
        }
    }
    Ok((ends, done))
}

/// What becomes of the calls of a process, and whether it waits at the end.
fn row_by_fates(alloc: Global, settled: &Settled, proc: Proc) -> Result<(Vec<CallEnd>, bool), Fault>
    requires none { NoneWaitsForEver (plan_of settled.now) }
    requires there { proc.number < process_count (plan_of settled.now) }
    ensures row { IfOk result (λ r. r.0.items ≡ row (plan_of settled.now) (plain_end (plan_of settled.now)) proc.number) }
    ensures waiting { IfOk result (λ r. r.1 ≡ is_waiting (plan_of settled.now) (plain_end (plan_of settled.now)) proc.number) }
    ensures memory { IsOkUnless result Memory }
{
    let plan = settled.plan();
    let calls = call_count(plan, proc);
    let (mut ends, done) = replied_by_fates(alloc, settled, proc, calls)?;
    let replied = ends.len();
    add_unanswered(&mut ends, false, calls.saturating_sub(replied))?;
    Ok((ends, done < plan.event_count(proc)))
}

/// What becomes of every call of a settled plan in which no live event waits for ever.
pub(crate) fn outcome_by_fates(alloc: Global, settled: &Settled) -> Result<Outcome, Fault>
    requires { NoneWaitsForEver (plan_of settled.now) }
    ensures ok { IfOk result (λ outcome. ends_of outcome ≡ plain_ends settled.now) }
    ensures memory { IsOkUnless result Memory }
{
    let plan = settled.plan();
    let mut rows = Vec::with_capacity(alloc, plan.process_count() as usize)?;
    let mut waiting = 0;
    for number in 0..plan.process_count() {
        let (row, waits) = row_by_fates(alloc, settled, Proc::new(number))?;
        rows.push_reserved(row);
        if waits {
            waiting += 1;
        }
    }
    Ok(Outcome { rows, waiting })
}
