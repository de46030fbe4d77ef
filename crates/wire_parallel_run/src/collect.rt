//! The run of a plan by workers.

ghost use Rattle.std.specs.Prelude.{◌≡◌, ◌↔◌, Err, IfOk, IsOkUnless, IsTrue, map};
ghost use Rattle.wire_types.specs.declared.Fault.TheVariants.{Memory, Workers};
ghost use Rattle.wire_types.specs.Outcome.{ends_of};
ghost use Rattle.wire_runs.specs.Step.{IsEnd};
ghost use Rattle.wire_core.specs.Course.{plan_in, state_of};
ghost use Rattle.wire_core.specs.EndsAfter.{plain_ends};
ghost use Rattle.wire_parallel_run.specs.Collect.{MayWork, IsCompleteRun};

use crate::by_core::core_outcome;
use crate::by_fates::outcome_by_fates;
use crate::over_core::run_core;
use crate::over_lanes::{Settings, board_outcome};
use std::alloc::Global;
use std::sync::Wait;
use std::thread::Threads;
use wire_core::{Core, plain_outcome};
use wire_fates::Settled;
use wire_plan::Plan;
use wire_sched::Gate;
use wire_types::{Fault, Outcome, Proc};

/// The highest number of workers of a run. The lowest is 1.
pub const MOST_WORKERS: usize = 64;

/// The most processes for which a board is made. Its seats keep a number of 64 bits for each two processes: 8 MiB here,
/// and four times as much for twice as many.
const MOST_SEATED: u32 = 1_024;

/// Whether a run may have so many workers.
fn may_work(workers: usize) -> bool
    ensures { IsTrue result ↔ MayWork workers }
{
    workers >= 1 && workers <= MOST_WORKERS
}

/// The core, where it is of this plan and no process is ready; else a new one of the plan, run to its end.
fn end_core<'a, G: Gate>(
    alloc: Global,
    plan: &'a Plan,
    core: Core<'a>,
    workers: usize,
    gate: &G,
) -> Result<Core<'a>, Fault>
    ensures plan { IfOk result (λ core. core.scripts ≡ plan.entry.now) }
    ensures ended { IfOk result (λ core. IsEnd (plan_in core) (state_of core)) }
    ensures memory { IsOkUnless result Memory }
{
    let ended = core.ended();
    if *core.plan() == *plan && ended {
        return Ok(core);
    }
    drop(core);
    gate.pass(workers, Proc::new(0));
    let mut core = Core::new(alloc, plan)?;
    core.run_lowest();
    Ok(core)
}

/// What became of every call of a core at its end, and its history.
fn tell_run(alloc: Global, core: &Core<'_>) -> Result<(Outcome, Vec<Proc>), Fault>
    requires { IsEnd (plan_in core.now) (state_of core.now) }
    ensures ok { IfOk result (λ r. IsCompleteRun core.now.scripts (map (λ p. p.number) r.1.items) (ends_of r.0)) }
    ensures memory { IsOkUnless result Memory }
{
    let history = Vec::from_slice(alloc, core.history())?;
    let outcome = core.outcome(alloc)?;
    Ok((outcome, history))
}

/// Runs a plan by at most so many workers at once, until no process is ready. Gives what became of every call, and the
/// history of the steps. Which interleaving runs is open: for a plan with races, another run may give another.
///
/// The workers share one core under a lock. They work by rounds, and each round deals every process. The first worker
/// runs on the calling thread, and each other on a thread of its own. All work in the first round, and in a later one
/// as many as the round before had steps for. A worker whose thread can't be started is left out. After the workers of
/// a round, the calling thread is the collector: it serves what no worker took, and after a round without a step the
/// lowest ready process. It calls the gate with the number `workers`, which is no worker's. Where the core that comes
/// back isn't of this plan, or a process is still ready, the calling thread calls the gate with that number and process
/// 0, and runs the plan alone.
///
/// The fault is `Workers` where there is no worker or more than 64, before all else, and `Memory` where memory ran out.
pub fn run_any<R: Threads + Wait + Sync, G: Gate + Sync>(
    rt: &R,
    alloc: Global,
    plan: &Plan,
    workers: usize,
    gate: &G,
) -> Result<(Outcome, Vec<Proc>), Fault>
    ensures ok { IfOk result (λ r. IsCompleteRun plan.now (map (λ p. p.number) r.1.items) (ends_of r.0)) }
    ensures memory { MayWork workers → IsOkUnless result Memory }
    ensures workers { (MayWork workers → ⊥) → result ≡ Err Workers }
{
    if !may_work(workers) {
        return Err(Fault::Workers);
    }
    let core = Core::new(alloc, plan)?;
    let core = run_core(rt, alloc, core, workers, gate)?;
    let core = end_core(alloc, plan, core, workers, gate)?;
    let ran = tell_run(alloc, &core);
    drop(core);
    ran
}

/// What becomes of every call of a settled plan, by the calling thread alone: told by fates where no live event waits for
/// ever, else by the run of a core.
fn outcome_by_one<G: Gate>(alloc: Global, settings: &Settings<'_, G>) -> Result<Outcome, Fault>
    ensures ok { IfOk result (λ outcome. ends_of outcome ≡ plain_ends settings.now.settled.now) }
    ensures memory { IsOkUnless result Memory }
{
    if settings.settled.none_waits_for_ever() {
        return outcome_by_fates(alloc, settings.settled);
    }
    core_outcome(alloc, settings)
}

/// Runs a settled plan by `workers` workers, and gives what became of every call. Whatever the workers do, that is what
/// the plain run gives, in which at each step the lowest ready process takes it.
///
/// The workers and the collector work by rounds as in `run_any`, but they serve the lanes of a board and not a core
/// under a lock. Where the trails and the words at the end don't tell the outcome, the calling thread calls the gate
/// with the number `workers` and process 0, and runs the plan alone. A plan of more than 1,024 processes has no board.
/// Where no live event of it waits for ever, the calling thread tells the outcome by fates, and calls no gate; else it
/// runs the plan by a core, and calls the gate with the number `workers` for each process that it serves. The faults are
/// those of `run_any`.
pub fn run_workers<R: Threads + Wait + Sync, G: Gate + Sync>(
    rt: &R,
    alloc: Global,
    settled: &Settled,
    workers: usize,
    gate: &G,
) -> Result<Outcome, Fault>
    ensures ok { IfOk result (λ outcome. ends_of outcome ≡ plain_ends settled.now) }
    ensures memory { MayWork workers → IsOkUnless result Memory }
    ensures workers { (MayWork workers → ⊥) → result ≡ Err Workers }
{
    if !may_work(workers) {
        return Err(Fault::Workers);
    }
    let settings = Settings {
        settled,
        workers,
        gate,
    };
    if settled.plan().process_count() > MOST_SEATED {
        return outcome_by_one(alloc, &settings);
    }
    match board_outcome(rt, alloc, &settings)? {
        Some(outcome) => Ok(outcome),
        None => {
            gate.pass(workers, Proc::new(0));
            plain_outcome(alloc, settled.plan())
        }
    }
}
