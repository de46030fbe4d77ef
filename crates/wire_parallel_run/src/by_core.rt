//! The run of a settled plan by one core, without a board.

ghost use Rattle.std.specs.Prelude.{◌≡◌, OnOk, IfOk, IsOkUnless};
ghost use Rattle.wire_types.specs.Outcome.{ends_of};
ghost use Rattle.wire_runs.specs.Step.{IsEnd};
ghost use Rattle.wire_core.specs.Course.{plan_in, state_of};
ghost use Rattle.wire_core.specs.EndsAfter.{plain_ends};

use crate::over_lanes::Settings;
use crate::queue::Queue;
use std::alloc::{AllocError, Global};
use wire_core::Core;
use wire_fates::Settled;
use wire_locked::advance_far;
use wire_sched::Gate;
use wire_types::{Event, Fault, Outcome, Proc};

/// Serves a process as far as it goes, then wakes those that waited for what it has done, and puts it by.
fn serve(core: &mut Core<'_>, queue: &mut Queue, proc: Proc) -> Result<(), AllocError>
    ensures { OnOk result (core.new.scripts ≡ core.old.scripts) }
{
    let plan = core.plan();
    let from = core.next_event(proc).at;
    advance_far(core, proc);
    let next = core.next_event(proc);
    'events: for at in from..next.at {
        queue.wake(plan, Event { proc, at })?;
    }
    queue.put_by(plan, next)
}

/// Serves each process of a core, and each again when that has come for which it waited, until none is left. Then no
/// process is ready, which no clause says.
fn serve_all<G: Gate>(
    alloc: Global,
    core: &mut Core<'_>,
    settings: &Settings<'_, G>,
) -> Result<(), AllocError>
    ensures { OnOk result (core.new.scripts ≡ core.old.scripts) }
{
    let mut queue = Queue::new(alloc, core.plan().process_count());
    'served: for _ in 0..u64::MAX {
        let Some(proc) = queue.take() else {
            break;
        };
        settings.gate.pass(settings.workers, proc);
        serve(core, &mut queue, proc)?;
    }
    Ok(())
}

/// Runs a core to its end, where it isn't there.
fn run_on(core: &mut Core<'_>)
    ensures ended { IsEnd (plan_in core.new) (state_of core.new) }
    ensures scripts { core.new.scripts ≡ core.old.scripts }
{
    let ended = core.ended();
    if ended {
        return;
    }
    core.run_lowest();
}

/// What became of every call of a settled plan, where a core of it can't go on.
fn end_outcome(alloc: Global, settled: &Settled, core: &Core<'_>) -> Result<Outcome, Fault>
    requires scripts { core.now.scripts ≡ settled.now }
    requires ended { IsEnd (plan_in core.now) (state_of core.now) }
    ensures ok { IfOk result (λ outcome. ends_of outcome ≡ plain_ends settled.now) }
    ensures memory { IsOkUnless result Fault.Memory }
{
    // The plan is settled, and the steps are an interleaving.
    let _ = settled.plan();
    let _ = core.history();
    let outcome = core.outcome(alloc)?;
    Ok(outcome)
}

/// Runs a settled plan by a core on the calling thread, in linear memory, and tells what became of every call. The one
/// fault is `Fault::Memory`.
pub(crate) fn core_outcome<G: Gate>(
    alloc: Global,
    settings: &Settings<'_, G>,
) -> Result<Outcome, Fault>
    ensures ok { IfOk result (λ outcome. ends_of outcome ≡ plain_ends settings.now.settled.now) }
    ensures memory { IsOkUnless result Fault.Memory }
{
    let mut core = Core::new(alloc, settings.settled.plan())?;
    serve_all(alloc, &mut core, settings)?;
    run_on(&mut core);
    let outcome = end_outcome(alloc, settings.settled, &core);
    drop(core);
    outcome
}
