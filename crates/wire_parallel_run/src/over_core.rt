//! Rounds of workers over one locked core.

ghost use Rattle.std.specs.Prelude.{◌<◌, IsOkUnless};
ghost use Rattle.wire_rounds.specs.Rounds.{ArePassesOf};

use crate::rounds::{Dealt, serve_round, workers_after};
use std::alloc::Global;
use std::sync::Wait;
use std::thread::Threads;
use wire_core::Core;
use wire_locked::{LockedCore, advance_far};
use wire_sched::{Gate, StealRound};
use wire_types::Fault;

/// Serves the lowest process that is ready. Answers how many steps that were.
fn serve_lowest<G: Gate>(core: &mut Core<'_>, collector: usize, gate: &G) -> usize {
    match core.lowest_ready() {
        Some(proc) => {
            gate.pass(collector, proc);
            advance_far(core, proc)
        }
        None => 0,
    }
}

/// One round, and where it took no step, the lowest process that is ready. Gives the core back, with the number of
/// steps.
fn run_locked_round<'a, R: Threads + Wait + Sync, G: Gate + Sync>(
    rt: &R,
    core: Core<'a>,
    dealt: Dealt,
    gate: &G,
) -> (Core<'a>, usize)
    requires { ArePassesOf dealt.round dealt.passes.items }
{
    let collector = dealt.collector;
    let locked = LockedCore::new(core);
    let steps = serve_round(rt, &locked, dealt, gate);
    let mut core = locked.into_core();
    let steps = match steps {
        0 => serve_lowest(&mut core, collector, gate),
        steps => steps,
    };
    (core, steps)
}

/// Runs a core by rounds, each of which deals every process, until no process is ready. Each round takes a step, so
/// there are no more rounds than events. The first round has all workers, and a later one as many as the steps of the
/// round before it are work for. The one fault is `Fault::Memory`.
pub(crate) fn run_core<'a, R: Threads + Wait + Sync, G: Gate + Sync>(
    rt: &R,
    alloc: Global,
    core: Core<'a>,
    workers: usize,
    gate: &G,
) -> Result<Core<'a>, Fault>
    requires { 0 < workers }
    ensures memory { IsOkUnless result Fault.Memory }
{
    let mut core = core;
    let mut wanted = workers;
    let plan = core.plan();
    'rounds: for number in 0..plan.event_total() as u64 {
        if core.ended() {
            break;
        }
        match StealRound::deal(alloc, number, plan.process_count(), wanted) {
            Ok((round, passes)) => {
                let dealt = Dealt {
                    alloc,
                    round,
                    passes,
                    collector: workers,
                };
                let (next, steps) = run_locked_round(rt, core, dealt, gate);
                core = next;
                wanted = workers_after(steps, workers);
            }
            Err(fault) => {
                drop(core);
                return Err(fault);
            }
        }
    }
    Ok(core)
}
