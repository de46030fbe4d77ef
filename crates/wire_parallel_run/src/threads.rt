//! The threads of a round: one for each worker.

ghost use Rattle.std.specs.Prelude.{◌≡◌, ◌+◌, ◌<◌, IfOk, IfErr, IfSome, OnSome, IfNone, vec_len, vec_capacity};
ghost use Rattle.std.specs.Thread.{IsSync};
ghost use Rattle.wire_rounds.specs.Rounds.{IsPassOf, worker_of};
ghost use Rattle.wire_parallel_run.specs.Passes.{AreFirstPasses};

use crate::crew::Works;
use std::snapshot::Snapshot;
use std::sync::Wait;
use std::sync::atomic::{AtomicBool, Ordering};
use std::thread;
use std::thread::{Promise, PromisedHandle, Scope, Threads};
use wire_sched::{Pass, StealRound};

/// What a worker's thread gives back: its pass of the round, and how many steps it took.
#[derive(Drop)]
struct Returned {
    round: Snapshot<StealRound>,
    worker: usize,
}

impl Promise<(Pass, usize)> for Returned {
    ghost kept_by = { λ p r. IsPassOf p.round.value r.0 × (worker_of r.0 ≡ p.worker) };
}

/// What a worker does. Gives its pass back, with the number of steps taken.
fn do_work<R: Wait, W: Works>(rt: &R, works: &W, pass: Pass) -> (Pass, usize)
    requires { IsPassOf (W.dealt works.now) pass }
    ensures { IsPassOf (W.dealt works.now) result.0 × (worker_of result.0 ≡ worker_of pass) }
{
    let mut pass = pass;
    let steps = works.work(rt, &mut pass);
    (pass, steps)
}

/// What a worker's thread does. If no thread could be started, the thread that tried calls this, and it only gives the
/// pass back.
fn do_thread_work<R: Wait, W: Works>(
    rt: &R,
    works: &W,
    refused: &AtomicBool,
    pass: Pass,
) -> (Pass, usize)
    requires { IsPassOf (W.dealt works.now) pass }
    ensures { IsPassOf (W.dealt works.now) result.0 × (worker_of result.0 ≡ worker_of pass) }
{
    if refused.load(Ordering::SeqCst) {
        return (pass, 0);
    }
    do_work(rt, works, pass)
}

/// Starts one worker. Where no thread can be started, its pass comes back.
fn start_worker<'s, E, R: Threads + Wait + Sync, W: Works + Sync>(
    scope: &Scope<'s, E>,
    rt: &'s R,
    works: &'s W,
    refused: &'s AtomicBool,
    pass: Pass,
) -> Result<PromisedHandle<(Pass, usize), Returned>, Pass>
    requires { IsPassOf (W.dealt works.now) pass }
    ensures started { IfOk result (λ h. (h.promise.round.value ≡ W.dealt works.entry.now) × (h.promise.worker ≡ worker_of pass)) }
    ensures left_out { IfErr result (λ p. IsPassOf (W.dealt works.entry.now) p × (worker_of p ≡ worker_of pass)) }
{
    let promise = Returned {
        round: Snapshot::of(works.round()),
        worker: pass.worker(),
    };
    let started = scope.spawn_with(promise, move || do_thread_work(rt, works, refused, pass));
    match started {
        Ok(handle) => Ok(handle),
        Err(left_out) => {
            refused.store(true, Ordering::SeqCst);
            let (pass, _) = (left_out.value)();
            Err(pass)
        }
    }
}

/// Takes the last pass off.
fn take_last_pass<W: Works>(works: &W, passes: &mut Vec<Pass>) -> Option<Pass>
    requires { AreFirstPasses (W.dealt works.now) passes.old.items }
    ensures none { IfNone result (vec_len passes.new ≡ vec_len passes.old) }
    ensures pass { IfSome result (λ p. IsPassOf (W.dealt works.now) p × (worker_of p ≡ vec_len passes.new)) }
    ensures rest { AreFirstPasses (W.dealt works.now) passes.new.items }
    ensures capacity { vec_capacity passes.new ≡ vec_capacity passes.old }
    ensures sizes { OnSome result ((vec_len passes.new + 1 ≡ vec_len passes.old) × (vec_len passes.new < vec_capacity passes.new)) }
{
    passes.pop()
}

/// Puts the last pass back.
fn put_back<W: Works>(works: &W, passes: Vec<Pass>, pass: Pass) -> Vec<Pass>
    requires passes { AreFirstPasses (W.dealt works.now) passes.items }
    requires pass { IsPassOf (W.dealt works.now) pass × (worker_of pass ≡ vec_len passes) }
    requires room { vec_len passes < vec_capacity passes }
    ensures passes { AreFirstPasses (W.dealt works.now) result.items }
    ensures sizes { (vec_len result ≡ vec_len passes + 1) × (vec_capacity result ≡ vec_capacity passes) }
{
    let mut passes = passes;
    passes.push_reserved(pass);
    passes
}

/// Lets a worker for each pass serve pieces, and gives the passes back, with the number of steps taken. The first
/// worker runs on the calling thread, which has nothing else to do until the others end. Each other one has a thread of
/// its own, and is joined.
#[cycle(workers)]
pub(crate) fn run_round<R: Threads + Wait + Sync, W: Works + Sync>(
    rt: &R,
    works: &W,
    passes: Vec<Pass>,
) -> (Vec<Pass>, usize)
    requires { AreFirstPasses (W.dealt works.now) passes.items }
    ensures passes { AreFirstPasses (W.dealt works.now) result.0.items }
    ensures count { vec_len result.0 ≡ vec_len passes }
    ensures room { vec_capacity result.0 ≡ vec_capacity passes }
{
    let mut passes = passes;
    let Some(pass) = take_last_pass(works, &mut passes) else {
        return (passes, 0);
    };
    if passes.is_empty() {
        let (pass, steps) = do_work(rt, works, pass);
        return (put_back(works, passes, pass), steps);
    }
    let (passes, pass, steps) = run_beside(rt, works, passes, pass);
    (put_back(works, passes, pass), steps)
}

/// Starts the worker of the last pass, lets those before it serve pieces meanwhile, and joins it.
#[cycle(workers)]
fn run_beside<R: Threads + Wait + Sync, W: Works + Sync>(
    rt: &R,
    works: &W,
    passes: Vec<Pass>,
    pass: Pass,
) -> (Vec<Pass>, Pass, usize)
    requires passes { AreFirstPasses (W.dealt works.now) passes.items }
    requires pass { IsPassOf (W.dealt works.now) pass }
    ensures passes { AreFirstPasses (W.dealt works.now) result.0.items }
    ensures sizes { (vec_len result.0 ≡ vec_len passes) × (vec_capacity result.0 ≡ vec_capacity passes) }
    ensures pass { IsPassOf (W.dealt works.now) result.1 × (worker_of result.1 ≡ worker_of pass) }
{
    let refused = AtomicBool::new(false);
    let flag = &refused;
    thread::scope(
        thread::scope_env(),
        rt,
        |scope| -> (Vec<Pass>, Pass, usize)
            requires { IsSync R.row × IsSync W.row × IsPassOf (W.dealt works.now) pass × AreFirstPasses (W.dealt works.now) passes.items }
            ensures { AreFirstPasses (W.dealt works.entry.now) result.0.items × (vec_len result.0 ≡ vec_len passes)
                × (vec_capacity result.0 ≡ vec_capacity passes) × IsPassOf (W.dealt works.entry.now) result.1 × (worker_of result.1 ≡ worker_of pass) }
        {
            let started = start_worker(scope, rt, works, flag, pass);
            let (passes, others) = run_round(rt, works, passes);
            match started {
                Ok(handle) => {
                    let (pass, steps) = handle.join(rt);
                    (passes, pass, others.saturating_add(steps))
                }
                Err(pass) => (passes, pass, others),
            }
        },
    )
}
