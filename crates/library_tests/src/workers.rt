//! What two threads do, and what one does.

ghost use Rattle.std.specs.Prelude.{IfOk};
ghost use Rattle.wire_scripts.specs.Planned.{plan_of};
ghost use Rattle.wire_happens_before.specs.Clocks.{AreMarks};
ghost use Rattle.wire_findings.specs.Findings.{AreFindings};

use crate::gates::{Counter, Later, Meeting};
use std::alloc::Global;
use std::process::Abort;
use std::sync::Wait;
use std::test::Fail;
use std::thread::Threads;
use wire_core::Core;
use wire_findings::Finding;
use wire_happens_before::HappensBefore;
use wire_locked::LockedCore;
use wire_parallel_run::{run_any, run_workers};
use wire_plan::Plan;
use wire_races::{Settled, findings};
use wire_reader::read;
use wire_sched::{Gate, OpenGate, StealRound, work_locked};
use wire_types::{CallEnd, Fault, MemorySink, MemorySource, Outcome, Proc, Status};
use wire_up::{Ended, Mode, rehearse};

/// A get waits for a commit on another node.
pub(crate) const WAITING: &[u8] = b"\
rehearsal 1
node n0
node n1
job app
rank n0
put global k v
commit
rank n1
get app:0 k
";

/// A get that doesn't wait races a commit. The third process does nothing.
const RACING: &[u8] = b"\
rehearsal 1
node n0
job app
rank n0
put global k v
commit
rank n0
get-now app:0 k
rank n0
";

/// The second process gets a key from another node, and the third asks for it afterwards without waiting. The
/// plan keeps what gets bring.
const KEPT: &[u8] = b"\
rehearsal 2
keep
node n0
node n1
job app
rank n0
put global k v
commit
rank n1
get app:0 k
fence app:1,app:2
rank n1
fence app:1,app:2
get-now app:0 k
";

/// The first process takes away all that it published, before the second looks for it and publishes one of the
/// names itself.
const SWEPT: &[u8] = b"\
rehearsal 2
node n0
node n1
job app
rank n0
publish x 7
publish y 8
unpublish *
fence all
rank n1
fence all
lookup x
lookup y
publish y 9
";

/// Two processes that wait for nothing.
pub(crate) const APART: &[u8] = b"\
rehearsal 1
node n0
job app
rank n0
put global k v
commit
rank n0
put global m w
commit
";

/// Gets in a row across ranks: each round of one worker takes some steps.
const IN_A_ROW: &[u8] = b"\
rehearsal 1
node n0
node n1
job app
rank n0
get app:1 k
rank n1
get app:2 k
put global k v
commit
rank n1
put global k v
commit
rank n1
commit
rank n1
commit
";

/// Puts, gets, a fence that collects, and a name, on two nodes.
pub(crate) const CARDS: &[u8] = b"\
rehearsal 1
node n0
node n1
job app
rank n0
put global k v
put global m w
commit
fence all collect
publish x 7
rank n0
get app:0 m
get-now app:0 k
fence all collect
rank n1
fence all collect
get-now app:0 k
lookup-wait x
";

/// The plan of a file.
pub(crate) fn plan_of_file(alloc: Global, file: &[u8]) -> Result<Plan, Fault> {
    let scripts = read(alloc, file)?;
    Plan::build(alloc, scripts)
}

/// A file of 256 processes, each with one commit.
pub(crate) fn commits(alloc: Global) -> Result<String, Fault> {
    let mut file = String::from_str(alloc, "rehearsal 1\nnode n0\njob app\n")?;
    for _ in 0..256 {
        file.push_str("rank n0\ncommit\n")?;
    }
    Ok(file)
}

/// Runs a file.
fn run_file<R: Threads + Wait + Sync, G: Gate + Sync>(
    rt: &R,
    alloc: Global,
    file: &[u8],
    workers: usize,
    gate: &G,
) -> Result<(Outcome, Vec<Proc>), Fault> {
    let plan = plan_of_file(alloc, file)?;
    let ran = run_any(rt, alloc, &plan, workers, gate);
    drop(plan);
    ran
}

/// The marks and the findings of a plan.
fn judge<R: Threads + Sync>(
    rt: &R,
    alloc: Global,
    plan: &Plan,
) -> Result<(HappensBefore, Vec<Finding>), Fault>
    ensures marks { IfOk result (λ r. AreMarks (plan_of plan.now) r.0) }
    ensures findings { IfOk result (λ r. AreFindings plan.now r.1.items) }
{
    let marks = HappensBefore::of(alloc, plan)?;
    let found = findings(rt, alloc, plan, &marks)?;
    Ok((marks, found))
}

/// A file as a settled plan. Where something is found, the fault is `NotReady`.
pub(crate) fn settle<R: Threads + Sync>(
    rt: &R,
    alloc: Global,
    file: &[u8],
) -> Result<Settled, Fault> {
    let plan = plan_of_file(alloc, file)?;
    match judge(rt, alloc, &plan) {
        Ok((marks, found)) => match Settled::try_new(plan, marks, found) {
            Ok(settled) => Ok(settled),
            Err(unsettled) => {
                drop(unsettled);
                Err(Fault::NotReady(0))
            }
        },
        Err(fault) => {
            drop(plan);
            Err(fault)
        }
    }
}

/// Runs a file as a settled plan.
fn run_settled<R: Threads + Wait + Sync, G: Gate + Sync>(
    rt: &R,
    alloc: Global,
    file: &[u8],
    workers: usize,
    gate: &G,
) -> Result<Outcome, Fault> {
    let settled = settle(rt, alloc, file)?;
    let ran = run_workers(rt, alloc, &settled, workers, gate);
    drop(settled);
    ran
}

/// The numbers of these processes are these.
pub(crate) fn are(history: &[Proc], numbers: &[u32]) -> bool {
    history.len() == numbers.len()
        && history
            .iter()
            .zip(numbers)
            .all(|(proc, number)| proc.number == *number)
}

/// What the last call of a process replied, by the row of its calls.
fn last_status(row: Option<&Vec<CallEnd>>) -> Option<Status> {
    match row?.last() {
        Some(CallEnd::Replied(reply)) => Some(reply.status),
        _ => None,
    }
}

/// Whether two runs left the same.
pub(crate) fn are_alike(one: &Outcome, other: &Outcome) -> bool {
    one.rows == other.rows && one.waiting == other.waiting
}

/// What a run left: how many steps it took, how many processes wait, and what the last call of the last process
/// replied.
#[derive(Clone, Copy)]
struct Left {
    steps: usize,
    waiting: u32,
    last: Option<Status>,
}

/// Runs a file by so many workers, under one lock and then over a board, each with its gate. Asserts that both leave
/// the same.
fn run_both<R: Abort + Threads + Wait + Sync, G: Gate + Sync>(
    rt: &R,
    alloc: Global,
    file: &[u8],
    workers: usize,
    gates: (&G, &G),
) -> Result<Left, Fault> {
    let (outcome, history) = run_file(rt, alloc, file, workers, gates.0)?;
    let left = Left {
        steps: history.len(),
        waiting: outcome.waiting,
        last: last_status(outcome.rows.last()),
    };
    drop(history);
    let settled = run_settled(rt, alloc, file, workers, gates.1);
    let alike = settled.map(|settled| are_alike(&settled, &outcome));
    drop(outcome);
    assert!(rt; alike?);
    Ok(left)
}

/// One worker serves a round of one deque in this thread. Answers how many steps it took.
fn serve_round<R: Wait>(
    rt: &R,
    alloc: Global,
    locked: &LockedCore<'_>,
    processes: u32,
) -> Result<usize, Fault> {
    let (round, passes) = StealRound::deal(alloc, 0, processes, 1)?;
    let mut passes = passes;
    let steps = work_locked(rt, locked, &round, &mut passes[0], &OpenGate);
    drop(passes);
    drop(round);
    Ok(steps)
}

/// One worker serves a round of a plan in this thread: how many steps it answers, and the history afterwards.
fn serve_plan<R: Wait>(rt: &R, alloc: Global, plan: &Plan) -> Result<(usize, Vec<Proc>), Fault> {
    let core = Core::new(alloc, plan)?;
    let locked = LockedCore::new(core);
    let steps = serve_round(rt, alloc, &locked, plan.process_count());
    let core = locked.into_core();
    let history = Vec::from_slice(alloc, core.history());
    drop(core);
    Ok((steps?, history?))
}

/// The same of a file.
fn serve_file<R: Wait>(rt: &R, alloc: Global, file: &[u8]) -> Result<(usize, Vec<Proc>), Fault> {
    let plan = plan_of_file(alloc, file)?;
    let served = serve_plan(rt, alloc, &plan);
    drop(plan);
    served
}

/// Both workers come to the gate, while each holds what it took first.
#[test]
fn two_workers_meet(rt: HostRuntime) -> Result<(), Fail> {
    let (locked, board) = (Meeting::new(), Meeting::new());
    let left = run_both(&rt, rt.alloc(), APART, 2, (&locked, &board))?;
    assert!(rt; left.steps == 4 && left.waiting == 0);
    locked.assert_met(&rt);
    board.assert_met(&rt);
    Ok(())
}

/// The workers of a replay come to the gate too.
#[test]
fn workers_of_a_replay_meet(rt: HostRuntime) -> Result<(), Fail> {
    let gate = Meeting::new();
    let mode = Mode {
        json: false,
        anyway: false,
        explain: false,
    };
    let mut reader = MemorySource::new(APART);
    let mut writer = MemorySink::new(Vec::new(rt.alloc()));
    let ended = rehearse(&rt, rt.alloc(), &mut reader, &mut writer, 2, mode, &gate);
    assert_eq!(rt; ended, Ok(Ended::Clean));
    gate.assert_met(&rt);
    Ok(())
}

/// Whoever takes which piece: while process 0 is held until process 2 has come, process 1 is served first.
#[test]
fn the_history_is_what_ran(rt: HostRuntime) -> Result<(), Fail> {
    let gate = Later::new();
    let (outcome, history) = run_file(&rt, rt.alloc(), RACING, 2, &gate)?;
    gate.assert_met(&rt);
    let last = last_status(outcome.rows.get(1));
    drop(outcome);
    assert!(rt; matches!(last, Some(Status::NotFound)) && are(history.as_slice(), &[1, 0, 0]));
    Ok(())
}

/// One worker serves all that it can, and counts its steps.
#[test]
fn one_worker_serves_a_round(rt: HostRuntime) -> Result<(), Fail> {
    let alloc = rt.alloc();
    let (steps, history) = serve_file(&rt, alloc, WAITING)?;
    assert!(rt; steps == 3 && are(history.as_slice(), &[0, 0, 1]));
    drop(history);
    let file = commits(alloc)?;
    let (steps, history) = serve_file(&rt, alloc, file.as_bytes())?;
    assert!(rt; steps == 256 && history.len() == 256);
    Ok(())
}

/// Runs a file by one worker, and asserts that nothing waits, how often the worker passes a process under one lock and
/// over a board, and that the collector passes none.
fn assert_counts<R: Abort + Threads + Wait + Sync>(
    rt: &R,
    alloc: Global,
    file: &[u8],
    proc: Proc,
    passes: (u64, u64),
) -> Result<(), Fault> {
    let (locked, board) = (Counter::of(proc), Counter::of(proc));
    let left = run_both(rt, alloc, file, 1, (&locked, &board))?;
    assert!(rt; left.waiting == 0);
    locked.assert_passes(rt, passes.0);
    board.assert_passes(rt, passes.1);
    Ok(())
}

/// What one worker can serve, the collector leaves to it.
#[test]
fn the_collector_serves_nothing(rt: HostRuntime) -> Result<(), Fail> {
    let alloc = rt.alloc();
    let commits = commits(alloc)?;
    for (file, rounds) in [
        (WAITING, 1u64),
        (commits.as_bytes(), 1),
        (IN_A_ROW, 3),
        (CARDS, 2),
    ] {
        assert_counts(&rt, alloc, file, Proc::new(0), (rounds, rounds))?;
    }
    Ok(())
}

/// Over a board, a worker serves what its own steps set free in the same turn, so the last rank of a row is passed
/// once. Under one lock it is passed in each round.
#[test]
fn turns_save_rounds(rt: HostRuntime) -> Result<(), Fail> {
    assert_counts(&rt, rt.alloc(), IN_A_ROW, Proc::new(4), (3, 1))?;
    Ok(())
}

/// There are 1 to 64 workers.
#[test]
fn numbers_of_workers(rt: HostRuntime) -> Result<(), Fail> {
    let alloc = rt.alloc();
    for workers in [0usize, 65, usize::MAX] {
        let locked = run_file(&rt, alloc, WAITING, workers, &OpenGate).err();
        assert!(rt; matches!(locked, Some(Fault::Workers)));
        let board = run_settled(&rt, alloc, WAITING, workers, &OpenGate).err();
        assert!(rt; matches!(board, Some(Fault::Workers)));
    }
    for workers in [1usize, 2, 7, 64] {
        run_both(&rt, alloc, IN_A_ROW, workers, (&OpenGate, &OpenGate))?;
    }
    Ok(())
}

/// Asserts that a file's last call succeeds, however many workers there are.
fn assert_success<R: Abort + Threads + Wait + Sync>(
    rt: &R,
    alloc: Global,
    file: &[u8],
) -> Result<(), Fault> {
    for workers in [1usize, 2, 7, 64] {
        let left = run_both(rt, alloc, file, workers, (&OpenGate, &OpenGate))?;
        assert!(rt; matches!(left.last, Some(Status::Success)));
    }
    Ok(())
}

/// However many workers there are, a call takes away all names that its process has published.
#[test]
fn workers_take_names_away(rt: HostRuntime) -> Result<(), Fail> {
    assert_success(&rt, rt.alloc(), SWEPT)?;
    Ok(())
}

/// However many workers there are, what a get brings to a node stays there where the plan says so.
#[test]
fn workers_keep_what_gets_bring(rt: HostRuntime) -> Result<(), Fail> {
    assert_success(&rt, rt.alloc(), KEPT)?;
    Ok(())
}
