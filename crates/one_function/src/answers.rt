//! What each function gives, as text.

ghost use Rattle.std.specs.Prelude.{◌≡◌, IfOk};
ghost use Rattle.std.specs.List.{All};
ghost use Rattle.wire_scripts.specs.Planned.{plan_of};
ghost use Rattle.wire_happens_before.specs.Clocks.{AreMarks};
ghost use Rattle.wire_findings.specs.Findings.{AreFindings};

use crate::texts::{marks_text, plan_text, push_pieces, push_words, seats_text, workers_text};
use std::alloc::Global;
use std::sync::Wait;
use std::thread::Threads;
use wire_board::{Board, Seat};
use wire_core::Core;
use wire_findings::Finding;
use wire_happens_before::HappensBefore;
use wire_parallel_run::run_any;
use wire_plan::Plan;
use wire_races::{Settled, findings};
use wire_reader::read;
use wire_report::{findings_text, report_text, unsettled_text};
use wire_sched::{OpenGate, StealRound};
use wire_types::Fault;

/// What the deal of a round has: its number, and how many workers.
const ROUND: u64 = 5;

const WORKERS: usize = 7;

/// A function of the library.
#[derive(Clone, Copy)]
pub enum Part {
    /// `plain`.
    Plain,
    /// `read`.
    Read,
    /// `Plan::build`.
    Plan,
    /// One that is given a plan.
    Over(OverPlan),
    /// `Board::new`.
    Board,
}

/// A function that is given a plan, or what is made of it.
#[derive(Clone, Copy)]
pub enum OverPlan {
    /// `HappensBefore::of`.
    HappensBefore,
    /// `findings`.
    Findings,
    /// `Core::new`.
    Core,
    /// `StealRound::deal`.
    StealRound,
    /// `run_any` by one worker.
    Workers,
}

/// How far a run is: what the function needs is made, or the function is called, or what it gave is told.
#[derive(Clone, Copy)]
pub enum Stage {
    Before,
    Within,
    After,
}

impl Stage {
    /// Its word.
    pub fn word(self) -> &'static str {
        match self {
            Stage::Before => "before",
            Stage::Within => "within",
            Stage::After => "after",
        }
    }
}

/// What a function gives over a file.
pub fn text_of(
    rt: &(impl AllocGlobal + Threads + Wait + Sync),
    part: Part,
    file: &[u8],
    stage: &mut Stage,
) -> Result<Vec<u8>, Fault> {
    match part {
        Part::Plain => Ok(Vec::new(rt.alloc())),
        Part::Read => of_read(rt.alloc(), file, stage),
        Part::Plan => of_plan(rt.alloc(), file, stage),
        Part::Over(part) => of_part(rt, part, file, stage),
        Part::Board => of_board(rt, file, stage),
    }
}

/// What `read` gives, as its canonical text.
fn of_read(alloc: Global, file: &[u8], stage: &mut Stage) -> Result<Vec<u8>, Fault> {
    *stage = Stage::Within;
    let scripts = read(alloc, file)?;
    *stage = Stage::After;
    let text = scripts.to_text(alloc);
    drop(scripts);
    text
}

/// What `Plan::build` gives, as all that can be looked up in it.
fn of_plan(alloc: Global, file: &[u8], stage: &mut Stage) -> Result<Vec<u8>, Fault> {
    let scripts = read(alloc, file)?;
    *stage = Stage::Within;
    let plan = Plan::build(alloc, scripts)?;
    *stage = Stage::After;
    let text = plan_text(alloc, &plan);
    drop(plan);
    Ok(text?.into_bytes())
}

/// The plan of a file.
fn plan_of_text(alloc: Global, file: &[u8]) -> Result<Plan, Fault> {
    let scripts = read(alloc, file)?;
    Plan::build(alloc, scripts)
}

/// What a function gives over the plan of a file.
fn of_part(
    rt: &(impl AllocGlobal + Threads + Wait + Sync),
    part: OverPlan,
    file: &[u8],
    stage: &mut Stage,
) -> Result<Vec<u8>, Fault> {
    let plan = plan_of_text(rt.alloc(), file)?;
    let text = match part {
        OverPlan::HappensBefore => of_marks(rt.alloc(), &plan, stage),
        OverPlan::Findings => of_findings(rt, &plan, stage),
        OverPlan::Core => of_core(rt.alloc(), &plan, stage),
        OverPlan::StealRound => of_round(rt.alloc(), &plan, stage),
        OverPlan::Workers => of_workers(rt, &plan, stage),
    };
    drop(plan);
    text
}

/// What `HappensBefore::of` gives.
fn of_marks(alloc: Global, plan: &Plan, stage: &mut Stage) -> Result<Vec<u8>, Fault> {
    *stage = Stage::Within;
    let marks = HappensBefore::of(alloc, plan)?;
    *stage = Stage::After;
    let text = marks_text(alloc, &marks.with(plan));
    drop(marks);
    Ok(text?.into_bytes())
}

/// What `findings` gives, as the text that `check` writes.
fn of_findings(
    rt: &(impl AllocGlobal + Threads + Sync),
    plan: &Plan,
    stage: &mut Stage,
) -> Result<Vec<u8>, Fault> {
    let marks = HappensBefore::of(rt.alloc(), plan)?;
    *stage = Stage::Within;
    let found = findings(rt, rt.alloc(), plan, &marks);
    drop(marks);
    let found = found?;
    *stage = Stage::After;
    findings_text(rt.alloc(), plan.scripts(), found.as_slice(), false)
}

/// What `Core::new` gives, as the report and the order of its plain run.
fn of_core(alloc: Global, plan: &Plan, stage: &mut Stage) -> Result<Vec<u8>, Fault> {
    *stage = Stage::Within;
    let mut core = Core::new(alloc, plan)?;
    *stage = Stage::After;
    core.run_lowest();
    let text = core_text(alloc, &core, plan);
    drop(core);
    text
}

/// The report and the order of a core's run.
fn core_text(alloc: Global, core: &Core<'_>, plan: &Plan) -> Result<Vec<u8>, Fault> {
    let outcome = core.outcome(alloc)?;
    let text = unsettled_text(alloc, plan.scripts(), &outcome, core.history(), false);
    drop(outcome);
    text
}

/// What `StealRound::deal` gives, as its passes, and the pieces that are left where none of these takes any.
fn of_round(alloc: Global, plan: &Plan, stage: &mut Stage) -> Result<Vec<u8>, Fault> {
    *stage = Stage::Within;
    let (round, passes) = StealRound::deal(alloc, ROUND, plan.process_count(), WORKERS)?;
    *stage = Stage::After;
    let text = workers_text(alloc, passes.as_slice());
    let left = round.finish(passes);
    let mut text = text?;
    push_pieces(&mut text, left.as_slice())?;
    Ok(text.into_bytes())
}

/// What `run_any` gives by one worker, as its report.
fn of_workers(
    rt: &(impl AllocGlobal + Threads + Wait + Sync),
    plan: &Plan,
    stage: &mut Stage,
) -> Result<Vec<u8>, Fault> {
    *stage = Stage::Within;
    let (outcome, order) = run_any(rt, rt.alloc(), plan, 1, &OpenGate)?;
    *stage = Stage::After;
    drop(order);
    report_text(rt.alloc(), plan.scripts(), &outcome, false)
}

/// The marks and the findings of a plan.
fn judge(
    rt: &(impl AllocGlobal + Threads + Sync),
    plan: &Plan,
) -> Result<(HappensBefore, Vec<Finding>), Fault>
    ensures marks { IfOk result (λ r. AreMarks (plan_of plan.now) r.0) }
    ensures findings { IfOk result (λ r. AreFindings plan.now r.1.items) }
{
    let marks = HappensBefore::of(rt.alloc(), plan)?;
    match findings(rt, rt.alloc(), plan, &marks) {
        Ok(found) => Ok((marks, found)),
        Err(fault) => {
            drop(marks);
            Err(fault)
        }
    }
}

/// The plan of a file as a settled one; `None` where something is found.
fn settle(rt: &(impl AllocGlobal + Threads + Sync), file: &[u8]) -> Result<Option<Settled>, Fault> {
    let plan = plan_of_text(rt.alloc(), file)?;
    match judge(rt, &plan) {
        Ok((marks, found)) => match Settled::try_new(plan, marks, found) {
            Ok(settled) => Ok(Some(settled)),
            Err(unsettled) => {
                drop(unsettled);
                Ok(None)
            }
        },
        Err(fault) => {
            drop(plan);
            Err(fault)
        }
    }
}

/// What `Board::new` gives over a file; nothing where something is found.
fn of_board(
    rt: &(impl AllocGlobal + Threads + Sync),
    file: &[u8],
    stage: &mut Stage,
) -> Result<Vec<u8>, Fault> {
    let Some(settled) = settle(rt, file)? else {
        return Ok(Vec::new(rt.alloc()));
    };
    let text = seated_text(rt.alloc(), &settled, stage);
    drop(settled);
    text
}

/// A board with its seats, which are all of it.
fn seat_all(alloc: Global, settled: &Settled) -> Result<(Board, Vec<Seat>), Fault>
    ensures plan { IfOk result (λ made. made.0.plan ≡ settled.now) }
    ensures seats { IfOk result (λ made. All (λ seat. seat.board ≡ made.0) made.1.items) }
{
    Board::new(alloc, settled)
}

/// What `Board::new` gives, as what its seats show, and its words.
fn seated_text(alloc: Global, settled: &Settled, stage: &mut Stage) -> Result<Vec<u8>, Fault> {
    *stage = Stage::Within;
    let (board, seats) = seat_all(alloc, settled)?;
    *stage = Stage::After;
    let text = seats_text(alloc, settled, &board, seats.as_slice());
    let words = board.close(alloc, seats);
    let mut text = text?;
    push_words(&mut text, words?.as_slice())?;
    Ok(text.into_bytes())
}
