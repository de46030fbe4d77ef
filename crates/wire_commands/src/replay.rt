//! `replay`: the run of a plan by threads, in lines or as JSON.

ghost use Rattle.std.specs.Prelude.{◌≡◌, ◌≢◌, ◌⊎◌, [], Ok, Err, OnOk, IfOk, IfErr};
ghost use Rattle.wire_types.specs.declared.Fault.TheVariants.{Memory, Read, Workers};
ghost use Rattle.wire_types.specs.Counting.{one_more};
ghost use Rattle.wire_types.specs.Outcome.{ends_of};
ghost use Rattle.wire_core.specs.EndsAfter.{plain_ends};
ghost use Rattle.wire_scripts.specs.Planned.{plan_of};
ghost use Rattle.wire_happens_before.specs.Clocks.{AreMarks};
ghost use Rattle.wire_findings.specs.Findings.{AreFindings};
ghost use Rattle.wire_parallel_run.specs.Collect.{MayWork};
ghost use Rattle.wire_command.specs.declared.ended.Ended.TheVariants.{Clean};
ghost use Rattle.wire_command.specs.Command.{BreaksOffText, TellsSomehow, WritesText};
ghost use Rattle.wire_commands.specs.Complete.{TellsCalls, JudgesCalls, line_in, complete_status};
ghost use Rattle.wire_commands.specs.Replay.{IsReplay, JudgesPlan, TellsEnd, TellsFound, TellsRun};
ghost use Rattle.wire_commands.specs.Replay.{WritesOneEnd, WritesReplay, BreaksOffReplay, StopsBeforeReplay};

use crate::complete::tell_failure;
use std::alloc::Global;
use std::sync::Wait;
use std::thread::Threads;
use wire_command::{Ended, Shared, read_scripts};
use wire_findings::FindingList;
use wire_happens_before::HappensBefore;
use wire_parallel_run::{MOST_WORKERS, run_any, run_workers};
use wire_plan::Plan;
use wire_races::laws::settled_exactly;
use wire_races::{Settled, finding_list};
use wire_reader::Size;
use wire_report::{report_text, unsettled_text, write_findings, write_text};
use wire_sched::Gate;
use wire_scripts::Scripts;
use wire_standstill::standstill_report;
use wire_types::{Fault, Outcome, Sink, Source};

/// What a replay writes.
#[derive(Clone, Copy)]
pub struct Mode {
    /// JSON in place of lines.
    pub json: bool,
    /// A plan in which something is found is run too.
    pub anyway: bool,
    /// With JSON, where nothing is found, who waits for ever is written with the report.
    pub explain: bool,
}

/// How a plan is replayed: within which limits, by how many workers at most, and what is written. The
/// workers call the gate.
#[derive_where(Clone, Copy)]
pub struct ReplaySettings<'a, G> {
    pub size: Size,
    pub workers: usize,
    pub mode: Mode,
    pub gate: &'a G,
}

/// How a replay ended, and the line of the first call that doesn't succeed, where nothing was found and there is
/// such a call.
#[derive(Drop)]
pub struct Replayed {
    pub ended: Ended,
    pub failure: Option<Vec<u8>>,
}

impl Replayed {
    /// The exit status: 0 where nothing was found and every call succeeds, else 1.
    pub fn status(&self) -> u8
        ensures { result ≡ complete_status self.now.ended self.now.failure }
    {
        match &self.failure {
            Some(_) => 1,
            None => self.ended.status(),
        }
    }
}

/// Replays a plan with at most so many workers at once (`run_any` of `wire_parallel_run` says how; no clause says how many
/// there were): reads its file to the end, judges it as `check` does, and writes what came of it, as lines or as JSON.
///
/// Where there is nothing to find, it runs the plan and writes what became of every call: the same for any number of
/// workers, the report of the plain run. With `explain` the JSON also has who waits for ever there. It answers `Clean`,
/// and the line of the report of the first call that isn't answered `PMIX_SUCCESS`, in process order and then by its
/// number. That line is the same for every interleaving that can't go on; there is none exactly where in each of them
/// every call is answered `PMIX_SUCCESS`.
///
/// Else it writes the findings, as `check` does, or, with `anyway`, it runs the plan in spite of them and writes what
/// became of every call and in which order the steps came. Followed in that order, the plan gives the same report. It
/// answers `Found`, and no line.
///
/// The fault `Workers` comes before all else, where there is no worker or more than 64. The fault of a plan is the
/// first that its file has. After the fault `Write` the front of the text that it counts is written, after any other
/// fault nothing. `Memory` may come in place of any other answer but `Workers`. What is said of bytes is said where the
/// reader and the writer tell theirs.
pub fn replay_plan<R: Source, W: Sink, T: Threads + Wait + Sync, G: Gate + Sync>(
    rt: &T,
    alloc: Global,
    reader: &mut R,
    writer: &mut W,
    manner: ReplaySettings<'_, G>,
) -> Result<Replayed, Fault>
    ensures ok { IfOk result (λ r. WritesReplay manner.entry.size manner.entry.mode
        (R.coming reader.old) r.ended (W.written writer.old) (W.written writer.new)) }
    ensures calls { IfOk result (λ r. JudgesCalls manner.entry.size (R.coming reader.old) r.ended (line_in r.failure)) }
    ensures quiet { OnOk result ((R.failures reader.new ≡ R.failures reader.old) × (W.failures writer.new ≡ W.failures writer.old)) }

    // The headline: where it finds nothing, every interleaving that can't go on ends in one state, and the report of
    // that state is what it writes, whatever the workers.
    ensures one_end { IfOk result (λ r. r.ended ≡ Clean
        → WritesOneEnd manner.entry.size manner.entry.mode (R.coming reader.old) (W.written writer.old) (W.written writer.new)) }

    // Either nothing was written, or the front of the text that the fault counts.
    ensures err { IfErr result (λ e. (StopsBeforeReplay manner.entry.size manner.entry.workers (R.coming reader.old) e × (writer.new ≡ writer.old))
        ⊎ (BreaksOffReplay manner.entry.size manner.entry.mode (R.coming reader.old) (W.written writer.old) (W.written writer.new) e
        × (W.failures writer.new ≡ one_more (W.failures writer.old)))) }

    // Nothing is read where there can't be so many workers.
    ensures workers { (MayWork manner.entry.workers → ⊥) → (result ≡ Err Workers) × (reader.new ≡ reader.old) }

    // A failed read is answered only where the reader failed.
    ensures read_failed { result ≡ Err Read → R.failures reader.new ≡ one_more (R.failures reader.old) }
    ensures unfailed { IfErr result (λ e. e ≢ Memory → e ≢ Read → R.failures reader.new ≡ R.failures reader.old) }
{
    if manner.workers < 1 || MOST_WORKERS < manner.workers {
        return Err(Fault::Workers);
    }
    let scripts = read_scripts(&Shared { rt }, alloc, manner.size, reader)?;
    replay_scripts(rt, alloc, scripts, manner, writer)
}

/// A plan in which something is found, with what is found.
struct PlanWithFindings {
    plan: Plan,
    findings: FindingList,
}

// By hand and not derived: so dropping one is a call, and the proof of a function that drops one doesn't take it apart.
impl Drop for PlanWithFindings {
    fn drop(self) {
        let PlanWithFindings {
            plan: _,
            findings: _,
        } = self;
    }
}

/// The marks and the findings of a plan.
fn find_races(
    rt: &(impl Threads + Sync),
    alloc: Global,
    plan: &Plan,
) -> Result<(HappensBefore, FindingList), Fault>
    ensures marks { IfOk result (λ m. AreMarks (plan_of plan.now) m.0) }
    ensures findings { IfOk result (λ m. AreFindings plan.now m.1) }
    ensures err { IfErr result (λ e. e ≡ Memory) }
{
    let marks = HappensBefore::of(alloc, plan)?;
    let found = finding_list(rt, alloc, &marks.with(plan))?;
    Ok((marks, found))
}

/// A plan that was judged.
enum Verdict {
    /// Nothing is found in it.
    Clean(Settled),
    Found(PlanWithFindings),
}

/// A plan with its marks, and what is found in it, as a plan that was judged.
fn judge_marked(alloc: Global, plan: Plan, marks: HappensBefore, findings: FindingList) -> Verdict
    requires marks { AreMarks (plan_of plan) marks }
    requires those { AreFindings plan findings }
    ensures { JudgesPlan plan result }
{
    if !findings.is_empty() {
        return Verdict::Found(PlanWithFindings { plan, findings });
    }
    match Settled::try_new(plan, marks, Vec::new(alloc)) {
        Ok(settled) => Verdict::Clean(settled),
        Err(_) => unreachable!(),
    }
}

/// Judges the plan of scripts.
fn judge_scripts(
    rt: &(impl Threads + Sync),
    alloc: Global,
    scripts: Scripts,
) -> Result<Verdict, Fault>
    ensures ok { IfOk result (JudgesPlan scripts) }
    ensures err { IfErr result (λ e. e ≡ Memory) }
{
    let plan = Plan::build(alloc, scripts)?;
    match find_races(rt, alloc, &plan) {
        Ok((marks, found)) => Ok(judge_marked(alloc, plan, marks, found)),
        Err(fault) => {
            drop(plan);
            Err(fault)
        }
    }
}

/// The report of a settled plan, of whose plain run this is the outcome, in the form that is asked for.
#[tactic(auto, using(crate::proofs::Worked::standstill_tells, crate::proofs::Worked::report_told))]
fn settled_text(alloc: Global, plan: &Plan, outcome: &Outcome, mode: Mode) -> Result<Vec<u8>, Fault>
    requires { ends_of outcome.now ≡ plain_ends plan.now }
    ensures tells { IfOk result (λ text. TellsEnd mode.json mode.explain plan.now text.items) }
    ensures err { IfErr result (λ e. e ≡ Memory) }
{
    if mode.json && mode.explain {
        standstill_report(alloc, plan, outcome)
    } else {
        Ok(report_text(alloc, plan.scripts(), outcome, mode.json)?)
    }
}

/// How a replay of a settled plan ends, and the report of its run.
fn run_settled<R: Threads + Wait + Sync, G: Gate + Sync>(
    rt: &R,
    alloc: Global,
    settled: &Settled,
    manner: ReplaySettings<'_, G>,
) -> Result<(Replayed, Vec<u8>), Fault>
    requires workers { MayWork manner.workers }
    requires none { AreFindings settled.now [] }
    ensures ok { IfOk result (λ r. IsReplay manner.entry.mode settled.now r.1.items r.0.ended) }
    ensures calls { IfOk result (λ r. TellsCalls settled.now r.0.ended (line_in r.0.failure)) }
    ensures err { IfErr result (λ e. e ≡ Memory) }
{
    let outcome = run_workers(rt, alloc, settled, manner.workers, manner.gate)?;
    let text = settled_text(alloc, settled.plan(), &outcome, manner.mode)?;
    let failure = tell_failure(alloc, settled.plan().scripts(), &outcome)?;
    settled_exactly();
    let ended = Ended::Clean;
    Ok((Replayed { ended, failure }, text))
}

/// Runs a settled plan, writes the report of its run, and says how its replay ends.
fn replay_settled<R: Threads + Wait + Sync, G: Gate + Sync, W: Sink>(
    rt: &R,
    alloc: Global,
    settled: &Settled,
    manner: ReplaySettings<'_, G>,
    writer: &mut W,
) -> Result<Replayed, Fault>
    requires workers { MayWork manner.workers }
    requires none { AreFindings settled.now [] }
    ensures ok { IfOk result (λ r. WritesText (λ text. IsReplay manner.entry.mode settled.now text r.ended) (W.written writer.old) (W.written writer.new)) }
    ensures calls { IfOk result (λ r. TellsCalls settled.now r.ended (line_in r.failure)) }
    ensures quiet { OnOk result (W.failures writer.new ≡ W.failures writer.old) }
    ensures err { IfErr result (λ e. ((e ≡ Memory) × (writer.new ≡ writer.old))
        ⊎ (BreaksOffText (TellsSomehow (IsReplay manner.entry.mode settled.now)) (W.written writer.old) (W.written writer.new) e
        × (W.failures writer.new ≡ one_more (W.failures writer.old)))) }
{
    let (replayed, text) = run_settled(rt, alloc, settled, manner)?;
    write_text(writer, text.as_slice())?;
    Ok(replayed)
}

/// The text of a run of any plan, with its order.
fn run_anyway<R: Threads + Wait + Sync, G: Gate + Sync>(
    rt: &R,
    alloc: Global,
    plan: &Plan,
    manner: ReplaySettings<'_, G>,
) -> Result<Vec<u8>, Fault>
    requires { MayWork manner.workers }
    ensures ok { IfOk result (λ text. TellsRun manner.entry.mode.json plan.now text.items) }
    ensures err { IfErr result (λ e. e ≡ Memory) }
{
    let (outcome, order) = run_any(rt, alloc, plan, manner.workers, manner.gate)?;
    unsettled_text(
        alloc,
        plan.scripts(),
        &outcome,
        order.as_slice(),
        manner.mode.json,
    )
}

/// Writes what a replay tells of a plan in which something is found: the findings, or a run in spite of them.
fn write_found<R: Threads + Wait + Sync, G: Gate + Sync, W: Sink>(
    rt: &R,
    alloc: Global,
    found: &PlanWithFindings,
    manner: ReplaySettings<'_, G>,
    writer: &mut W,
) -> Result<(), Fault>
    requires { MayWork manner.workers }
    ensures ok { OnOk result (WritesText (TellsFound manner.entry.mode.json manner.entry.mode.anyway found.now.plan found.now.findings)
        (W.written writer.old) (W.written writer.new)) }
    ensures quiet { OnOk result (W.failures writer.new ≡ W.failures writer.old) }
    ensures err { IfErr result (λ e. ((e ≡ Memory) × (writer.new ≡ writer.old))
        ⊎ (BreaksOffText (TellsFound manner.entry.mode.json manner.entry.mode.anyway found.now.plan found.now.findings)
        (W.written writer.old) (W.written writer.new) e
        × (W.failures writer.new ≡ one_more (W.failures writer.old)))) }
{
    if manner.mode.anyway {
        let text = run_anyway(rt, alloc, &found.plan, manner)?;
        return write_text(writer, text.as_slice());
    }
    let scripts = found.plan.scripts();
    write_findings(alloc, scripts, &found.findings, manner.mode.json, writer)
}

/// Writes what a replay tells of a plan in which something is found, and says how it ends.
fn replay_found<R: Threads + Wait + Sync, G: Gate + Sync, W: Sink>(
    rt: &R,
    alloc: Global,
    found: &PlanWithFindings,
    manner: ReplaySettings<'_, G>,
    writer: &mut W,
) -> Result<Replayed, Fault>
    requires workers { MayWork manner.workers }
    requires those { AreFindings found.now.plan found.now.findings }
    requires some { found.now.findings ≢ [] }
    ensures ok { IfOk result (λ r. WritesText (λ text. IsReplay manner.entry.mode found.now.plan text r.ended)
        (W.written writer.old) (W.written writer.new)) }
    ensures calls { IfOk result (λ r. TellsCalls found.now.plan r.ended (line_in r.failure)) }
    ensures quiet { OnOk result (W.failures writer.new ≡ W.failures writer.old) }
    ensures err { IfErr result (λ e. ((e ≡ Memory) × (writer.new ≡ writer.old))
        ⊎ (BreaksOffText (TellsSomehow (IsReplay manner.entry.mode found.now.plan)) (W.written writer.old) (W.written writer.new) e
        × (W.failures writer.new ≡ one_more (W.failures writer.old)))) }
{
    settled_exactly();
    let ended = Ended::of_count(found.findings.len());
    write_found(rt, alloc, found, manner, writer)?;
    Ok(Replayed {
        ended,
        failure: None,
    })
}

/// Replays scripts: writes what came of it, and says how it ends.
fn replay_scripts<R: Threads + Wait + Sync, G: Gate + Sync, W: Sink>(
    rt: &R,
    alloc: Global,
    scripts: Scripts,
    manner: ReplaySettings<'_, G>,
    writer: &mut W,
) -> Result<Replayed, Fault>
    requires workers { MayWork manner.workers }
    ensures ok { IfOk result (λ r. WritesText (λ text. IsReplay manner.entry.mode scripts text r.ended) (W.written writer.old) (W.written writer.new)) }
    ensures calls { IfOk result (λ r. TellsCalls scripts r.ended (line_in r.failure)) }
    ensures quiet { OnOk result (W.failures writer.new ≡ W.failures writer.old) }
    ensures err { IfErr result (λ e. ((e ≡ Memory) × (writer.new ≡ writer.old))
        ⊎ (BreaksOffText (TellsSomehow (IsReplay manner.entry.mode scripts)) (W.written writer.old) (W.written writer.new) e
        × (W.failures writer.new ≡ one_more (W.failures writer.old)))) }
{
    match judge_scripts(rt, alloc, scripts)? {
        Verdict::Clean(settled) => {
            let end = replay_settled(rt, alloc, &settled, manner, writer);
            drop(settled);
            end
        }
        Verdict::Found(found) => {
            let end = replay_found(rt, alloc, &found, manner, writer);
            drop(found);
            end
        }
    }
}
