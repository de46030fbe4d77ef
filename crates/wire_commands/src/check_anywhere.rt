//! `check --anywhere`: the findings of all placements of a plan's ranks, in lines or as JSON; with places in groups.

ghost use Rattle.std.specs.Thread.{IsSync};
ghost use Rattle.std.specs.Prelude.{◌≡◌, ◌≢◌, ◌⊎◌, Ok, Err, OnOk, IfOk, IfErr, length};
ghost use Rattle.wire_types.specs.declared.Fault.TheVariants.{Memory, Read};
ghost use Rattle.wire_types.specs.Counting.{one_more};
ghost use Rattle.wire_anywhere.specs.Anywhere.{AreFoundAnywhere};
ghost use Rattle.wire_command.specs.declared.ended.Ended.TheVariants.{Clean};
ghost use Rattle.wire_command.specs.Answer.{BreaksOff, Writes, rows_in};
ghost use Rattle.wire_commands.specs.Check.{StopsBeforeFindings};
ghost use Rattle.wire_commands.specs.CheckAnywhere.{EndsInOneStateAnywhere, IsVerdictAnywhere};
ghost use Rattle.wire_command.specs.Ending.{ended_of};

use std::alloc::Global;
use std::thread::Threads;
use wire_anywhere::laws::settled_exactly;
use wire_anywhere::{PlacedList, find_anywhere};
use wire_anywhere_report::on_placement_text;
use wire_command::{
    Answer, AnswerStyle, Command, CommandOptions, CommandRun, Ended, Shared, run_command,
};
use wire_happens_before::{HappensBefore, MarkedPlan};
use wire_plan::Plan;
use wire_scripts::Scripts;
use wire_types::{Fault, Sink, Source};

/// Checks a plan on every placement of its ranks: reads it to its end, and writes every finding that some placement
/// has, as `check` would write it there. Behind a race on a key stand two ranks: where these share a node, and all
/// others are elsewhere, it races. A key that is put twice and a race on a name are found on every placement.
///
/// With places the findings stand in groups, as those of `check`.
///
/// It answers `Clean` exactly where no placement has anything to find. The faults are those of `check`.
pub fn check_placements<R: Source, W: Sink>(
    rt: &(impl Threads + Sync),
    alloc: Global,
    manner: CommandOptions<'_>,
    reader: &mut R,
    writer: &mut W,
) -> Result<Ended, Fault>
    ensures ok { IfOk result (λ ended. Writes manner.entry.size manner.entry.form (R.coming reader.old)
        (IsVerdictAnywhere manner.entry.form manner.entry.name.now) ended (W.written writer.old) (W.written writer.new)) }
    ensures quiet { OnOk result ((R.failures reader.new ≡ R.failures reader.old) × (W.failures writer.new ≡ W.failures writer.old)) }

    // The headline: where it finds nothing, on each placement every interleaving that can't go on ends in one state.
    ensures one_end { result ≡ Ok Clean → EndsInOneStateAnywhere manner.entry.size (R.coming reader.old) }

    // Either nothing was written, or the front of the text that the fault counts.
    ensures err { IfErr result (λ e. (StopsBeforeFindings manner.entry.size (R.coming reader.old) e × (writer.new ≡ writer.old))
        ⊎ (BreaksOff manner.entry.size manner.entry.form (R.coming reader.old) (IsVerdictAnywhere manner.entry.form manner.entry.name.now)
        (W.written writer.old) (W.written writer.new) e × (W.failures writer.new ≡ one_more (W.failures writer.old)))) }

    // A failed read is answered only where the reader failed.
    ensures read_failed { result ≡ Err Read → R.failures reader.new ≡ one_more (R.failures reader.old) }
    ensures unfailed { IfErr result (λ e. e ≢ Memory → e ≢ Read → R.failures reader.new ≡ R.failures reader.old) }
{
    let run = CommandRun {
        command: &Anywhere { rt },
        lines: &Shared { rt },
        options: manner,
    };
    run_command(alloc, run, reader, writer)
}

/// The answer about all placements.
#[derive(Drop)]
struct Anywhere<'r, R> {
    rt: &'r R,
}

impl<R: Threads + Sync> Command for Anywhere<'_, R> {
    ghost needs = { λ _. IsSync R.row };

    ghost tells = { λ _ form name. IsVerdictAnywhere form name };

    ghost refuses = { λ _ _ _. ⊥ };

    fn answer(
        &self,
        alloc: Global,
        scripts: Scripts,
        telling: AnswerStyle<'_>,
    ) -> Result<Answer, Fault> {
        answer_scripts(self.rt, alloc, scripts, telling)
    }
}

/// The answer about the placements of scripts.
fn answer_scripts(
    rt: &(impl Threads + Sync),
    alloc: Global,
    scripts: Scripts,
    telling: AnswerStyle<'_>,
) -> Result<Answer, Fault>
    ensures ok { IfOk result (λ answer. IsVerdictAnywhere telling.entry.form telling.entry.places.name.now scripts
        (rows_in telling.entry.places) answer.text.items answer.ended) }
    ensures err { IfErr result (λ e. e ≡ Memory) }
{
    let plan = Plan::build(alloc, scripts)?;
    let answer = answer_plan(rt, alloc, &plan, telling);
    drop(plan);
    answer
}

/// The answer about the placements of a plan.
fn answer_plan(
    rt: &(impl Threads + Sync),
    alloc: Global,
    plan: &Plan,
    telling: AnswerStyle<'_>,
) -> Result<Answer, Fault>
    ensures ok { IfOk result (λ answer. IsVerdictAnywhere telling.entry.form telling.entry.places.name.now plan.now
        (rows_in telling.entry.places) answer.text.items answer.ended) }
    ensures err { IfErr result (λ e. e ≡ Memory) }
{
    let marks = HappensBefore::of(alloc, plan)?;
    let marked = marks.with(plan);
    let found = find_anywhere(rt, alloc, &marked)?;
    answer_found(alloc, &marked, telling, &found)
}

/// The answer that tells these findings, which are all of all placements.
pub fn answer_found(
    alloc: Global,
    marked: &MarkedPlan<'_>,
    telling: AnswerStyle<'_>,
    found: &PlacedList,
) -> Result<Answer, Fault>
    requires { AreFoundAnywhere marked.now found.now }
    ensures ok { IfOk result (λ answer. IsVerdictAnywhere telling.entry.form telling.entry.places.name.now marked.now
        (rows_in telling.entry.places) answer.text.items answer.ended) }
    ensures count { IfOk result (λ answer. answer.ended ≡ ended_of (length found.now)) }
    ensures err { IfErr result (λ e. e ≡ Memory) }
{
    let scripts = marked.plan().scripts();
    let text = on_placement_text(alloc, scripts, telling.places, telling.form, found)?;
    settled_exactly();
    Ok(Answer {
        text,
        ended: Ended::of_count(found.len()),
    })
}
