//! `check --anywhere --same`: the findings of all placements of a plan's ranks, and where there are none the calls that
//! don't reply the same on all of them.

ghost use Rattle.std.specs.Thread.{IsSync};
ghost use Rattle.std.specs.Prelude.{◌≡◌, ◌≢◌, ◌⊎◌, Ok, Err, OnOk, IfOk, IfErr};
ghost use Rattle.wire_types.specs.declared.Fault.TheVariants.{Memory, Read};
ghost use Rattle.wire_types.specs.Counting.{one_more};
ghost use Rattle.wire_scripts.specs.Planned.{plan_of};
ghost use Rattle.wire_runs.specs.Placings.{IsSettledAnywhere};
ghost use Rattle.wire_command.specs.declared.ended.Ended.TheVariants.{Clean};
ghost use Rattle.wire_command.specs.Answer.{BreaksOff, Writes, rows_in};
ghost use Rattle.wire_commands.specs.Check.{StopsBeforeFindings};
ghost use Rattle.wire_commands.specs.CheckSame.{IsSameEverywhere, IsSameVerdict, TellsDiffering};

use crate::check_anywhere::answer_found;
use std::alloc::Global;
use std::thread::Threads;
use wire_anywhere::laws::settled_exactly;
use wire_anywhere::{find_anywhere, find_differing};
use wire_anywhere_report::same_text;
use wire_command::{
    Answer, AnswerStyle, Command, CommandOptions, CommandRun, Ended, Shared, run_command,
};
use wire_happens_before::{HappensBefore, MarkedPlan};
use wire_plan::Plan;
use wire_runs::placing_laws::settled_anywhere;
use wire_scripts::Scripts;
use wire_types::{Fault, Sink, Source};

/// Checks a plan on every placement of its ranks, as `check_placements` does. Where nothing is found, it writes each
/// call that is answered and doesn't reply the same on every placement: what it replies where its rank shares a node
/// with the owner of the key and no other rank, and where its rank is alone on its node. Calls of reserved keys and
/// names aren't among them.
///
/// It answers `Clean` exactly where no placement has anything to find and no such call is told, else how many findings
/// or how many calls there are. The faults are those of `check`.
pub fn check_replies<R: Source, W: Sink>(
    rt: &(impl Threads + Sync),
    alloc: Global,
    manner: CommandOptions<'_>,
    reader: &mut R,
    writer: &mut W,
) -> Result<Ended, Fault>
    ensures ok { IfOk result (λ ended. Writes manner.entry.size manner.entry.form (R.coming reader.old)
        (IsSameVerdict manner.entry.form manner.entry.name.now) ended (W.written writer.old) (W.written writer.new)) }
    ensures quiet { OnOk result ((R.failures reader.new ≡ R.failures reader.old) × (W.failures writer.new ≡ W.failures writer.old)) }

    // Where nothing is found and nothing differs, each placement has one end, and each answered call replies the same.
    ensures same { result ≡ Ok Clean → IsSameEverywhere manner.entry.size (R.coming reader.old) }

    // Either nothing was written, or the front of the text that the fault counts.
    ensures err { IfErr result (λ e. (StopsBeforeFindings manner.entry.size (R.coming reader.old) e × (writer.new ≡ writer.old))
        ⊎ (BreaksOff manner.entry.size manner.entry.form (R.coming reader.old) (IsSameVerdict manner.entry.form manner.entry.name.now)
        (W.written writer.old) (W.written writer.new) e × (W.failures writer.new ≡ one_more (W.failures writer.old)))) }

    // A failed read is answered only where the reader failed.
    ensures read_failed { result ≡ Err Read → R.failures reader.new ≡ one_more (R.failures reader.old) }
    ensures unfailed { IfErr result (λ e. e ≢ Memory → e ≢ Read → R.failures reader.new ≡ R.failures reader.old) }
{
    let run = CommandRun {
        command: &SameEverywhere { rt },
        lines: &Shared { rt },
        options: manner,
    };
    run_command(alloc, run, reader, writer)
}

/// The answer about all placements, and about the replies on them.
#[derive(Drop)]
struct SameEverywhere<'r, R> {
    rt: &'r R,
}

impl<R: Threads + Sync> Command for SameEverywhere<'_, R> {
    ghost needs = { λ _. IsSync R.row };

    ghost tells = { λ _ form name. IsSameVerdict form name };

    ghost refuses = { λ _ _ _. ⊥ };

    fn answer(
        &self,
        alloc: Global,
        scripts: Scripts,
        telling: AnswerStyle<'_>,
    ) -> Result<Answer, Fault> {
        answer_scripts(self.rt, alloc, scripts, telling)
    }
}

/// The answer about the placements of scripts.
fn answer_scripts(
    rt: &(impl Threads + Sync),
    alloc: Global,
    scripts: Scripts,
    telling: AnswerStyle<'_>,
) -> Result<Answer, Fault>
    ensures ok { IfOk result (λ answer. IsSameVerdict telling.entry.form telling.entry.places.name.now scripts
        (rows_in telling.entry.places) answer.text.items answer.ended) }
    ensures err { IfErr result (λ e. e ≡ Memory) }
{
    let plan = Plan::build(alloc, scripts)?;
    let answer = answer_plan(rt, alloc, &plan, telling);
    drop(plan);
    answer
}

/// The answer about the placements of a plan.
fn answer_plan(
    rt: &(impl Threads + Sync),
    alloc: Global,
    plan: &Plan,
    telling: AnswerStyle<'_>,
) -> Result<Answer, Fault>
    ensures ok { IfOk result (λ answer. IsSameVerdict telling.entry.form telling.entry.places.name.now plan.now
        (rows_in telling.entry.places) answer.text.items answer.ended) }
    ensures err { IfErr result (λ e. e ≡ Memory) }
{
    let marks = HappensBefore::of(alloc, plan)?;
    let marked = marks.with(plan);
    let found = find_anywhere(rt, alloc, &marked)?;
    if !found.is_empty() {
        return answer_found(alloc, &marked, telling, &found);
    }
    settled_exactly();
    settled_anywhere();
    answer_settled(alloc, &marked, telling)
}

/// The answer about a plan in which nothing is found on any placement.
fn answer_settled(
    alloc: Global,
    marked: &MarkedPlan<'_>,
    telling: AnswerStyle<'_>,
) -> Result<Answer, Fault>
    requires { IsSettledAnywhere (plan_of marked.now) }
    ensures ok { IfOk result (λ answer. TellsDiffering telling.entry.form telling.entry.places.name.now marked.now
        (rows_in telling.entry.places) answer.text.items answer.ended) }
    ensures err { IfErr result (λ e. e ≡ Memory) }
{
    let differing = find_differing(alloc, marked)?;
    settled_anywhere();
    let scripts = marked.plan().scripts();
    let text = same_text(
        alloc,
        scripts,
        telling.places,
        telling.form,
        differing.as_slice(),
    )?;
    Ok(Answer {
        text,
        ended: Ended::of_count(differing.len()),
    })
}
