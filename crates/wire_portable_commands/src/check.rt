//! `check --portable`: the findings of a plan, or of all its placements, and on which libraries each run does as the
//! rules say.

ghost use Rattle.std.specs.Prelude.{◌≡◌, ◌≢◌, ◌⊎◌, Ok, Err, false, true, length, OnOk, IfOk, IfErr};
ghost use Rattle.wire_types.specs.declared.Fault.TheVariants.{Memory, Read};
ghost use Rattle.wire_types.specs.Counting.{one_more};
ghost use Rattle.wire_portable.specs.Unportable.{AreUnportableOn};
ghost use Rattle.wire_command.specs.declared.ended.Ended.TheVariants.{Clean};
ghost use Rattle.wire_command.specs.Answer.{BreaksOff, Writes, rows_in};
ghost use Rattle.wire_commands.specs.Check.{StopsBeforeFindings};
ghost use Rattle.wire_portable_commands.specs.CheckPortable as spec;
ghost use Rattle.wire_portable_commands.specs.CheckPortable.{EndsOnLibraries, IsPortableVerdict, IsVerdictOn, TellsLibraries};

use crate::reading::read_spelled;
use crate::text::tell_libraries;
use std::alloc::Global;
use std::thread::Threads;
use wire_anywhere::find_anywhere;
use wire_anywhere::laws::settled_exactly as settled_anywhere_exactly;
use wire_command::{Answer, AnswerStyle, CommandOptions, Ended, write_answer};
use wire_commands::{answer_findings, answer_found};
use wire_happens_before::{HappensBefore, MarkedPlan};
use wire_library_laws::laws::{ends_by_rules, library_one_end, portable_there, refines};
use wire_plan::Plan;
use wire_portable::{UnportableList, find_unportable, find_unportable_anywhere};
use wire_races::finding_list;
use wire_races::laws::settled_exactly;
use wire_report::SourceLines;
use wire_scripts::Scripts;
use wire_spelling::Spelling;
use wire_types::{Fault, Sink, Source};

/// How the command is to work, and whether on every placement of the ranks.
#[derive(Clone, Copy)]
pub struct PortableAsked<'a> {
    pub manner: CommandOptions<'a>,
    pub anywhere: bool,
}

/// Checks a plan on its placement, or on every one, as `check_plan` and `check_placements` do. Behind the findings it
/// writes each call by which the plan isn't portable, with the rule and the libraries (that each breaks the rule is
/// only tested), and last the libraries for which there is none: on these, what is answered in a run is an interleaving
/// by the rules, with the same replies.
///
/// With places the calls are in groups, one for each rule. As JSON they are objects.
///
/// It answers `Clean` exactly where nothing is found and no call is blamed, else how many calls, or where none is, how
/// many findings there are. The faults are those of `check`.
pub fn check_portable<R: Source, W: Sink>(
    rt: &(impl Threads + Sync),
    alloc: Global,
    asked: PortableAsked<'_>,
    reader: &mut R,
    writer: &mut W,
) -> Result<Ended, Fault>
    ensures ok { IfOk result (λ ended. Writes asked.entry.manner.size asked.entry.manner.form (R.coming reader.old)
        (IsPortableVerdict asked.entry.manner.size (R.coming reader.old) asked.entry.anywhere asked.entry.manner.form asked.entry.manner.name.now)
        ended (W.written writer.old) (W.written writer.new)) }
    ensures quiet { OnOk result ((R.failures reader.new ≡ R.failures reader.old) × (W.failures writer.new ≡ W.failures writer.old)) }

    // The headline: where nothing is found and no call is blamed, each run of each library that can't go on ends as the
    // plain run.
    ensures kept { result ≡ Ok Clean → EndsOnLibraries asked.entry.anywhere asked.entry.manner.size (R.coming reader.old) }

    // Either nothing was written, or the front of the text that the fault counts.
    ensures err { IfErr result (λ e. (StopsBeforeFindings asked.entry.manner.size (R.coming reader.old) e × (writer.new ≡ writer.old))
        ⊎ (BreaksOff asked.entry.manner.size asked.entry.manner.form (R.coming reader.old)
        (IsPortableVerdict asked.entry.manner.size (R.coming reader.old) asked.entry.anywhere asked.entry.manner.form asked.entry.manner.name.now)
        (W.written writer.old) (W.written writer.new) e × (W.failures writer.new ≡ one_more (W.failures writer.old)))) }

    // A failed read is answered only where the reader failed.
    ensures read_failed { result ≡ Err Read → R.failures reader.new ≡ one_more (R.failures reader.old) }
    ensures unfailed { IfErr result (λ e. e ≢ Memory → e ≢ Read → R.failures reader.new ≡ R.failures reader.old) }
{
    let ((scripts, rows), spelling) = read_spelled(rt, alloc, asked.manner, reader)?;
    let places = SourceLines {
        name: asked.manner.name,
        rows: rows.as_slice(),
    };
    let telling = AnswerStyle {
        places,
        form: asked.manner.form,
    };
    let judging = Judging {
        telling,
        spelling: &spelling,
        anywhere: asked.anywhere,
    };
    let answer = answer_scripts(rt, alloc, scripts, judging)?;
    write_answer(writer, &answer)
}

/// How scripts are judged: how fences spell their sets, on which placements, and how the answer is told.
#[derive(Clone, Copy)]
struct Judging<'a> {
    telling: AnswerStyle<'a>,
    spelling: &'a Spelling,
    anywhere: bool,
}

/// The answer about scripts.
fn answer_scripts(
    rt: &(impl Threads + Sync),
    alloc: Global,
    scripts: Scripts,
    judging: Judging<'_>,
) -> Result<Answer, Fault>
    ensures ok { IfOk result (λ answer. TellsLibraries judging.entry.anywhere judging.entry.telling.form judging.entry.telling.places.name.now
        judging.entry.spelling.now scripts (rows_in judging.entry.telling.places) answer.text.items answer.ended) }
    ensures err { IfErr result (λ e. e ≡ Memory) }
{
    let plan = Plan::build(alloc, scripts)?;
    let answer = answer_plan(rt, alloc, &plan, judging);
    drop(plan);
    answer
}

/// The answer about a plan.
fn answer_plan(
    rt: &(impl Threads + Sync),
    alloc: Global,
    plan: &Plan,
    judging: Judging<'_>,
) -> Result<Answer, Fault>
    ensures ok { IfOk result (λ answer. TellsLibraries judging.entry.anywhere judging.entry.telling.form judging.entry.telling.places.name.now
        judging.entry.spelling.now plan.now (rows_in judging.entry.telling.places) answer.text.items answer.ended) }
    ensures err { IfErr result (λ e. e ≡ Memory) }
{
    let marks = HappensBefore::of(alloc, plan)?;
    let marked = marks.with(plan);
    let judged = judge(rt, alloc, &marked, judging)?;
    tell(alloc, plan.scripts(), judging, judged)
}

/// The answer about the findings, and the calls by which the plan isn't portable.
struct Judged {
    told: Answer,
    lines: UnportableList,
}

/// Judges a plan on the placements that are asked for.
fn judge(
    rt: &(impl Threads + Sync),
    alloc: Global,
    marked: &MarkedPlan<'_>,
    judging: Judging<'_>,
) -> Result<Judged, Fault>
    ensures told { IfOk result (λ judged. IsVerdictOn judging.entry.anywhere judging.entry.telling.form judging.entry.telling.places.name.now
        marked.now (rows_in judging.entry.telling.places) judged.told.text.items judged.told.ended) }
    ensures lines { IfOk result (λ judged. AreUnportableOn judging.entry.anywhere marked.now judging.entry.spelling.now judged.lines) }
    ensures err { IfErr result (λ e. e ≡ Memory) }
{
    if judging.anywhere {
        judge_anywhere(rt, alloc, marked, judging)
    } else {
        judge_written(rt, alloc, marked, judging)
    }
}

/// Judges a plan on its nodes.
fn judge_written(
    rt: &(impl Threads + Sync),
    alloc: Global,
    marked: &MarkedPlan<'_>,
    judging: Judging<'_>,
) -> Result<Judged, Fault>
    ensures told { IfOk result (λ judged. IsVerdictOn false judging.entry.telling.form judging.entry.telling.places.name.now
        marked.now (rows_in judging.entry.telling.places) judged.told.text.items judged.told.ended) }
    ensures lines { IfOk result (λ judged. AreUnportableOn false marked.now judging.entry.spelling.now judged.lines) }
    ensures err { IfErr result (λ e. e ≡ Memory) }
{
    let found = finding_list(rt, alloc, marked)?;
    settled_exactly();
    let lines = find_unportable(alloc, marked, judging.spelling, found.is_empty())?;
    let told = answer_findings(alloc, marked.plan().scripts(), judging.telling, &found)?;
    Ok(Judged { told, lines })
}

/// Judges a plan on every placement.
fn judge_anywhere(
    rt: &(impl Threads + Sync),
    alloc: Global,
    marked: &MarkedPlan<'_>,
    judging: Judging<'_>,
) -> Result<Judged, Fault>
    ensures told { IfOk result (λ judged. IsVerdictOn true judging.entry.telling.form judging.entry.telling.places.name.now
        marked.now (rows_in judging.entry.telling.places) judged.told.text.items judged.told.ended) }
    ensures lines { IfOk result (λ judged. AreUnportableOn true marked.now judging.entry.spelling.now judged.lines) }
    ensures err { IfErr result (λ e. e ≡ Memory) }
{
    let found = find_anywhere(rt, alloc, marked)?;
    settled_anywhere_exactly();
    let lines = find_unportable_anywhere(alloc, marked, judging.spelling, found.is_empty())?;
    let told = answer_found(alloc, marked, judging.telling, &found)?;
    Ok(Judged { told, lines })
}

/// How the check ends: as that of the findings, or where calls are blamed with so many.
fn ended_beside(ended: Ended, count: usize) -> Ended
    ensures { result ≡ spec.ended_beside ended count }
{
    match count {
        0 => ended,
        count => Ended::Found(count as u64),
    }
}

/// The answer that tells both.
fn tell(
    alloc: Global,
    scripts: &Scripts,
    judging: Judging<'_>,
    judged: Judged,
) -> Result<Answer, Fault>
    requires told { IsVerdictOn judging.anywhere judging.telling.form judging.telling.places.name.now
        scripts.now (rows_in judging.telling.places) judged.told.text.items judged.told.ended }
    requires lines { AreUnportableOn judging.anywhere scripts.now judging.spelling.now judged.lines }
    ensures ok { IfOk result (λ answer. TellsLibraries judging.entry.anywhere judging.entry.telling.form judging.entry.telling.places.name.now
        judging.entry.spelling.now scripts.now (rows_in judging.entry.telling.places) answer.text.items answer.ended) }
    ensures err { IfErr result (λ e. e ≡ Memory) }
{
    let Judged { told, lines } = judged;
    let Answer { mut text, ended } = told;
    tell_libraries(alloc, &mut text, scripts, judging.telling, lines.as_slice())?;
    refines();
    ends_by_rules();
    library_one_end();
    portable_there();
    Ok(Answer {
        text,
        ended: ended_beside(ended, lines.len()),
    })
}
