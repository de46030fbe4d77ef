//! `check`: the findings of a plan, in lines or as JSON; with places in groups, each call with its line in the file
//! (how one finding is written as JSON stands in `calls_json.rt`).

ghost use Rattle.std.specs.Thread.{IsSync};
ghost use Rattle.std.specs.Prelude.{◌≡◌, ◌≢◌, ◌⊎◌, Ok, Err, true, map, OnOk, IfOk, IfErr};
ghost use Rattle.wire_types.specs.declared.Fault.TheVariants.{Memory, Read};
ghost use Rattle.wire_types.specs.Counting.{one_more};
ghost use Rattle.wire_types.specs.Forms.{is_json};
ghost use Rattle.wire_types.specs.Texts.{lists_of};
ghost use Rattle.wire_findings.specs.Findings.{AreFindings};
ghost use Rattle.wire_report.specs.Findings.{findings_form};
ghost use Rattle.wire_command.specs.declared.ended.Ended.TheVariants.{Clean};
ghost use Rattle.wire_command.specs.Answer.{BreaksOff, Writes, rows_in};
ghost use Rattle.wire_command.specs.Command.{BreaksOffText, TellsSomehow, WritesText};
ghost use Rattle.wire_commands.specs.CallsJson as spec;
ghost use Rattle.wire_commands.specs.Check.{EndsInOneState, IsGroupedText};
ghost use Rattle.wire_commands.specs.Check.{IsVerdict, StopsBeforeFindings, TellsFindings};

use crate::calls_json::begin_finding;
use crate::json_builder::JsonBuilder;
use std::alloc::{AllocError, Global};
use std::thread::Threads;
use wire_command::{
    Answer, AnswerStyle, CommandOptions, CommandRun, Ended, Shared, StreamedCommand, run_streamed,
};
use wire_findings::{Finding, FindingList};
use wire_happens_before::HappensBefore;
use wire_plan::Plan;
use wire_races::finding_list;
use wire_races::laws::settled_exactly;
use wire_report::{
    Group, SourceLines, findings_text, group_findings, grouped_lines, write_findings, write_text,
};
use wire_scripts::Scripts;
use wire_types::{Fault, OutputFormat, Sink, Source};

/// Checks a plan: reads it to its end, and writes every finding: each put of a key that its process has put before, and
/// each pair of calls that race, on a key or on a name.
///
/// In a form with places the findings stand in groups. A group is one mistake: its findings are of one kind, on one key
/// or name, and their two calls do the same. In lines it has two: how many findings it has, and the two calls of the
/// first, each with the name of the file and its line there. The larger groups come first. The last line says how many
/// findings and groups there are. As JSON each finding has its two calls with their lines, and each group its count and
/// the place of its first finding among all.
///
/// It answers `Clean` exactly where there is nothing to find. Then every interleaving that can't go on ends with the
/// same reply to every call and the same processes waiting.
///
/// The fault of a file is the first that it has. After the fault `Write` the front of the text that it counts is
/// written, after any other fault nothing. `Memory` may come in place of any other answer. What is said of bytes is
/// said where the reader and the writer tell theirs.
pub fn check_plan<R: Source, W: Sink>(
    rt: &(impl Threads + Sync),
    alloc: Global,
    manner: CommandOptions<'_>,
    reader: &mut R,
    writer: &mut W,
) -> Result<Ended, Fault>
    ensures ok { IfOk result (λ ended. Writes manner.entry.size manner.entry.form (R.coming reader.old)
        (IsVerdict manner.entry.form manner.entry.name.now) ended (W.written writer.old) (W.written writer.new)) }
    ensures quiet { OnOk result ((R.failures reader.new ≡ R.failures reader.old) × (W.failures writer.new ≡ W.failures writer.old)) }

    // The headline: where it finds nothing, every interleaving that can't go on ends in one state, the plain run's.
    ensures one_end { result ≡ Ok Clean → EndsInOneState manner.entry.size (R.coming reader.old) }

    // Either nothing was written, or the front of the findings that the fault counts.
    ensures err { IfErr result (λ e. (StopsBeforeFindings manner.entry.size (R.coming reader.old) e × (writer.new ≡ writer.old))
        ⊎ (BreaksOff manner.entry.size manner.entry.form (R.coming reader.old) (IsVerdict manner.entry.form manner.entry.name.now)
        (W.written writer.old) (W.written writer.new) e × (W.failures writer.new ≡ one_more (W.failures writer.old)))) }

    // A failed read is answered only where the reader failed.
    ensures read_failed { result ≡ Err Read → R.failures reader.new ≡ one_more (R.failures reader.old) }
    ensures unfailed { IfErr result (λ e. e ≢ Memory → e ≢ Read → R.failures reader.new ≡ R.failures reader.old) }
{
    let run = CommandRun {
        command: &OnItsNodes { rt },
        lines: &Shared { rt },
        options: manner,
    };
    run_streamed(alloc, run, reader, writer)
}

/// The check of a plan on its own placement. Its findings may be many, so they are written one after the other.
#[derive(Drop)]
struct OnItsNodes<'r, R> {
    rt: &'r R,
}

impl<R: Threads + Sync> StreamedCommand for OnItsNodes<'_, R> {
    ghost needs = { λ _. IsSync R.row };

    ghost tells = { λ _ form name. IsVerdict form name };

    ghost refuses = { λ _ _ _. ⊥ };

    fn write<W: Sink>(
        &self,
        alloc: Global,
        scripts: Scripts,
        telling: AnswerStyle<'_>,
        writer: &mut W,
    ) -> Result<Ended, Fault> {
        check_scripts(self.rt, alloc, scripts, telling, writer)
    }
}

/// Writes all findings of scripts, and says how their check ends.
fn check_scripts<W: Sink>(
    rt: &(impl Threads + Sync),
    alloc: Global,
    scripts: Scripts,
    telling: AnswerStyle<'_>,
    writer: &mut W,
) -> Result<Ended, Fault>
    ensures ok { IfOk result (λ ended. WritesText (λ text. IsVerdict telling.entry.form telling.entry.places.name.now scripts
        (rows_in telling.entry.places) text ended) (W.written writer.old) (W.written writer.new)) }
    ensures quiet { OnOk result (W.failures writer.new ≡ W.failures writer.old) }
    ensures err { IfErr result (λ e. ((e ≡ Memory) × (writer.new ≡ writer.old))
        ⊎ (BreaksOffText (TellsSomehow (IsVerdict telling.entry.form telling.entry.places.name.now scripts (rows_in telling.entry.places)))
        (W.written writer.old) (W.written writer.new) e × (W.failures writer.new ≡ one_more (W.failures writer.old)))) }
{
    let plan = Plan::build(alloc, scripts)?;
    let ended = check_built(rt, alloc, &plan, telling, writer);
    drop(plan);
    ended
}

/// Writes all findings of a plan that is built, and says how its check ends.
fn check_built<W: Sink>(
    rt: &(impl Threads + Sync),
    alloc: Global,
    plan: &Plan,
    telling: AnswerStyle<'_>,
    writer: &mut W,
) -> Result<Ended, Fault>
    ensures ok { IfOk result (λ ended. WritesText (λ text. IsVerdict telling.entry.form telling.entry.places.name.now plan.now
        (rows_in telling.entry.places) text ended) (W.written writer.old) (W.written writer.new)) }
    ensures quiet { OnOk result (W.failures writer.new ≡ W.failures writer.old) }
    ensures err { IfErr result (λ e. ((e ≡ Memory) × (writer.new ≡ writer.old))
        ⊎ (BreaksOffText (TellsSomehow (IsVerdict telling.entry.form telling.entry.places.name.now plan.now (rows_in telling.entry.places)))
        (W.written writer.old) (W.written writer.new) e × (W.failures writer.new ≡ one_more (W.failures writer.old)))) }
{
    let found = find_all(rt, alloc, plan)?;
    settled_exactly();
    let ended = Ended::of_count(found.len());
    write_found(alloc, plan.scripts(), &found, telling, writer)?;
    Ok(ended)
}

/// The answer that tells these findings, which are all of the scripts.
pub fn answer_findings(
    alloc: Global,
    scripts: &Scripts,
    telling: AnswerStyle<'_>,
    found: &FindingList,
) -> Result<Answer, Fault>
    requires { AreFindings scripts.now found.now }
    ensures ok { IfOk result (λ answer. IsVerdict telling.entry.form telling.entry.places.name.now scripts.now
        (rows_in telling.entry.places) answer.text.items answer.ended) }
    ensures err { IfErr result (λ e. e ≡ Memory) }
{
    let text = found_text(alloc, scripts, telling, found)?;
    settled_exactly();
    Ok(Answer {
        text,
        ended: Ended::of_count(found.len()),
    })
}

/// The text of findings in this form: with places in groups.
fn found_text(
    alloc: Global,
    scripts: &Scripts,
    telling: AnswerStyle<'_>,
    found: &FindingList,
) -> Result<Vec<u8>, Fault>
    ensures ok { IfOk result (λ text. TellsFindings telling.entry.form telling.entry.places.name.now (rows_in telling.entry.places)
        scripts.now found.now text.items) }
    ensures err { IfErr result (λ e. e ≡ Memory) }
{
    if !telling.form.has_places() {
        return each_text(alloc, scripts, telling.form, found);
    }
    grouped_text(alloc, scripts, telling, found)
}

/// The text of findings one by one.
fn each_text(
    alloc: Global,
    scripts: &Scripts,
    form: OutputFormat,
    found: &FindingList,
) -> Result<Vec<u8>, Fault>
    ensures ok { IfOk result (λ text. text.items ≡ findings_form (is_json form) scripts.now found.now) }
    ensures err { IfErr result (λ e. e ≡ Memory) }
{
    let findings = found.to_vec(alloc)?;
    findings_text(alloc, scripts, findings.as_slice(), form.is_json())
}

/// All findings of a plan.
fn find_all(rt: &(impl Threads + Sync), alloc: Global, plan: &Plan) -> Result<FindingList, Fault>
    ensures ok { IfOk result (AreFindings plan.now) }
    ensures err { IfErr result (λ e. e ≡ Memory) }
{
    let marks = HappensBefore::of(alloc, plan)?;
    finding_list(rt, alloc, &marks.with(plan))
}

/// Writes findings in this form: with places in groups.
fn write_found<W: Sink>(
    alloc: Global,
    scripts: &Scripts,
    found: &FindingList,
    telling: AnswerStyle<'_>,
    writer: &mut W,
) -> Result<(), Fault>
    ensures ok { OnOk result (WritesText (TellsFindings telling.entry.form telling.entry.places.name.now (rows_in telling.entry.places) scripts.now found.now)
        (W.written writer.old) (W.written writer.new)) }
    ensures quiet { OnOk result (W.failures writer.new ≡ W.failures writer.old) }
    ensures err { IfErr result (λ e. ((e ≡ Memory) × (writer.new ≡ writer.old))
        ⊎ (BreaksOffText (TellsFindings telling.entry.form telling.entry.places.name.now (rows_in telling.entry.places) scripts.now found.now)
        (W.written writer.old) (W.written writer.new) e × (W.failures writer.new ≡ one_more (W.failures writer.old)))) }
{
    if !telling.form.has_places() {
        return write_findings(alloc, scripts, found, telling.form.is_json(), writer);
    }
    let text = grouped_text(alloc, scripts, telling, found)?;
    write_text(writer, text.as_slice())
}

/// The text of findings in groups: in lines, or as JSON.
fn grouped_text(
    alloc: Global,
    scripts: &Scripts,
    telling: AnswerStyle<'_>,
    found: &FindingList,
) -> Result<Vec<u8>, Fault>
    ensures ok { IfOk result (λ text. IsGroupedText (is_json telling.entry.form) telling.entry.places.name.now (rows_in telling.entry.places)
        scripts.now found.now text.items) }
    ensures err { IfErr result (λ e. e ≡ Memory) }
{
    if telling.form.is_json() {
        return grouped_json(alloc, scripts, telling.places, found);
    }
    grouped_lines(alloc, telling.places, scripts, found)
}

/// Findings in groups, as JSON.
fn grouped_json(
    alloc: Global,
    scripts: &Scripts,
    places: SourceLines<'_>,
    found: &FindingList,
) -> Result<Vec<u8>, Fault>
    ensures ok { IfOk result (λ text. IsGroupedText true places.entry.name.now (rows_in places.entry) scripts.now found.now text.items) }
    ensures err { IfErr result (λ e. e ≡ Memory) }
{
    let groups = group_findings(alloc, scripts, found)?;
    let text = groups_json(alloc, scripts, places.rows, found, groups.as_slice())?;
    Ok(text)
}

/// The findings and their groups, as JSON.
fn groups_json(
    alloc: Global,
    scripts: &Scripts,
    rows: &[Vec<u64>],
    findings: &FindingList,
    groups: &[Group],
) -> Result<Vec<u8>, AllocError>
    ensures { IfOk result (λ text. text.items ≡ spec.json_groups (lists_of rows.now) scripts.now findings.now groups.now) }
{
    JsonBuilder::new(alloc)
        .put(b"{\"findings\":")
        .put_list(finding_texts(alloc, scripts, rows, findings))
        .put(b",\"groups\":")
        .put_list(group_texts(alloc, groups))
        .put(b"}\n")
        .finish()
}

/// All findings, each with its calls.
fn finding_texts(
    alloc: Global,
    scripts: &Scripts,
    rows: &[Vec<u64>],
    findings: &FindingList,
) -> Result<Vec<Vec<u8>>, AllocError>
    ensures { IfOk result (λ texts. map (λ text. text.items) texts.items
        ≡ map (spec.json_finding (lists_of rows.now) scripts.now) findings.now) }
{
    let mut texts = Vec::with_capacity(alloc, findings.len())?;
    for number in 0..findings.len() {
        let Some(finding) = findings.get(number) else {
            unreachable!();
        };
        texts.push(finding_json(alloc, scripts, rows, finding)?)?;
    }
    Ok(texts)
}

/// A finding, with its calls.
fn finding_json(
    alloc: Global,
    scripts: &Scripts,
    rows: &[Vec<u64>],
    finding: Finding,
) -> Result<Vec<u8>, AllocError>
    ensures { IfOk result (λ text. text.items ≡ spec.json_finding (lists_of rows.now) scripts.now finding) }
{
    begin_finding(alloc, scripts, rows, finding)
        .put(b"}")
        .finish()
}

/// All groups.
fn group_texts(alloc: Global, groups: &[Group]) -> Result<Vec<Vec<u8>>, AllocError>
    ensures { IfOk result (λ texts. map (λ text. text.items) texts.items ≡ map spec.json_group groups.now) }
{
    let mut texts = Vec::new(alloc);
    for group in groups {
        texts.push(group_json(alloc, *group)?)?;
    }
    Ok(texts)
}

/// A group: how many findings it has, and the place of the first of them.
fn group_json(alloc: Global, group: Group) -> Result<Vec<u8>, AllocError>
    ensures { IfOk result (λ text. text.items ≡ spec.json_group group) }
{
    JsonBuilder::new(alloc)
        .put(b"{\"count\":")
        .put_number(group.count as u64)
        .put(b",\"first\":")
        .put_number(group.first as u64)
        .put(b"}")
        .finish()
}
