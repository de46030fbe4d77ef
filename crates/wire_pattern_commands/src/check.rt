//! `check --pattern`: one verdict for every number of ranks on every placement.

ghost use Rattle.std.specs.Prelude.{◌≡◌, ◌≢◌, ◌↔◌, ◌⊎◌, ◌++◌, ◌==◌, ◌&&◌, ◌||◌, ◌<◌, ◌^◌, [], true, not, Ok, Err, OnOk, IfOk, IfErr};
ghost use Rattle.std.specs.Prelude.{codes, count_by, if◌then◌else◌};
ghost use Rattle.std.specs.List.{flat_map};
ghost use Rattle.wire_types.specs.declared.Fault.TheVariants.{Memory, Read};
ghost use Rattle.wire_types.specs.Counting.{one_more};
ghost use Rattle.wire_command.specs.declared.ended.Ended.TheVariants.{Clean};
ghost use Rattle.wire_cutoff.specs.Judged.{IsJudgeFault, IsSweepFault, IsWithinPatternLimits};
ghost use Rattle.wire_cutoff.specs.Selections.{most_sizes};
ghost use Rattle.wire_cutoff.specs.Views.{IsFoundFor};
ghost use Rattle.wire_cutoff_laws.specs.Sizes.{total_of};
ghost use Rattle.wire_cutoff_laws.specs.Promised.{IsSettledForAll};
ghost use Rattle.wire_command.specs.Ending.{ended_of};
ghost use Rattle.wire_pattern_commands.specs.CheckPattern as spec;
ghost use Rattle.wire_pattern_waits.specs.Waits.{AllReadAsPlans};
ghost use Rattle.wire_pattern_stages.specs.Succeeding.{SomeFailsApart, SomePutsRemote};
ghost use Rattle.wire_pattern_commands.specs.Succeeding.{IsSuccessTold};
ghost use Rattle.wire_pattern_commands.specs.CheckPattern.{BreaksOffPatternVerdict, EndsInOneStateForAll};
ghost use Rattle.wire_pattern_commands.specs.CheckPattern.{IsExplainedSaid, IsPatternVerdict, IsSettledSaid, StopsBeforePattern, WritesPatternVerdict};

use crate::asked::PatternAsked;
use crate::beyond::{Beyond, find_beyond, push_beyond};
use crate::exact::{Statuses, are_exact};
use crate::explained::explain_answer;
use crate::least::write_least;
use crate::reading::{note_sound, read_coming};
use crate::succeeding::every_call_succeeds;
use crate::verdict_json::{counterexample_json, settled_json};
use std::alloc::{AllocError, Global};
use std::thread::Threads;
use wire_command::{Answer, Ended, write_answer};
use wire_cutoff::laws::texts_settled;
use wire_cutoff::{Counterexample, judge_pattern};
use wire_findings::Finding;
use wire_pattern::Pattern;
use wire_pattern_answers::{LineAnswers, write_answers};
use wire_pattern_stages::{Waiting, find_waiting};
use wire_pattern_waits::{CallLine, write_waits};
use wire_reply_laws::laws::{all_answered, texts_answered};
use wire_report::{push_count, push_finding};
use wire_scripts::Scripts;
use wire_types::{Fault, Sink, Source};
use wire_words::push_number;

/// The end of the first line.
fn ranks_word(ranks: usize) -> &'static [u8]
    ensures { result.now ≡ (if ranks == 1 then codes " rank\n" else codes " ranks\n") }
{
    if ranks == 1 {
        b" rank\n".as_slice()
    } else {
        b" ranks\n".as_slice()
    }
}

/// Appends the first line: how many ranks the counterexample has.
fn push_head(out: &mut Vec<u8>, ranks: usize) -> Result<(), AllocError>
    ensures { OnOk result (out.new.items ≡ out.old.items ++ spec.head_line ranks) }
{
    out.extend_from_slice(b"# counterexample, ")?;
    push_number(out, ranks as u64)?;
    out.extend_from_slice(ranks_word(ranks))
}

/// Appends a finding as a comment.
fn push_comment(out: &mut Vec<u8>, scripts: &Scripts, finding: Finding) -> Result<(), AllocError>
    ensures { OnOk result (out.new.items ≡ out.old.items ++ spec.finding_comment scripts.now finding) }
{
    out.extend_from_slice(b"# ")?;
    push_finding(out, scripts, finding)?;
    out.extend_from_slice(b"\n")
}

/// Appends findings as comments.
fn push_findings(
    out: &mut Vec<u8>,
    scripts: &Scripts,
    findings: &[Finding],
) -> Result<(), AllocError>
    ensures { OnOk result (out.new.items ≡ out.old.items ++ flat_map (spec.finding_comment scripts.now) findings.now) }
{
    for finding in findings {
        push_comment(out, scripts, *finding)?;
    }
    Ok(())
}

/// The text of a counterexample.
fn counterexample_text(alloc: Global, found: &Counterexample) -> Result<Vec<u8>, AllocError>
    ensures { IfOk result (λ text. text.items
        ≡ spec.counterexample_text found.now.text.items found.now.plan found.now.findings.items) }
{
    let scripts = found.plan.scripts();
    let findings = found.findings.as_slice();
    let mut out = Vec::new(alloc);
    push_head(&mut out, scripts.processes().len())?;
    out.extend_from_slice(found.text.as_slice())?;
    push_findings(&mut out, scripts, findings)?;
    out.extend_from_slice(b"# ")?;
    push_count(&mut out, findings.len())?;
    Ok(out)
}

/// A counterexample in the form that is asked for.
fn counterexample_form(
    alloc: Global,
    asked: PatternAsked,
    found: &Counterexample,
) -> Result<Vec<u8>, AllocError>
    ensures { IfOk result (λ text. text.items
        ≡ spec.counterexample_form asked.json found.now.text.items found.now.plan found.now.findings.items) }
{
    if asked.json {
        counterexample_json(alloc, found)
    } else {
        counterexample_text(alloc, found)
    }
}

/// The answer that shows a counterexample.
fn answer_found(
    alloc: Global,
    pattern: &Pattern,
    asked: PatternAsked,
    found: &Counterexample,
) -> Result<Answer, Fault>
    requires { IsFoundFor pattern.now found.now }
    ensures ok { IfOk result (λ answer. IsPatternVerdict pattern.now asked answer.text.items answer.ended) }
    ensures err { IfErr result (λ e. e ≡ Memory) }
{
    let text = counterexample_form(alloc, asked, found)?;
    Ok(Answer {
        text,
        ended: Ended::Found(found.findings.as_slice().len() as u64),
    })
}

/// Whether no get-now of a line is answered with anything but success.
fn succeeds(answers: &LineAnswers) -> bool
    ensures { result ≡ spec.succeeds answers.now }
{
    !answers.not_found && !answers.outside
}

/// How many get-now lines don't succeed.
fn count_failing(all: &[LineAnswers]) -> usize
    ensures { result ≡ count_by (λ a. not (spec.succeeds a)) all.now }
{
    let mut count: usize = 0;
    for answers in all {
        if !succeeds(answers) {
            count += 1;
        }
    }
    count
}

/// How the command ends where nothing is found.
fn settled_end(
    asked: PatternAsked,
    everywhere: bool,
    succeeding: bool,
    lines: &[CallLine],
    answers: &[LineAnswers],
) -> Ended
    ensures { result ≡ spec.settled_end asked everywhere succeeding lines.now answers.now }
{
    if !asked.complete {
        Ended::Clean
    } else if !lines.is_empty() {
        Ended::of_count(lines.len())
    } else if !(everywhere && succeeding) {
        Ended::of_count(1)
    } else {
        Ended::of_count(count_failing(answers))
    }
}

/// Whether the statuses of get-nows are asked for, or what is asked for rests on them.
fn needs_answers(asked: PatternAsked) -> bool
    ensures { result ≡ asked.answers || asked.complete }
{
    asked.answers || asked.complete
}

/// Whether every call of the instances that are judged succeeds, if that is asked for and no call waits with any number
/// of ranks, by what these instances show.
fn success_asked(
    alloc: Global,
    pattern: &Pattern,
    asked: PatternAsked,
    everywhere: bool,
    waiting: &Waiting,
) -> Result<bool, Fault>
    requires settled { IsSettledForAll pattern.now }
    requires few { total_of (most_sizes pattern.now.roles) < 2 ^ 31 }
    requires read { AllReadAsPlans pattern.now }
    requires failing { (waiting.now.failing ≡ true) ↔ SomeFailsApart pattern.now }
    requires remote { (waiting.now.remote ≡ true) ↔ SomePutsRemote pattern.now }
    ensures ok { IfOk result (λ succeeding. asked.complete && everywhere ≡ true → IsSuccessTold pattern.now succeeding) }
    ensures err { IfErr result (λ e. IsJudgeFault pattern.now e) }
{
    if asked.complete && everywhere {
        let succeeding = every_call_succeeds(alloc, pattern, waiting)?;
        return Ok(succeeding);
    }
    Ok(false)
}

/// The text about a pattern in which nothing is found: so it says, for which numbers of ranks, at which call lines
/// something waits, what is known of more ranks, and if that is asked for with which statuses each get-now is answered.
fn settled_text(
    alloc: Global,
    pattern: &Pattern,
    asked: PatternAsked,
    beyond: &Beyond,
    lines: &[CallLine],
    answers: &[LineAnswers],
) -> Result<Vec<u8>, AllocError>
    ensures { IfOk result (λ text. text.items ≡ spec.settled_text asked.answers beyond.now pattern.now lines.now answers.now) }
{
    let mut text = Vec::from_slice(
        alloc,
        b"findings 0 for every number of ranks on every placement\n",
    )?;
    write_least(&mut text, pattern)?;
    write_waits(&mut text, pattern, lines)?;
    push_beyond(&mut text, pattern, beyond)?;
    if !asked.answers {
        return Ok(text);
    }
    write_answers(&mut text, pattern, answers)?;
    Ok(text)
}

/// The same in the form that is asked for.
fn settled_form(
    alloc: Global,
    pattern: &Pattern,
    asked: PatternAsked,
    beyond: &Beyond,
    lines: &[CallLine],
    statuses: &Statuses,
) -> Result<Vec<u8>, AllocError>
    ensures { IfOk result (λ text. text.items
        ≡ spec.settled_form asked beyond.now statuses.now.exact pattern.now lines.now statuses.now.lines.now) }
{
    if asked.json {
        settled_json(alloc, pattern, asked, beyond, lines, statuses)
    } else {
        settled_text(alloc, pattern, asked, beyond, lines, statuses.lines)
    }
}

/// An answer about a pattern in which nothing is found, and what it says of larger instances.
#[derive(Drop)]
struct Settled {
    answer: Answer,
    beyond: Beyond,
}

/// The answer about a pattern in which nothing is found.
fn answer_settled(alloc: Global, pattern: &Pattern, asked: PatternAsked) -> Result<Settled, Fault>
    requires settled { IsSettledForAll pattern.now }
    requires few { total_of (most_sizes pattern.now.roles) < 2 ^ 31 }
    ensures ok { IfOk result (λ it. IsSettledSaid pattern.now asked it.beyond it.answer.text.items it.answer.ended) }
    ensures err { IfErr result (λ e. IsJudgeFault pattern.now e) }
{
    all_answered();
    texts_answered();
    note_sound(pattern);
    let waiting = find_waiting(alloc, pattern, needs_answers(asked))?;
    let beyond = find_beyond(alloc, pattern, &waiting)?;
    let known = beyond.is_known_answered();
    let succeeding = success_asked(alloc, pattern, asked, known, &waiting)?;
    let exact = are_exact(pattern, &waiting);
    let statuses = Statuses {
        lines: waiting.answers.as_slice(),
        exact,
    };
    let text = settled_form(
        alloc,
        pattern,
        asked,
        &beyond,
        waiting.lines.as_slice(),
        &statuses,
    )?;
    let ended = settled_end(
        asked,
        known,
        succeeding,
        waiting.lines.as_slice(),
        statuses.lines,
    );
    Ok(Settled {
        answer: Answer { text, ended },
        beyond,
    })
}

/// The same, and if that is asked for who waits for ever.
fn answer_explained(alloc: Global, pattern: &Pattern, asked: PatternAsked) -> Result<Answer, Fault>
    requires settled { IsSettledForAll pattern.now }
    requires few { total_of (most_sizes pattern.now.roles) < 2 ^ 31 }
    ensures ok { IfOk result (λ answer. IsExplainedSaid pattern.now asked answer.text.items answer.ended) }
    ensures err { IfErr result (λ e. IsJudgeFault pattern.now e) }
{
    let settled = answer_settled(alloc, pattern, asked)?;
    let Settled { answer, beyond } = settled;
    let explained = explain_answer(alloc, pattern, asked, &beyond, answer)?;
    Ok(explained)
}

/// The verdict about a pattern.
fn answer_pattern(
    rt: &(impl Threads + Sync),
    alloc: Global,
    pattern: &Pattern,
    asked: PatternAsked,
) -> Result<Answer, Fault>
    ensures ok { IfOk result (λ answer. IsPatternVerdict pattern.now asked answer.text.items answer.ended) }
    ensures within { OnOk result (IsWithinPatternLimits pattern.now) }
    ensures err { IfErr result (λ e. IsSweepFault pattern.now e) }
{
    match judge_pattern(rt, alloc, pattern)? {
        None => {
            note_sound(pattern);
            texts_settled();
            answer_explained(alloc, pattern, asked)
        }
        Some(found) => {
            let answer = answer_found(alloc, pattern, asked, &found);
            drop(found);
            answer
        }
    }
}

/// Checks a pattern for every number of ranks on every placement: reads it to its end, and writes that nothing is
/// found, for which numbers of ranks, at which call lines something waits, and if that is asked for with which statuses
/// each get-now is answered, and who waits for ever in the first instance that is judged in which a rank does, else in
/// the larger one in which one does first; or a counterexample: how many ranks it has, the text of its plan, and as
/// comments what `check` finds in that. It is the first instance that is judged in which something is found. As JSON
/// the text of the plan is one string, without the comments.
///
/// It answers `Clean` where nothing is found in any instance; but with `complete` the count of the call lines at which
/// something waits; where there are none 1, unless it is known that no call waits with any number of ranks and every
/// call of the instances that are judged succeeds; and then the count of the get-now lines that don't succeed. The
/// faults of the pattern's file come first, then those of the largest instance that is judged (no clause says that it
/// isn't a smaller one's), each on the line of the pattern that it comes from.
/// After the fault `Write` the front of the text that it counts is written, after any other fault nothing. `Memory` may
/// come in place of any other answer.
pub fn check_pattern<R: Source, W: Sink>(
    rt: &(impl Threads + Sync),
    alloc: Global,
    asked: PatternAsked,
    reader: &mut R,
    writer: &mut W,
) -> Result<Ended, Fault>
    ensures ok { IfOk result (λ ended. WritesPatternVerdict asked (R.coming reader.old) ended (W.written writer.old) (W.written writer.new)) }
    ensures quiet { OnOk result ((R.failures reader.new ≡ R.failures reader.old) × (W.failures writer.new ≡ W.failures writer.old)) }

    // The headline: where it finds nothing, in each instance every interleaving that can't go on ends in one state, and
    // so in what its text reads as.
    ensures one_end { result ≡ Ok Clean → EndsInOneStateForAll (R.coming reader.old) }

    // Either nothing was written, or the front of the text that the fault counts.
    ensures err { IfErr result (λ e. (StopsBeforePattern (R.coming reader.old) e × (writer.new ≡ writer.old))
        ⊎ (BreaksOffPatternVerdict asked (R.coming reader.old) (W.written writer.old) (W.written writer.new) e
        × (W.failures writer.new ≡ one_more (W.failures writer.old)))) }

    // A failed read is answered only where the reader failed.
    ensures read_failed { result ≡ Err Read → R.failures reader.new ≡ one_more (R.failures reader.old) }
    ensures unfailed { IfErr result (λ e. e ≢ Memory → e ≢ Read → R.failures reader.new ≡ R.failures reader.old) }
{
    let pattern = read_coming(alloc, reader)?;
    note_sound(&pattern);
    let answer = answer_pattern(rt, alloc, &pattern, asked);
    drop(pattern);
    let answer = answer?;
    write_answer(writer, &answer)
}
