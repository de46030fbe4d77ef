//! The verdict about a pattern as JSON.

ghost use Rattle.std.specs.Prelude.{◌≡◌, ◌++◌, codes, map, IfOk, OnOk};
ghost use Rattle.wire_types.specs.Texts.{lists_of};
ghost use Rattle.wire_json.specs.Json.{bracketed};
ghost use Rattle.wire_pattern_waits.specs.Lines.{waits_text};
ghost use Rattle.wire_pattern_commands.specs.AtLeast.{least_text};
ghost use Rattle.wire_pattern_commands.specs.Beyond.{first_text};
ghost use Rattle.wire_pattern_commands.specs.PatternJson as spec;
ghost use Rattle.wire_pattern_commands.specs.Strings.{lines_list};

use crate::asked::PatternAsked;
use crate::beyond::{Beyond, push_first, push_words};
use crate::exact::Statuses;
use crate::least::write_least;
use crate::strings::{push_lines, push_text, string_of};
use std::alloc::{AllocError, Global};
use wire_cutoff::Counterexample;
use wire_findings::Finding;
use wire_json::push_list;
use wire_pattern::Pattern;
use wire_pattern_answers::write_answers;
use wire_pattern_waits::{CallLine, write_waits};
use wire_report::push_finding;
use wire_scripts::Scripts;
use wire_words::push_number;

/// The member of which instances these are the statuses of.
fn scope_member(exact: bool) -> &'static [u8]
    ensures { result.now ≡ spec.scope_member exact }
{
    if exact {
        b",\"answers_for\":\"every number of ranks\",".as_slice()
    } else {
        b",\"answers_for\":\"the instances that are judged\",".as_slice()
    }
}

/// Appends the members of how each get-now is answered, if that is asked for.
fn push_answers(
    alloc: Global,
    out: &mut Vec<u8>,
    pattern: &Pattern,
    asked: PatternAsked,
    statuses: &Statuses,
) -> Result<(), AllocError>
    ensures { OnOk result (out.new.items ≡ out.old.items
        ++ spec.answers_member asked.answers statuses.now.exact pattern.now statuses.now.lines.now) }
{
    if !asked.answers {
        return Ok(());
    }
    let mut lines = Vec::new(alloc);
    write_answers(&mut lines, pattern, statuses.lines)?;
    out.extend_from_slice(b"\"answers\":")?;
    push_lines(alloc, out, lines.as_slice())?;
    out.extend_from_slice(scope_member(statuses.exact))
}

/// Appends a list of the lines that tell the least numbers of ranks.
fn push_least(alloc: Global, out: &mut Vec<u8>, pattern: &Pattern) -> Result<(), AllocError>
    ensures { OnOk result (out.new.items ≡ out.old.items ++ lines_list (least_text pattern.now)) }
{
    let mut text = Vec::new(alloc);
    write_least(&mut text, pattern)?;
    push_lines(alloc, out, text.as_slice())
}

/// Appends a list of the lines that tell where something waits with more ranks.
fn push_later(
    alloc: Global,
    out: &mut Vec<u8>,
    pattern: &Pattern,
    beyond: &Beyond,
) -> Result<(), AllocError>
    ensures { OnOk result (out.new.items ≡ out.old.items ++ lines_list (first_text pattern.now beyond.now)) }
{
    let mut text = Vec::new(alloc);
    push_first(&mut text, pattern, beyond)?;
    push_lines(alloc, out, text.as_slice())
}

/// Appends both lists, and between them the name of the second.
fn push_sizes(
    alloc: Global,
    out: &mut Vec<u8>,
    pattern: &Pattern,
    beyond: &Beyond,
) -> Result<(), AllocError>
    ensures { OnOk result (out.new.items ≡ out.old.items ++ spec.sizes_members pattern.now beyond.now) }
{
    push_later(alloc, out, pattern, beyond)?;
    out.extend_from_slice(b",\"least\":")?;
    push_least(alloc, out, pattern)
}

/// Appends a list of the lines that tell where something waits.
fn push_waits(
    alloc: Global,
    out: &mut Vec<u8>,
    pattern: &Pattern,
    lines: &[CallLine],
) -> Result<(), AllocError>
    ensures { OnOk result (out.new.items ≡ out.old.items ++ lines_list (waits_text pattern.now lines.now)) }
{
    let mut text = Vec::new(alloc);
    write_waits(&mut text, pattern, lines)?;
    push_lines(alloc, out, text.as_slice())
}

/// Appends the member that says of which instances every call is known to be answered.
fn push_member(out: &mut Vec<u8>, pattern: &Pattern, beyond: &Beyond) -> Result<(), AllocError>
    ensures { OnOk result (out.new.items ≡ out.old.items ++ spec.answered_by pattern.now beyond.now) }
{
    out.extend_from_slice(b"\"answered\":\"")?;
    push_words(out, pattern, beyond)?;
    out.extend_from_slice(b"\",")
}

/// The same where it is known of some.
fn push_answered(out: &mut Vec<u8>, pattern: &Pattern, beyond: &Beyond) -> Result<(), AllocError>
    ensures { OnOk result (out.new.items ≡ out.old.items ++ spec.answered_member pattern.now beyond.now) }
{
    match beyond {
        Beyond::Never | Beyond::Unknown => push_member(out, pattern, beyond),
        Beyond::Unsaid | Beyond::First(_) => Ok(()),
    }
}

/// The start of the object, with that member.
fn settled_start(alloc: Global, pattern: &Pattern, beyond: &Beyond) -> Result<Vec<u8>, AllocError>
    ensures { IfOk result (λ text. text.items ≡ codes "{" ++ spec.answered_member pattern.now beyond.now) }
{
    let mut text = Vec::from_slice(alloc, b"{")?;
    push_answered(&mut text, pattern, beyond)?;
    Ok(text)
}

/// The object about a pattern in which nothing is found.
pub(crate) fn settled_json(
    alloc: Global,
    pattern: &Pattern,
    asked: PatternAsked,
    beyond: &Beyond,
    lines: &[CallLine],
    statuses: &Statuses,
) -> Result<Vec<u8>, AllocError>
    ensures { IfOk result (λ text. text.items
        ≡ spec.json_settled asked.answers beyond.now statuses.now.exact pattern.now lines.now statuses.now.lines.now) }
{
    let mut out = settled_start(alloc, pattern, beyond)?;
    push_answers(alloc, &mut out, pattern, asked, statuses)?;
    out.extend_from_slice(
        b"\"findings\":[],\"for\":\"every number of ranks on every placement\",\"later\":",
    )?;
    push_sizes(alloc, &mut out, pattern, beyond)?;
    out.extend_from_slice(b",\"waits\":")?;
    push_waits(alloc, &mut out, pattern, lines)?;
    out.extend_from_slice(b"}\n")?;
    Ok(out)
}

/// A finding: its words as a string.
fn finding_string(alloc: Global, scripts: &Scripts, finding: Finding) -> Result<Vec<u8>, AllocError>
    ensures { IfOk result (λ string. string.items ≡ spec.finding_string scripts.now finding) }
{
    let mut words = Vec::new(alloc);
    push_finding(&mut words, scripts, finding)?;
    string_of(alloc, words.as_slice())
}

/// All findings.
fn finding_strings(
    alloc: Global,
    scripts: &Scripts,
    findings: &[Finding],
) -> Result<Vec<Vec<u8>>, AllocError>
    ensures { IfOk result (λ strings. lists_of strings.items ≡ map (spec.finding_string scripts.now) findings.now) }
{
    let mut strings = Vec::new(alloc);
    for finding in findings {
        strings.push(finding_string(alloc, scripts, *finding)?)?;
    }
    Ok(strings)
}

/// Appends a list of the findings.
fn push_found(
    alloc: Global,
    out: &mut Vec<u8>,
    scripts: &Scripts,
    findings: &[Finding],
) -> Result<(), AllocError>
    ensures { OnOk result (out.new.items ≡ out.old.items ++ bracketed (map (spec.finding_string scripts.now) findings.now)) }
{
    let strings = finding_strings(alloc, scripts, findings)?;
    push_list(out, strings.as_slice())
}

/// Appends the last member of a counterexample: how many ranks it has.
fn push_ranks(out: &mut Vec<u8>, scripts: &Scripts) -> Result<(), AllocError>
    ensures { OnOk result (out.new.items ≡ out.old.items ++ spec.ranks_end scripts.now) }
{
    out.extend_from_slice(b",\"ranks\":")?;
    push_number(out, scripts.processes().len() as u64)?;
    out.extend_from_slice(b"}\n")
}

/// The object of a counterexample.
pub(crate) fn counterexample_json(
    alloc: Global,
    found: &Counterexample,
) -> Result<Vec<u8>, AllocError>
    ensures { IfOk result (λ text. text.items
        ≡ spec.json_counterexample found.now.text.items found.now.plan found.now.findings.items) }
{
    let scripts = found.plan.scripts();
    let mut out = Vec::new(alloc);
    out.extend_from_slice(b"{\"counterexample\":")?;
    push_text(&mut out, found.text.as_slice())?;
    out.extend_from_slice(b",\"findings\":")?;
    push_found(alloc, &mut out, scripts, found.findings.as_slice())?;
    push_ranks(&mut out, scripts)?;
    Ok(out)
}
