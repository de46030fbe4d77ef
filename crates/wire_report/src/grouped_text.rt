//! The text of findings in groups.

ghost use Rattle.std.specs.Prelude.{◌≡◌, ◌++◌, codes, OnOk, IfOk, IfErr};
ghost use Rattle.std.specs.List.{flat_map};
ghost use Rattle.wire_types.specs.declared.Fault.TheVariants.{Memory};
ghost use Rattle.wire_types.specs.Texts.{lists_of};
ghost use Rattle.wire_report.specs.GroupedText as spec;
ghost use Rattle.wire_report.specs.GroupedText.{IsLocatedText};

use crate::call_places::{SourceLines, push_place};
use crate::grouping::group_findings;
use crate::label::{Subject, pair_of, subject_of};
use crate::tally::Group;
use std::alloc::{AllocError, Global};
use wire_findings::{Finding, FindingList};
use wire_scripts::Scripts;
use wire_types::{CallAt, Fault};
use wire_words::{push_call, push_number, verb_at};

/// Appends a call with its verb, and the end of the line.
fn push_said(out: &mut Vec<u8>, scripts: &Scripts, call: CallAt) -> Result<(), AllocError>
    ensures { OnOk result (out.new.items ≡ out.old.items ++ spec.said_call scripts.now call ++ codes "\n") }
{
    push_call(out, scripts, call)?;
    out.extend_from_slice(b" ")?;
    out.extend_from_slice(verb_at(scripts, call).as_bytes())?;
    out.extend_from_slice(b"\n")
}

/// One word, or another where they are many.
fn word_for(count: usize, one: &'static str, many: &'static str) -> &'static str
    ensures { result.now ≡ spec.word_for count one.now many.now }
{
    if count == 1 { one } else { many }
}

/// What one finding on a subject is, or many are, up to the key or the name.
fn subject_word(count: usize, subject: Subject) -> &'static str
    ensures { result.now ≡ spec.subject_word count subject }
{
    match subject {
        Subject::Rewrite(_) => word_for(count, " rewrite of key ", " rewrites of key "),
        Subject::KeyRace(_) => word_for(count, " race on key ", " races on key "),
        Subject::NameRace(_) => word_for(count, " race on name ", " races on name "),
    }
}

/// The key or the name of a subject.
fn subject_text(scripts: &Scripts, subject: Subject) -> &[u8]
    ensures { result.now ≡ spec.subject_text scripts.now subject }
{
    match subject {
        Subject::Rewrite(key) | Subject::KeyRace(key) => scripts.keys().text(key),
        Subject::NameRace(name) => scripts.names().text(name),
    }
}

/// Appends how many findings of a group are what, and on which key or name.
fn push_counted_findings(
    out: &mut Vec<u8>,
    scripts: &Scripts,
    count: usize,
    subject: Subject,
) -> Result<(), AllocError>
    ensures { OnOk result (out.new.items ≡ out.old.items ++ spec.counted scripts.now count subject) }
{
    push_number(out, count as u64)?;
    out.extend_from_slice(subject_word(count, subject).as_bytes())?;
    out.extend_from_slice(subject_text(scripts, subject))
}

/// Appends the first line of a group of so many findings.
pub fn push_first(
    out: &mut Vec<u8>,
    places: SourceLines<'_>,
    scripts: &Scripts,
    finding: Finding,
    count: usize,
) -> Result<(), AllocError>
    ensures { OnOk result (out.new.items ≡ out.old.items
        ++ spec.first_line places.entry.name.now scripts.now (lists_of places.entry.rows.now) finding count) }
{
    let lower = pair_of(finding).lower;
    push_place(out, places, lower)?;
    push_counted_findings(out, scripts, count, subject_of(scripts, finding))?;
    out.extend_from_slice(b": ")?;
    push_said(out, scripts, lower)
}

/// Appends the second line of a group: the second call of its first finding.
pub fn push_second(
    out: &mut Vec<u8>,
    places: SourceLines<'_>,
    scripts: &Scripts,
    finding: Finding,
) -> Result<(), AllocError>
    ensures { OnOk result (out.new.items ≡ out.old.items
        ++ spec.second_line places.entry.name.now scripts.now (lists_of places.entry.rows.now) finding) }
{
    push_note(out, places, scripts, pair_of(finding).higher)
}

/// Appends the line of a call that goes with the one in the line above.
pub fn push_note(
    out: &mut Vec<u8>,
    places: SourceLines<'_>,
    scripts: &Scripts,
    call: CallAt,
) -> Result<(), AllocError>
    ensures { OnOk result (out.new.items ≡ out.old.items
        ++ spec.note_line places.entry.name.now scripts.now (lists_of places.entry.rows.now) call) }
{
    push_place(out, places, call)?;
    out.extend_from_slice(b"note: ")?;
    push_said(out, scripts, call)
}

/// Appends the lines of a group.
fn push_group(
    out: &mut Vec<u8>,
    places: SourceLines<'_>,
    scripts: &Scripts,
    findings: &FindingList,
    group: Group,
) -> Result<(), AllocError>
    ensures { OnOk result (out.new.items ≡ out.old.items
        ++ spec.group_text places.entry.name.now scripts.now (lists_of places.entry.rows.now) findings.now group) }
{
    match findings.get(group.first) {
        Some(finding) => {
            push_first(out, places, scripts, finding, group.count)?;
            push_second(out, places, scripts, finding)
        }
        None => Ok(()),
    }
}

/// Appends the last line: how many findings and groups there are.
pub fn push_last(out: &mut Vec<u8>, findings: usize, groups: usize) -> Result<(), AllocError>
    ensures { OnOk result (out.new.items ≡ out.old.items ++ spec.last_line findings groups) }
{
    out.extend_from_slice(b"findings ")?;
    push_number(out, findings as u64)?;
    push_group_count(out, groups)?;
    out.extend_from_slice(b"\n")
}

/// Appends how many groups there are, nothing where there is none.
fn push_group_count(out: &mut Vec<u8>, groups: usize) -> Result<(), AllocError>
    ensures { OnOk result (out.new.items ≡ out.old.items ++ spec.in_groups groups) }
{
    if groups == 0 {
        return Ok(());
    }
    out.extend_from_slice(b" in ")?;
    push_number(out, groups as u64)?;
    out.extend_from_slice(word_for(groups, " group", " groups").as_bytes())
}

/// Appends the lines of all groups.
fn push_all_groups(
    out: &mut Vec<u8>,
    places: SourceLines<'_>,
    scripts: &Scripts,
    findings: &FindingList,
    groups: &[Group],
) -> Result<(), AllocError>
    ensures { OnOk result (out.new.items ≡ out.old.items
        ++ flat_map (spec.group_text places.entry.name.now scripts.now (lists_of places.entry.rows.now) findings.now) groups.now) }
{
    for group in groups {
        push_group(out, places, scripts, findings, *group)?;
    }
    Ok(())
}

/// The text of groups of findings.
fn groups_text(
    alloc: Global,
    places: SourceLines<'_>,
    scripts: &Scripts,
    findings: &FindingList,
    groups: &[Group],
) -> Result<Vec<u8>, AllocError>
    ensures { IfOk result (λ text. text.items
        ≡ spec.groups_report places.entry.name.now scripts.now (lists_of places.entry.rows.now) findings.now groups.now) }
{
    let mut text = Vec::new(alloc);
    push_all_groups(&mut text, places, scripts, findings, groups)?;
    push_last(&mut text, findings.len(), groups.len())?;
    Ok(text)
}

/// The text of findings, in groups: of each group how many findings it has, and the two calls of the first of
/// them, each with the name of the file and its line there; and last how many findings and groups there are.
/// A byte of the name that isn't printable ASCII is shown as `?`. The one fault is `Fault::Memory`.
pub fn grouped_lines(
    alloc: Global,
    places: SourceLines<'_>,
    scripts: &Scripts,
    findings: &FindingList,
) -> Result<Vec<u8>, Fault>
    ensures ok { IfOk result (λ text. IsLocatedText places.entry.name.now scripts.now (lists_of places.entry.rows.now) findings.now
        text.items) }
    ensures err { IfErr result (λ e. e ≡ Memory) }
{
    let groups = group_findings(alloc, scripts, findings)?;
    let text = groups_text(alloc, places, scripts, findings, groups.as_slice())?;
    Ok(text)
}
