//! Findings of all placements, as JSON.

ghost use Rattle.std.specs.Prelude.{◌≡◌, ◌++◌, true, map, IfOk, OnOk};
ghost use Rattle.wire_types.specs.Forms.{has_places};
ghost use Rattle.wire_types.specs.Texts.{lists_of};
ghost use Rattle.wire_json.specs.Json.{quoted};
ghost use Rattle.wire_words.specs.Words.{name_of};
ghost use Rattle.wire_report.specs.Findings.{finding_words};
ghost use Rattle.wire_anywhere_report.specs.PlacedJson as spec;

use crate::placed_groups::group_placed;
use std::alloc::{AllocError, Global};
use wire_anywhere::{Pair, PlacedFinding, PlacedList};
use wire_findings::Finding;
use wire_json::{ChainStep, Half, lined_step_json, push_list, push_quoted};
use wire_report::{Group, line_of, pair_of, push_finding};
use wire_scripts::Scripts;
use wire_types::{CallAt, OutputFormat, Proc};
use wire_words::{push_number, push_proc};

/// A call with its line.
#[tactic(auto, unfolding(crate::specs::PlacedJson::lined_call))]
fn call_json(
    alloc: Global,
    scripts: &Scripts,
    rows: &[Vec<u64>],
    call: CallAt,
) -> Result<Vec<u8>, AllocError>
    ensures { IfOk result (λ text. text.items ≡ spec.lined_call (lists_of rows.now) scripts.now call) }
{
    let half = Half::Whole;
    lined_step_json(
        alloc,
        scripts,
        ChainStep { call, half },
        line_of(rows, call),
    )
}

/// The member of the two calls of a finding.
fn calls_json(
    alloc: Global,
    scripts: &Scripts,
    rows: &[Vec<u64>],
    finding: Finding,
) -> Result<Vec<u8>, AllocError>
    ensures { IfOk result (λ text. text.items ≡ spec.calls_member true (lists_of rows.now) scripts.now finding) }
{
    let pair = pair_of(finding);
    let lower = call_json(alloc, scripts, rows, pair.lower)?;
    let higher = call_json(alloc, scripts, rows, pair.higher)?;
    let mut text = Vec::new(alloc);
    text.extend_from_slice(b"\"calls\":[")?;
    text.extend_from_slice(lower.as_slice())?;
    text.extend_from_slice(b",")?;
    text.extend_from_slice(higher.as_slice())?;
    text.extend_from_slice(b"],")?;
    Ok(text)
}

/// Appends the name of a process as a string.
pub(crate) fn push_name(
    alloc: Global,
    out: &mut Vec<u8>,
    scripts: &Scripts,
    proc: Proc,
) -> Result<(), AllocError>
    ensures { OnOk result (out.new.items ≡ out.old.items ++ quoted (name_of scripts.now proc.number)) }
{
    let mut name = Vec::new(alloc);
    push_proc(&mut name, scripts, proc)?;
    push_quoted(out, name.as_slice())
}

/// Appends the member of the two ranks.
fn push_pair(
    alloc: Global,
    out: &mut Vec<u8>,
    scripts: &Scripts,
    on: Option<Pair>,
) -> Result<(), AllocError>
    ensures { OnOk result (out.new.items ≡ out.old.items ++ spec.on_member scripts.now on) }
{
    let Some(pair) = on else {
        return Ok(());
    };
    out.extend_from_slice(b",\"on\":[")?;
    push_name(alloc, out, scripts, pair.lower)?;
    out.extend_from_slice(b",")?;
    push_name(alloc, out, scripts, pair.higher)?;
    out.extend_from_slice(b"]")
}

/// Appends the words of a finding as a string.
fn push_words(
    alloc: Global,
    out: &mut Vec<u8>,
    scripts: &Scripts,
    finding: Finding,
) -> Result<(), AllocError>
    ensures { OnOk result (out.new.items ≡ out.old.items ++ quoted (finding_words scripts.now finding)) }
{
    let mut words = Vec::new(alloc);
    push_finding(&mut words, scripts, finding)?;
    push_quoted(out, words.as_slice())
}

/// A finding, with these members before its words.
fn finish_placed(
    alloc: Global,
    scripts: &Scripts,
    calls: &[u8],
    placed: PlacedFinding,
) -> Result<Vec<u8>, AllocError>
    ensures { IfOk result (λ text. text.items ≡ spec.placed_with calls.now scripts.now placed) }
{
    let mut text = Vec::new(alloc);
    text.extend_from_slice(b"{")?;
    text.extend_from_slice(calls)?;
    text.extend_from_slice(b"\"finding\":")?;
    push_words(alloc, &mut text, scripts, placed.finding)?;
    push_pair(alloc, &mut text, scripts, placed.on)?;
    text.extend_from_slice(b"}")?;
    Ok(text)
}

/// A finding, in a form with places with its two calls.
fn placed_json(
    alloc: Global,
    scripts: &Scripts,
    rows: &[Vec<u64>],
    form: OutputFormat,
    placed: PlacedFinding,
) -> Result<Vec<u8>, AllocError>
    ensures { IfOk result (λ text. text.items ≡ spec.json_placed (has_places form) (lists_of rows.now) scripts.now placed) }
{
    if !form.has_places() {
        return finish_placed(alloc, scripts, b"".as_slice(), placed);
    }
    let calls = calls_json(alloc, scripts, rows, placed.finding)?;
    finish_placed(alloc, scripts, calls.as_slice(), placed)
}

/// All findings.
fn placed_texts(
    alloc: Global,
    scripts: &Scripts,
    rows: &[Vec<u64>],
    form: OutputFormat,
    found: &PlacedList,
) -> Result<Vec<Vec<u8>>, AllocError>
    ensures { IfOk result (λ texts. lists_of texts.items ≡ map (spec.json_placed (has_places form) (lists_of rows.now) scripts.now) found.now) }
{
    let mut texts = Vec::with_capacity(alloc, found.len())?;
    for number in 0..found.len() {
        let Some(placed) = found.get(number) else {
            unreachable!();
        };
        texts.push(placed_json(alloc, scripts, rows, form, placed)?)?;
    }
    Ok(texts)
}

/// The object of all findings as far as its first member goes.
fn begin_object(
    alloc: Global,
    scripts: &Scripts,
    rows: &[Vec<u64>],
    form: OutputFormat,
    found: &PlacedList,
) -> Result<Vec<u8>, AllocError>
    ensures { IfOk result (λ text. text.items ≡ spec.json_all (has_places form) (lists_of rows.now) scripts.now found.now) }
{
    let findings = placed_texts(alloc, scripts, rows, form, found)?;
    let mut text = Vec::new(alloc);
    text.extend_from_slice(b"{\"findings\":")?;
    push_list(&mut text, findings.as_slice())?;
    Ok(text)
}

/// All findings.
pub(crate) fn plain_json(
    alloc: Global,
    scripts: &Scripts,
    rows: &[Vec<u64>],
    found: &PlacedList,
) -> Result<Vec<u8>, AllocError>
    ensures { IfOk result (λ text. text.items ≡ spec.json_plain (lists_of rows.now) scripts.now found.now) }
{
    let mut text = begin_object(alloc, scripts, rows, OutputFormat::Json, found)?;
    text.extend_from_slice(b"}\n")?;
    Ok(text)
}

/// A group: how many findings it has, and the place of the first of them.
fn group_json(alloc: Global, group: Group) -> Result<Vec<u8>, AllocError>
    ensures { IfOk result (λ text. text.items ≡ spec.json_group group) }
{
    let mut text = Vec::new(alloc);
    text.extend_from_slice(b"{\"count\":")?;
    push_number(&mut text, group.count as u64)?;
    text.extend_from_slice(b",\"first\":")?;
    push_number(&mut text, group.first as u64)?;
    text.extend_from_slice(b"}")?;
    Ok(text)
}

/// All groups.
fn group_texts(alloc: Global, groups: &[Group]) -> Result<Vec<Vec<u8>>, AllocError>
    ensures { IfOk result (λ texts. lists_of texts.items ≡ map spec.json_group groups.now) }
{
    let mut texts = Vec::new(alloc);
    for group in groups {
        texts.push(group_json(alloc, *group)?)?;
    }
    Ok(texts)
}

/// All findings and these groups.
fn groups_json(
    alloc: Global,
    scripts: &Scripts,
    rows: &[Vec<u64>],
    found: &PlacedList,
    groups: &[Group],
) -> Result<Vec<u8>, AllocError>
    ensures { IfOk result (λ text. text.items ≡ spec.json_groups (lists_of rows.now) scripts.now found.now groups.now) }
{
    let groups = group_texts(alloc, groups)?;
    let mut text = begin_object(alloc, scripts, rows, OutputFormat::PlacedJson, found)?;
    text.extend_from_slice(b",\"groups\":")?;
    push_list(&mut text, groups.as_slice())?;
    text.extend_from_slice(b"}\n")?;
    Ok(text)
}

/// All findings and their groups.
pub(crate) fn grouped_json(
    alloc: Global,
    scripts: &Scripts,
    rows: &[Vec<u64>],
    found: &PlacedList,
) -> Result<Vec<u8>, AllocError>
    ensures { IfOk result (λ text. spec.IsGroupedJson (lists_of rows.now) scripts.now found.now text.items) }
{
    let groups = group_placed(alloc, scripts, found)?;
    groups_json(alloc, scripts, rows, found, groups.as_slice())
}
