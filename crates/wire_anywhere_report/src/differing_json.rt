//! The calls whose replies differ between placements, as JSON.

ghost use Rattle.std.specs.Prelude.{◌≡◌, ◌++◌, codes, map, IfOk, OnOk};
ghost use Rattle.wire_types.specs.Forms.{has_places};
ghost use Rattle.wire_types.specs.Texts.{lists_of};
ghost use Rattle.wire_json.specs.Chains.{call_member, proc_member, verb_member};
ghost use Rattle.wire_json.specs.Json.{quoted};
ghost use Rattle.wire_words.specs.Words as words;
ghost use Rattle.wire_anywhere_report.specs.Differing as spec;

use crate::differing_lines::status_name;
use crate::placed_json::push_name;
use std::alloc::{AllocError, Global};
use wire_anywhere::Differing;
use wire_json::{push_list, push_quoted};
use wire_report::line_of;
use wire_scripts::Scripts;
use wire_types::{CallAt, OutputFormat, Status};
use wire_words::{push_number, verb_at};

/// Appends a status as a string.
fn push_status(out: &mut Vec<u8>, status: Status) -> Result<(), AllocError>
    ensures { OnOk result (out.new.items ≡ out.old.items ++ quoted (words.status_name status)) }
{
    push_quoted(out, status_name(status).as_bytes())
}

/// Appends the member of a call's number.
fn push_number_of(out: &mut Vec<u8>, call: CallAt) -> Result<(), AllocError>
    ensures { OnOk result (out.new.items ≡ out.old.items ++ call_member call) }
{
    out.extend_from_slice(b"\"call\":")?;
    push_number(out, u64::from(call.call) + 1)
}

/// Appends the member of a call's line, in a form with places.
fn push_line_in(
    out: &mut Vec<u8>,
    rows: &[Vec<u64>],
    form: OutputFormat,
    call: CallAt,
) -> Result<(), AllocError>
    ensures { OnOk result (out.new.items ≡ out.old.items ++ spec.line_part (has_places form) (lists_of rows.now) call) }
{
    if !form.has_places() {
        return Ok(());
    }
    out.extend_from_slice(b",\"line\":")?;
    push_number(out, line_of(rows, call))
}

/// Appends the members of a call's process and of what it is called.
fn push_names(
    alloc: Global,
    out: &mut Vec<u8>,
    scripts: &Scripts,
    call: CallAt,
) -> Result<(), AllocError>
    ensures { OnOk result (out.new.items ≡ out.old.items ++ proc_member scripts.now call ++ verb_member scripts.now call) }
{
    out.extend_from_slice(b",\"proc\":")?;
    push_name(alloc, out, scripts, call.proc)?;
    out.extend_from_slice(b",\"verb\":")?;
    push_quoted(out, verb_at(scripts, call).as_bytes())
}

/// The first members of a call: its reply where it is alone, its number, its key and its line.
fn first_members(
    alloc: Global,
    scripts: &Scripts,
    rows: &[Vec<u64>],
    form: OutputFormat,
    differing: Differing,
) -> Result<Vec<u8>, AllocError>
    ensures { IfOk result (λ text. text.items ≡ spec.first_members (has_places form) (lists_of rows.now) scripts.now differing) }
{
    let mut text = Vec::new(alloc);
    text.extend_from_slice(b"{\"alone\":")?;
    push_status(&mut text, differing.alone)?;
    text.extend_from_slice(b",")?;
    push_number_of(&mut text, differing.call)?;
    text.extend_from_slice(b",\"key\":")?;
    push_quoted(&mut text, scripts.keys().text(differing.key))?;
    push_line_in(&mut text, rows, form, differing.call)?;
    Ok(text)
}

/// Appends the last members of a call: its reply beside the owner of the key, the owner, its process and its verb.
fn push_last_members(
    alloc: Global,
    out: &mut Vec<u8>,
    scripts: &Scripts,
    differing: Differing,
) -> Result<(), AllocError>
    ensures { OnOk result (out.new.items ≡ out.old.items ++ spec.last_members scripts.now differing) }
{
    out.extend_from_slice(b",\"near\":")?;
    push_status(out, differing.near)?;
    out.extend_from_slice(b",\"owner\":")?;
    push_name(alloc, out, scripts, differing.owner)?;
    push_names(alloc, out, scripts, differing.call)?;
    out.extend_from_slice(b"}")
}

/// A call.
fn differs_json(
    alloc: Global,
    scripts: &Scripts,
    rows: &[Vec<u64>],
    form: OutputFormat,
    differing: Differing,
) -> Result<Vec<u8>, AllocError>
    ensures { IfOk result (λ text. text.items ≡ spec.json_differs (has_places form) (lists_of rows.now) scripts.now differing) }
{
    let mut text = first_members(alloc, scripts, rows, form, differing)?;
    push_last_members(alloc, &mut text, scripts, differing)?;
    Ok(text)
}

/// All calls.
fn differs_texts(
    alloc: Global,
    scripts: &Scripts,
    rows: &[Vec<u64>],
    form: OutputFormat,
    differing: &[Differing],
) -> Result<Vec<Vec<u8>>, AllocError>
    ensures { IfOk result (λ texts. lists_of texts.items ≡ map (spec.json_differs (has_places form) (lists_of rows.now) scripts.now) differing.now) }
{
    let mut texts = Vec::new(alloc);
    for one in differing {
        texts.push(differs_json(alloc, scripts, rows, form, *one)?)?;
    }
    Ok(texts)
}

/// The members of the findings and of their groups, of which there are none.
fn none_found(form: OutputFormat) -> &'static str
    ensures { result.now ≡ spec.none_found (has_places form) }
{
    if form.has_places() {
        ",\"findings\":[],\"groups\":[]}\n"
    } else {
        ",\"findings\":[]}\n"
    }
}

/// All calls, and that nothing is found.
pub(crate) fn differing_json(
    alloc: Global,
    scripts: &Scripts,
    rows: &[Vec<u64>],
    form: OutputFormat,
    differing: &[Differing],
) -> Result<Vec<u8>, AllocError>
    ensures { IfOk result (λ text. text.items ≡ spec.json_differing (has_places form) (lists_of rows.now) scripts.now differing.now) }
{
    let calls = differs_texts(alloc, scripts, rows, form, differing)?;
    let mut text = Vec::new(alloc);
    text.extend_from_slice(b"{\"differs\":")?;
    push_list(&mut text, calls.as_slice())?;
    text.extend_from_slice(none_found(form).as_bytes())?;
    Ok(text)
}
