//! The calls by which a plan isn't portable, as JSON.

ghost use Rattle.std.specs.Prelude.{◌≡◌, ◌++◌, codes, map, IfOk, OnOk};
ghost use Rattle.wire_types.specs.Forms.{has_places};
ghost use Rattle.wire_types.specs.Texts.{lists_of};
ghost use Rattle.wire_json.specs.Chains.{call_member, verb_member};
ghost use Rattle.wire_json.specs.Json.{quoted};
ghost use Rattle.wire_words.specs.Words.{name_of};
ghost use Rattle.wire_portable_commands.specs.Json as spec;

use crate::words::{names_json, portable_in, rule_word};
use std::alloc::{AllocError, Global};
use wire_command::AnswerStyle;
use wire_json::{push_list, push_quoted};
use wire_portable::Unportable;
use wire_report::line_of;
use wire_scripts::Scripts;
use wire_types::{CallAt, OutputFormat, Proc};
use wire_words::{push_number, push_proc, verb_at};

/// Appends the brace that opens a call, and the member of its number.
fn push_number_of(out: &mut Vec<u8>, call: CallAt) -> Result<(), AllocError>
    ensures { OnOk result (out.new.items ≡ out.old.items ++ codes "{" ++ call_member call) }
{
    out.extend_from_slice(b"{\"call\":")?;
    push_number(out, u64::from(call.call) + 1)
}

/// Appends the member of a call's line, in a form with places.
fn push_line_in(
    out: &mut Vec<u8>,
    rows: &[Vec<u64>],
    form: OutputFormat,
    call: CallAt,
) -> Result<(), AllocError>
    ensures { OnOk result (out.new.items ≡ out.old.items ++ spec.line_part (has_places form) (lists_of rows.now) call) }
{
    if !form.has_places() {
        return Ok(());
    }
    out.extend_from_slice(b",\"line\":")?;
    push_number(out, line_of(rows, call))
}

/// The first members of a call: its number, the libraries and its line.
fn first_members(
    alloc: Global,
    rows: &[Vec<u64>],
    form: OutputFormat,
    line: Unportable,
) -> Result<Vec<u8>, AllocError>
    ensures { IfOk result (λ text. text.items ≡ spec.json_first (has_places form) (lists_of rows.now) line) }
{
    let mut text = Vec::new(alloc);
    push_number_of(&mut text, line.call)?;
    text.extend_from_slice(b",\"libraries\":")?;
    text.extend_from_slice(names_json(line.libraries).as_bytes())?;
    push_line_in(&mut text, rows, form, line.call)?;
    Ok(text)
}

/// Appends the name of a process as a string.
fn push_name(
    alloc: Global,
    out: &mut Vec<u8>,
    scripts: &Scripts,
    proc: Proc,
) -> Result<(), AllocError>
    ensures { OnOk result (out.new.items ≡ out.old.items ++ quoted (name_of scripts.now proc.number)) }
{
    let mut name = Vec::new(alloc);
    push_proc(&mut name, scripts, proc)?;
    push_quoted(out, name.as_slice())
}

/// Appends the member of what a call is called.
fn push_verb(out: &mut Vec<u8>, scripts: &Scripts, call: CallAt) -> Result<(), AllocError>
    ensures { OnOk result (out.new.items ≡ out.old.items ++ verb_member scripts.now call) }
{
    out.extend_from_slice(b",\"verb\":")?;
    push_quoted(out, verb_at(scripts, call).as_bytes())
}

/// Appends the last members of a call: its process, the rule and its verb.
fn push_last_members(
    alloc: Global,
    out: &mut Vec<u8>,
    scripts: &Scripts,
    line: Unportable,
) -> Result<(), AllocError>
    ensures { OnOk result (out.new.items ≡ out.old.items ++ spec.json_last scripts.now line) }
{
    out.extend_from_slice(b",\"proc\":")?;
    push_name(alloc, out, scripts, line.call.proc)?;
    out.extend_from_slice(b",\"rule\":")?;
    push_quoted(out, rule_word(line.rule).as_bytes())?;
    push_verb(out, scripts, line.call)?;
    out.extend_from_slice(b"}")
}

/// A call.
fn unportable_json(
    alloc: Global,
    scripts: &Scripts,
    rows: &[Vec<u64>],
    form: OutputFormat,
    line: Unportable,
) -> Result<Vec<u8>, AllocError>
    ensures { IfOk result (λ text. text.items ≡ spec.json_unportable (has_places form) (lists_of rows.now) scripts.now line) }
{
    let mut text = first_members(alloc, rows, form, line)?;
    push_last_members(alloc, &mut text, scripts, line)?;
    Ok(text)
}

/// All calls.
fn unportable_texts(
    alloc: Global,
    scripts: &Scripts,
    telling: AnswerStyle<'_>,
    lines: &[Unportable],
) -> Result<Vec<Vec<u8>>, AllocError>
    ensures { IfOk result (λ texts. lists_of texts.items
        ≡ map (spec.json_unportable (has_places telling.entry.form) (lists_of telling.entry.places.rows.now) scripts.now) lines.now) }
{
    let mut texts = Vec::new(alloc);
    for line in lines {
        texts.push(unportable_json(alloc, scripts, telling.places.rows, telling.form, *line)?)?;
    }
    Ok(texts)
}

/// Appends the member of the libraries for which no call is blamed.
fn push_portable_in(out: &mut Vec<u8>, lines: &[Unportable]) -> Result<(), AllocError>
    ensures { OnOk result (out.new.items ≡ out.old.items ++ spec.portable_member lines.now) }
{
    out.extend_from_slice(b",\"portable\":")?;
    out.extend_from_slice(names_json(portable_in(lines)).as_bytes())
}

/// Appends the member of all calls, and the end of the object.
fn push_calls(out: &mut Vec<u8>, calls: &[Vec<u8>]) -> Result<(), AllocError>
    ensures { OnOk result (out.new.items ≡ out.old.items ++ spec.calls_member (lists_of calls.now)) }
{
    out.extend_from_slice(b",\"unportable\":")?;
    push_list(out, calls)?;
    out.extend_from_slice(b"}\n")
}

/// Appends the members of the libraries and of all calls, and the end of the object.
pub(crate) fn push_members(
    alloc: Global,
    out: &mut Vec<u8>,
    scripts: &Scripts,
    telling: AnswerStyle<'_>,
    lines: &[Unportable],
) -> Result<(), AllocError>
    ensures { OnOk result (out.new.items ≡ out.old.items
        ++ spec.json_members (has_places telling.entry.form) (lists_of telling.entry.places.rows.now) scripts.now lines.now) }
{
    let calls = unportable_texts(alloc, scripts, telling, lines)?;
    push_portable_in(out, lines)?;
    push_calls(out, calls.as_slice())
}
