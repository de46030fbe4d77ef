//! Parts of forms, as bytes: strings, lists, and calls with the lines of a file on which they stand.

ghost use Rattle.std.specs.Prelude.{◌≡◌, ◌++◌, ◌∷◌, map, flat_map, codes, IfOk, OnOk};
ghost use Rattle.wire_types.specs.Texts.{lists_of};
ghost use Rattle.wire_json.specs.Json as spec;
ghost use Rattle.wire_json.specs.Chains as chains;
ghost use Rattle.wire_json.specs.Lined as lined;

use crate::chains::{ChainStep, Half};
use crate::strings::printable_byte;
use std::alloc::{AllocError, Global};
use wire_scripts::Scripts;
use wire_types::CallAt;
use wire_words::{push_number, push_proc, verb_at};

/// Appends a text as a string: a byte that isn't printable as a question mark, and a quote and a backslash with a
/// backslash before them.
pub fn push_quoted(out: &mut Vec<u8>, text: &[u8]) -> Result<(), AllocError>
    ensures { OnOk result (out.new.items ≡ out.old.items ++ spec.quoted text.now) }
{
    out.extend_from_slice(b"\"")?;
    push_escaped(out, text)?;
    out.extend_from_slice(b"\"")
}

/// Appends the bytes of a text as they stand in a string.
fn push_escaped(out: &mut Vec<u8>, text: &[u8]) -> Result<(), AllocError>
    ensures { OnOk result (out.new.items ≡ out.old.items ++ spec.escaped (map spec.printed text.now)) }
{
    for byte in text {
        push_byte(out, printable_byte(*byte))?;
    }
    Ok(())
}

/// Appends a byte as it stands in a string.
fn push_byte(out: &mut Vec<u8>, byte: u8) -> Result<(), AllocError>
    ensures { OnOk result (out.new.items ≡ out.old.items ++ spec.escaped_byte byte) }
{
    if byte == b'"' || byte == b'\\' {
        out.push(b'\\')?;
    }
    out.push(byte)?;
    Ok(())
}

/// Appends a list of these items, which are forms already.
pub fn push_list(out: &mut Vec<u8>, items: &[Vec<u8>]) -> Result<(), AllocError>
    ensures { OnOk result (out.new.items ≡ out.old.items ++ spec.bracketed (lists_of items.now)) }
{
    out.extend_from_slice(b"[")?;
    push_items(out, items)?;
    out.extend_from_slice(b"]")
}

/// Appends these items, with a comma between each two.
fn push_items(out: &mut Vec<u8>, items: &[Vec<u8>]) -> Result<(), AllocError>
    ensures { OnOk result (out.new.items ≡ out.old.items ++ spec.joined (lists_of items.now)) }
{
    let Some((first, others)) = items.split_first() else {
        return Ok(());
    };
    out.extend_from_slice(first.as_slice())?;
    push_others(out, others)
}

/// Appends these items, each behind a comma.
fn push_others(out: &mut Vec<u8>, items: &[Vec<u8>]) -> Result<(), AllocError>
    ensures { OnOk result (out.new.items ≡ out.old.items ++ flat_map (λ item. 44 ∷ item) (lists_of items.now)) }
{
    for item in items {
        push_other(out, item.as_slice())?;
    }
    Ok(())
}

/// Appends an item behind a comma.
fn push_other(out: &mut Vec<u8>, item: &[u8]) -> Result<(), AllocError>
    ensures { OnOk result (out.new.items ≡ out.old.items ++ 44 ∷ item.now) }
{
    out.extend_from_slice(b",")?;
    out.extend_from_slice(item)
}

/// A step of a chain, whose call stands on this line, as a part of a form.
pub fn lined_step_json(
    alloc: Global,
    scripts: &Scripts,
    step: ChainStep,
    line: u64,
) -> Result<Vec<u8>, AllocError>
    ensures { IfOk result (λ text. text.items ≡ lined.lined_step scripts.now step line) }
{
    let mut text = Vec::new(alloc);
    push_number_of(&mut text, step.call)?;
    text.extend_from_slice(half_member(step.half).as_bytes())?;
    push_line(&mut text, line)?;
    push_proc_of(alloc, &mut text, scripts, step.call)?;
    push_verb_of(&mut text, scripts, step.call)?;
    Ok(text)
}

/// A call that stands on this line, by its process and number alone, as a part of a form.
pub fn lined_place_json(
    alloc: Global,
    scripts: &Scripts,
    call: CallAt,
    line: u64,
) -> Result<Vec<u8>, AllocError>
    ensures { IfOk result (λ text. text.items ≡ lined.lined_place scripts.now call line) }
{
    let mut text = Vec::new(alloc);
    push_number_of(&mut text, call)?;
    push_line(&mut text, line)?;
    push_proc_of(alloc, &mut text, scripts, call)?;
    text.extend_from_slice(b"}")?;
    Ok(text)
}

/// Appends the brace that opens a call, and the member of its number.
fn push_number_of(out: &mut Vec<u8>, call: CallAt) -> Result<(), AllocError>
    ensures { OnOk result (out.new.items ≡ out.old.items ++ codes "{" ++ chains.call_member call) }
{
    out.extend_from_slice(b"{\"call\":")?;
    push_number(out, u64::from(call.call) + 1)
}

/// The member of which half of a fence is meant.
fn half_member(half: Half) -> &'static str
    ensures { result.now ≡ chains.half_member half }
{
    match half {
        Half::Whole => "",
        Half::Arrive => ",\"half\":\"arrive\"",
        Half::Leave => ",\"half\":\"leave\"",
    }
}

/// Appends the member of a line.
fn push_line(out: &mut Vec<u8>, line: u64) -> Result<(), AllocError>
    ensures { OnOk result (out.new.items ≡ out.old.items ++ lined.line_member line) }
{
    out.extend_from_slice(b",\"line\":")?;
    push_number(out, line)
}

/// Appends the member of a call's process.
fn push_proc_of(
    alloc: Global,
    out: &mut Vec<u8>,
    scripts: &Scripts,
    call: CallAt,
) -> Result<(), AllocError>
    ensures { OnOk result (out.new.items ≡ out.old.items ++ chains.proc_member scripts.now call) }
{
    let mut name = Vec::new(alloc);
    push_proc(&mut name, scripts, call.proc)?;
    out.extend_from_slice(b",\"proc\":")?;
    push_quoted(out, name.as_slice())
}

/// Appends the member of what a call is called, and the brace that closes it.
fn push_verb_of(out: &mut Vec<u8>, scripts: &Scripts, call: CallAt) -> Result<(), AllocError>
    ensures { OnOk result (out.new.items ≡ out.old.items ++ chains.verb_member scripts.now call ++ codes "}") }
{
    out.extend_from_slice(b",\"verb\":")?;
    push_quoted(out, verb_at(scripts, call).as_bytes())?;
    out.extend_from_slice(b"}")
}
