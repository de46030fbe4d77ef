//! Texts of several lines in JSON: as one string, and as a list of the strings of their lines.

ghost use Rattle.std.specs.Prelude.{◌≡◌, ◌++◌, flat_map, IfOk, OnOk};
ghost use Rattle.wire_types.specs.Texts.{lists_of};
ghost use Rattle.wire_json.specs.Json.{escaped_byte, printed, quoted};
ghost use Rattle.wire_pattern_commands.specs.Strings as spec;

use std::alloc::{AllocError, Global};
use wire_json::{push_list, push_quoted};
use wire_lines::cut_piece;

/// A printable byte is itself, and any other a question mark.
fn printable(byte: u8) -> u8
    ensures { result ≡ printed byte }
{
    if 31 < byte && byte < 127 { byte } else { b'?' }
}

/// Appends a byte, with a backslash before a quote and a backslash.
fn push_escaped(out: &mut Vec<u8>, byte: u8) -> Result<(), AllocError>
    ensures { OnOk result (out.new.items ≡ out.old.items ++ escaped_byte byte) }
{
    if byte == b'"' || byte == b'\\' {
        out.push(b'\\')?;
    }
    out.push(byte)?;
    Ok(())
}

/// Appends a byte of a text as it stands in a string.
fn push_byte(out: &mut Vec<u8>, byte: u8) -> Result<(), AllocError>
    ensures { OnOk result (out.new.items ≡ out.old.items ++ spec.text_byte byte) }
{
    if byte == b'\n' {
        return out.extend_from_slice(b"\\n");
    }
    push_escaped(out, printable(byte))
}

/// Appends the bytes of a text as they stand in a string.
fn push_bytes(out: &mut Vec<u8>, text: &[u8]) -> Result<(), AllocError>
    ensures { OnOk result (out.new.items ≡ out.old.items ++ flat_map spec.text_byte text.now) }
{
    for byte in text {
        push_byte(out, *byte)?;
    }
    Ok(())
}

/// Appends a text as one string: each line feed as a backslash and `n`, a quote and a backslash with a backslash before
/// them, and any other byte that isn't printable as a question mark.
pub(crate) fn push_text(out: &mut Vec<u8>, text: &[u8]) -> Result<(), AllocError>
    ensures { OnOk result (out.new.items ≡ out.old.items ++ spec.text_string text.now) }
{
    out.extend_from_slice(b"\"")?;
    push_bytes(out, text)?;
    out.extend_from_slice(b"\"")
}

/// Words as a string.
pub(crate) fn string_of(alloc: Global, words: &[u8]) -> Result<Vec<u8>, AllocError>
    ensures { IfOk result (λ string. string.items ≡ quoted words.now) }
{
    let mut string = Vec::new(alloc);
    push_quoted(&mut string, words)?;
    Ok(string)
}

/// Of each line of a text a string.
fn line_strings(alloc: Global, text: &[u8]) -> Result<Vec<Vec<u8>>, AllocError>
    ensures { IfOk result (λ strings. lists_of strings.items ≡ spec.line_strings text.now) }
{
    let mut strings = Vec::new(alloc);
    let mut rest = text;
    'lines: while !rest.is_empty() {
        let (line, later) = cut_piece(rest);
        strings.push(string_of(alloc, line)?)?;
        rest = later;
    }
    Ok(strings)
}

/// Appends the lines of a text as a list of strings.
pub(crate) fn push_lines(alloc: Global, out: &mut Vec<u8>, text: &[u8]) -> Result<(), AllocError>
    ensures { OnOk result (out.new.items ≡ out.old.items ++ spec.lines_list text.now) }
{
    let strings = line_strings(alloc, text)?;
    push_list(out, strings.as_slice())
}
