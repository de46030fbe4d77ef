//! A line of a file, quoted.

ghost use Rattle.std.specs.Prelude.{◌≡◌, ◌++◌, true, map, option_map, OnOk, IfOk};
ghost use Rattle.wire_explain.specs.Quote as spec;

use itoa::Buffer;
use std::alloc::{AllocError, Global};
use wire_lines::{cut_piece, trim_return};

/// How many bytes of a line are shown.
pub(crate) const SHOWN_BYTES: usize = 120;

/// The byte as it is shown: `?` for one that a terminal doesn't show as it is.
fn shown_byte(byte: u8) -> u8
    ensures { result ≡ spec.shown_byte byte }
{
    if byte == b'\n' || (b' '..=b'~').contains(&byte) {
        byte
    } else {
        b'?'
    }
}

/// A text of which each byte is shown: only printable ASCII and line feeds.
#[tactic(auto, using(crate::proofs::Shown::shown_is_printable))]
pub fn shown_text(alloc: Global, text: &[u8]) -> Result<Vec<u8>, AllocError>
    ensures text { IfOk result (λ shown. shown.items ≡ map spec.shown_byte text.now) }
    ensures printable { IfOk result (λ shown. spec.is_printable_text shown.items ≡ true) }
{
    let mut shown = Vec::with_capacity(alloc, text.len())?;
    for byte in text {
        shown.push(shown_byte(*byte))?;
    }
    Ok(shown)
}

/// The line of this number, counted from 1.
pub(crate) fn find_line(bytes: &[u8], number: u64) -> Option<&[u8]>
    ensures { option_map (λ line. line.now) result ≡ spec.line_at bytes.now number }
{
    let mut rest = bytes;
    let mut before = number.saturating_sub(1);
    'lines: while !rest.is_empty() {
        let (piece, later) = cut_piece(rest);
        if before == 0 {
            return Some(trim_return(piece));
        }
        before -= 1;
        rest = later;
    }
    None
}

/// Appends so many bytes of a line at most.
pub(crate) fn push_front(out: &mut Vec<u8>, line: &[u8], most: usize) -> Result<(), AllocError>
    ensures { OnOk result (out.new.items ≡ out.old.items ++ spec.front_of most line.now) }
{
    if line.len() > most {
        out.extend_from_slice(&line[..most])?;
        out.extend_from_slice(b"..")
    } else {
        out.extend_from_slice(line)
    }
}

/// Appends the line of this number, with its number before it.
pub fn push_quoted(out: &mut Vec<u8>, bytes: &[u8], number: u64) -> Result<(), AllocError>
    ensures { OnOk result (out.new.items ≡ out.old.items ++ spec.quoted bytes.now number) }
{
    let mut digits = Buffer::new();
    out.extend_from_slice(b"  ")?;
    out.extend_from_slice(digits.format(number).as_bytes())?;
    out.extend_from_slice(b" | ")?;
    push_shown(out, find_line(bytes, number))?;
    out.extend_from_slice(b"\n")
}

/// Appends a line, or that there is none.
fn push_shown(out: &mut Vec<u8>, line: Option<&[u8]>) -> Result<(), AllocError>
    ensures { OnOk result (out.new.items ≡ out.old.items ++ spec.quoted_line (option_map (λ l. l.now) line.entry)) }
{
    match line {
        Some(line) => push_front(out, line, SHOWN_BYTES),
        None => out.extend_from_slice(b"(the file ends here)"),
    }
}

/// Appends a line of two parts.
pub(crate) fn push_labelled(out: &mut Vec<u8>, label: &[u8], text: &[u8]) -> Result<(), AllocError>
    ensures { OnOk result (out.new.items ≡ out.old.items ++ spec.labelled label.now text.now) }
{
    out.extend_from_slice(label)?;
    out.extend_from_slice(text)?;
    out.extend_from_slice(b"\n")
}
