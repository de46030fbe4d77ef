//! Where a call stands in a file.

ghost use Rattle.std.specs.Prelude.{◌≡◌, ◌++◌, map, slice_index_or, OnOk};
ghost use Rattle.wire_types.specs.Texts.{lists_of};
ghost use Rattle.wire_report.specs.Place as spec;

use std::alloc::AllocError;
use wire_types::CallAt;
use wire_words::push_number;

/// The places of the calls of a file: the name of the file, and the number of the line of each call, a row for
/// each process.
#[derive(Clone, Copy)]
pub struct SourceLines<'a> {
    pub name: &'a [u8],
    pub rows: &'a [Vec<u64>],
}

/// A byte as it is shown: `?` for what isn't printable ASCII.
fn name_byte(byte: u8) -> u8
    ensures { result ≡ spec.name_byte byte }
{
    if 32 <= byte && byte <= 126 {
        byte
    } else {
        b'?'
    }
}

/// Appends a name as it is shown.
fn push_name(out: &mut Vec<u8>, name: &[u8]) -> Result<(), AllocError>
    ensures { OnOk result (out.new.items ≡ out.old.items ++ map spec.name_byte name.now) }
{
    for byte in name {
        out.push(name_byte(*byte))?;
    }
    Ok(())
}

/// The number of a call's line, 0 where it has none.
pub fn line_of(rows: &[Vec<u64>], call: CallAt) -> u64
    ensures { result ≡ spec.line_of (lists_of rows.now) call }
{
    match rows.get(call.proc.index()) {
        Some(row) => row_line(row.as_slice(), call.call as usize),
        None => 0,
    }
}

/// The number at a place of a row, 0 where there is none.
fn row_line(row: &[u64], place: usize) -> u64
    ensures { result ≡ slice_index_or row.now place 0 }
{
    match row.get(place) {
        Some(line) => *line,
        None => 0,
    }
}

/// Appends where a call stands: the name of the file, a colon, the number of the line, a colon and a space. A
/// byte of the name that isn't printable ASCII is shown as `?`.
pub fn push_place(
    out: &mut Vec<u8>,
    places: SourceLines<'_>,
    call: CallAt,
) -> Result<(), AllocError>
    ensures { OnOk result (out.new.items ≡ out.old.items
        ++ spec.place_text places.entry.name.now (lists_of places.entry.rows.now) call) }
{
    push_name(out, places.name)?;
    out.extend_from_slice(b":")?;
    push_number(out, line_of(places.rows, call))?;
    out.extend_from_slice(b": ")
}
