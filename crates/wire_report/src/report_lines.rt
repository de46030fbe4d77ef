//! The lines of a report.

ghost use Rattle.std.specs.Prelude.{◌≡◌, ◌++◌, OnOk};
ghost use Rattle.wire_types.specs.Texts.{lists_of};
ghost use Rattle.wire_report.specs.Report.{call_line, process_lines, all_lines};

use crate::line_pieces::{push_counted, push_end_line, push_spaced};
use std::alloc::AllocError;
use wire_scripts::{Process, Scripts};
use wire_types::{Call, CallEnd};
use wire_words::{push_process, verb};

/// Appends the lines of all processes, each with its row.
pub fn push_all(
    out: &mut Vec<u8>,
    scripts: &Scripts,
    rows: &[Vec<CallEnd>],
) -> Result<(), AllocError>
    ensures { OnOk result (out.new.items ≡ out.old.items ++ all_lines scripts.now scripts.now.processes (lists_of rows.now)) }
{
    for (process, row) in scripts.processes().iter().zip(rows) {
        push_process_lines(out, scripts, process, row.as_slice())?;
    }
    Ok(())
}

/// A call with its number in its process, from 1, and what became of it.
#[derive(Clone, Copy)]
struct EndedCall<'a> {
    number: usize,
    call: &'a Call,
    end: &'a CallEnd,
}

/// Appends the lines of a process.
fn push_process_lines(
    out: &mut Vec<u8>,
    scripts: &Scripts,
    process: &Process,
    ends: &[CallEnd],
) -> Result<(), AllocError>
    ensures { OnOk result (out.new.items ≡ out.old.items ++ process_lines scripts.now process.now ends.now) }
{
    for (i, (call, end)) in process.calls().iter().zip(ends).enumerate() {
        let number = i + 1;
        push_line(out, scripts, process, EndedCall { number, call, end })?;
    }
    Ok(())
}

/// Appends the line of a process's call.
fn push_line(
    out: &mut Vec<u8>,
    scripts: &Scripts,
    process: &Process,
    ended: EndedCall<'_>,
) -> Result<(), AllocError>
    ensures { OnOk result (out.new.items ≡ out.old.items
        ++ call_line scripts.now process.now ended.entry.number ended.entry.call.now ended.entry.end.now) }
{
    push_process(out, scripts, process)?;
    push_counted(out, b" ".as_slice(), ended.number as u64)?;
    push_spaced(out, verb(ended.call).as_bytes())?;
    push_end_line(out, b" ".as_slice(), scripts, ended.end)
}
