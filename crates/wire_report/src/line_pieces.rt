//! Pieces that the lines of several texts share.

ghost use Rattle.std.specs.Prelude.{◌≡◌, ◌+◌, ◌<◌, ◌≤◌, ◌++◌, codes, length, vec_capacity, OnOk, OnErr};
ghost use Rattle.wire_report.specs.Views.{count_text, end_line};

use std::alloc::AllocError;
use wire_scripts::Scripts;
use wire_types::CallEnd;
use wire_words::{push_end, push_number};

/// Appends a text behind a space. Fails only where there is no room for them.
pub(crate) fn push_spaced(out: &mut Vec<u8>, text: &[u8]) -> Result<(), AllocError>
    ensures ok { OnOk result (out.new.items ≡ out.old.items ++ (codes " " ++ text.now)) }
    ensures capacity { vec_capacity out.old ≤ vec_capacity out.new }
    ensures full { OnErr result (vec_capacity out.old < length out.old.items + length (codes " " ++ text.now)) }
{
    out.extend_from_slice(b" ")?;
    out.extend_from_slice(text)
}

/// Appends a number behind a word or a space.
pub(crate) fn push_counted(out: &mut Vec<u8>, word: &[u8], count: u64) -> Result<(), AllocError>
    ensures { OnOk result (out.new.items ≡ out.old.items ++ count_text word.now count) }
{
    out.extend_from_slice(word)?;
    push_number(out, count)
}

/// Appends how a call ends, behind a word, and ends the line.
pub(crate) fn push_end_line(
    out: &mut Vec<u8>,
    word: &[u8],
    scripts: &Scripts,
    end: &CallEnd,
) -> Result<(), AllocError>
    ensures { OnOk result (out.new.items ≡ out.old.items ++ end_line word.now scripts.now end.now) }
{
    out.extend_from_slice(word)?;
    push_end(out, scripts, end)?;
    out.extend_from_slice(b"\n")
}
