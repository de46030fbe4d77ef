//! The calls whose replies differ between placements, in lines.

ghost use Rattle.std.specs.Prelude.{◌≡◌, ◌++◌, IfOk, OnOk};
ghost use Rattle.std.specs.List.{flat_map};
ghost use Rattle.wire_types.specs.Forms.{has_places};
ghost use Rattle.wire_types.specs.Texts.{lists_of};
ghost use Rattle.wire_words.specs.Words as words;
ghost use Rattle.wire_anywhere_report.specs.Differing as spec;

use crate::placed_groups::push_said;
use std::alloc::{AllocError, Global};
use wire_anywhere::Differing;
use wire_report::{SourceLines, push_place};
use wire_scripts::Scripts;
use wire_types::{CallAt, CallEnd, OutputFormat, Proc, Reply, Status};
use wire_words::{end_word, push_number, push_proc};

/// The name of a status.
pub(crate) fn status_name(status: Status) -> &'static str
    ensures { result.now ≡ words.status_name status }
{
    end_word(&CallEnd::Replied(Reply::bare(status)))
}

/// Appends where a call stands, in a form with places.
fn push_place_in(
    out: &mut Vec<u8>,
    places: SourceLines<'_>,
    form: OutputFormat,
    call: CallAt,
) -> Result<(), AllocError>
    ensures { OnOk result (out.new.items ≡ out.old.items
        ++ spec.place_part (has_places form) places.entry.name.now (lists_of places.entry.rows.now) call) }
{
    if form.has_places() {
        push_place(out, places, call)
    } else {
        Ok(())
    }
}

/// Appends the owner of a key, and the key.
fn push_key(out: &mut Vec<u8>, scripts: &Scripts, owner: Proc, key: u32) -> Result<(), AllocError>
    ensures { OnOk result (out.new.items ≡ out.old.items
        ++ spec.key_part scripts.now owner.number key) }
{
    out.extend_from_slice(b" key ")?;
    push_proc(out, scripts, owner)?;
    out.extend_from_slice(b" ")?;
    out.extend_from_slice(scripts.keys().text(key))
}

/// Appends two replies, and the end of the line.
fn push_replies(out: &mut Vec<u8>, near: Status, alone: Status) -> Result<(), AllocError>
    ensures { OnOk result (out.new.items ≡ out.old.items
        ++ spec.replies_part near alone) }
{
    out.extend_from_slice(b" near ")?;
    out.extend_from_slice(status_name(near).as_bytes())?;
    out.extend_from_slice(b" alone ")?;
    out.extend_from_slice(status_name(alone).as_bytes())?;
    out.extend_from_slice(b"\n")
}

/// Appends what is said of a call.
fn push_words(out: &mut Vec<u8>, scripts: &Scripts, differing: Differing) -> Result<(), AllocError>
    ensures { OnOk result (out.new.items ≡ out.old.items ++ spec.differs_words scripts.now differing) }
{
    out.extend_from_slice(b"differs ")?;
    push_said(out, scripts, differing.call)?;
    push_key(out, scripts, differing.owner, differing.key)?;
    push_replies(out, differing.near, differing.alone)
}

/// Appends the line of a call.
fn push_line(
    out: &mut Vec<u8>,
    scripts: &Scripts,
    places: SourceLines<'_>,
    form: OutputFormat,
    differing: Differing,
) -> Result<(), AllocError>
    ensures { OnOk result (out.new.items ≡ out.old.items
        ++ spec.differs_line (has_places form) places.entry.name.now (lists_of places.entry.rows.now) scripts.now differing) }
{
    push_place_in(out, places, form, differing.call)?;
    push_words(out, scripts, differing)
}

/// Appends the lines of all calls.
fn push_lines(
    out: &mut Vec<u8>,
    scripts: &Scripts,
    places: SourceLines<'_>,
    form: OutputFormat,
    differing: &[Differing],
) -> Result<(), AllocError>
    ensures { OnOk result (out.new.items ≡ out.old.items
        ++ flat_map (spec.differs_line (has_places form) places.entry.name.now (lists_of places.entry.rows.now) scripts.now)
        differing.now) }
{
    for one in differing {
        push_line(out, scripts, places, form, *one)?;
    }
    Ok(())
}

/// Appends how many calls there are.
fn push_count(out: &mut Vec<u8>, count: usize) -> Result<(), AllocError>
    ensures { OnOk result (out.new.items ≡ out.old.items ++ spec.differing_count count) }
{
    out.extend_from_slice(b"differing ")?;
    push_number(out, count as u64)?;
    out.extend_from_slice(b"\n")
}

/// The lines of all calls, below the line that says that there are no findings, and last how many they are.
pub(crate) fn differing_lines(
    alloc: Global,
    scripts: &Scripts,
    places: SourceLines<'_>,
    form: OutputFormat,
    differing: &[Differing],
) -> Result<Vec<u8>, AllocError>
    ensures { IfOk result (λ text. text.items
        ≡ spec.differing_report (has_places form) places.entry.name.now (lists_of places.entry.rows.now) scripts.now differing.now) }
{
    let mut text = Vec::new(alloc);
    text.extend_from_slice(b"findings 0\n")?;
    push_lines(&mut text, scripts, places, form, differing)?;
    push_count(&mut text, differing.len())?;
    Ok(text)
}
