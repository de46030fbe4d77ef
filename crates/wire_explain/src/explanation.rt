//! The lines about a step that can't be taken.

ghost use Rattle.std.specs.Prelude.{◌≡◌, ◌++◌, true, map, codes, option_map, IfOk, OnOk};
ghost use Rattle.wire_core.specs.Course.{state_of};
ghost use Rattle.wire_explain.specs.Quote.{shown_byte, is_printable_text, labelled};
ghost use Rattle.wire_explain.specs.Stops as spec;

use crate::quote::{push_labelled, push_quoted, shown_text};
use crate::standing::{Standing, find_standing, push_said_call};
use std::alloc::{AllocError, Global};
use wire_core::Core;
use wire_reader::Cursor;
use wire_scripts::Scripts;
use wire_types::{CallAt, Proc};

/// The number of the line of a step, which is counted from 0; 0 where there is none.
fn line_of_step(alloc: Global, bytes: &[u8], step: u64) -> Result<u64, AllocError>
    ensures { IfOk result (λ line. line ≡ spec.line_of_step bytes.now step) }
{
    let mut before = step;
    let mut cursor = Cursor::new(bytes);
    let mut words = Vec::new(alloc);
    'lines: while let Some(line) = cursor.next_words(&mut words)? {
        if before == 0 {
            return Ok(line);
        }
        before -= 1;
    }
    Ok(0)
}

/// Appends the line that tells at which call a rank stands.
fn push_stands(out: &mut Vec<u8>, scripts: &Scripts, place: CallAt) -> Result<(), AllocError>
    ensures { OnOk result (out.new.items ≡ out.old.items ++ labelled (codes "  stands at: ") (spec.said_call scripts.now place)) }
{
    out.extend_from_slice(b"  stands at: ")?;
    push_said_call(out, scripts, place)?;
    out.extend_from_slice(b"\n")
}

/// Appends at which call a rank stands, and what it waits for there.
fn push_standing(
    out: &mut Vec<u8>,
    scripts: &Scripts,
    standing: &Standing,
) -> Result<(), AllocError>
    ensures { OnOk result (out.new.items ≡ out.old.items
        ++ (labelled (codes "  stands at: ") (spec.said_call scripts.now standing.now.call) ++ labelled (codes "  waits for:") standing.now.wait.items)) }
{
    push_stands(out, scripts, standing.call)?;
    push_labelled(out, b"  waits for:", standing.wait.as_slice())
}

/// Appends where a rank stands, and what it waits for there.
fn push_place(
    out: &mut Vec<u8>,
    scripts: &Scripts,
    standing: &Option<Standing>,
) -> Result<(), AllocError>
    ensures { OnOk result (out.new.items ≡ out.old.items ++ spec.standing_text scripts.now (option_map (λ it. (it.call, it.wait.items)) standing.now)) }
{
    match standing {
        Some(standing) => push_standing(out, scripts, standing),
        None => out.extend_from_slice(b"  stands at: its end, with no call left\n"),
    }
}

/// The lines about a step of an order, counted from 0, that its rank can't take. Only printable ASCII and line feeds
/// are in them.
pub(crate) fn explanation_of(
    alloc: Global,
    order_bytes: &[u8],
    core: &Core<'_>,
    step: u64,
    proc: Proc,
) -> Result<Vec<u8>, AllocError>
    ensures explanation { IfOk result (λ text. text.items
        ≡ map shown_byte (spec.stop_explanation order_bytes.now core.now.scripts (state_of core.now) step proc.number)) }
    ensures printable { IfOk result (λ text. is_printable_text text.items ≡ true) }
{
    let mut explanation = Vec::new(alloc);
    push_quoted(
        &mut explanation,
        order_bytes,
        line_of_step(alloc, order_bytes, step)?,
    )?;
    let standing = find_standing(alloc, core, proc)?;
    push_place(&mut explanation, core.plan().scripts(), &standing)?;
    shown_text(alloc, explanation.as_slice())
}
