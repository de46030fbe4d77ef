//! The lines that tell what shows races: how a call ends in two runs, and which races were tried.

ghost use Rattle.std.specs.Prelude.{◌≡◌, ◌++◌, false, IfOk, OnOk};
ghost use Rattle.wire_scripts.specs.Scripts.{numbers_of};
ghost use Rattle.wire_report.specs.Views as spec;

use crate::findings::push_finding;
use crate::line_pieces::{push_counted, push_end_line};
use crate::unsettled::push_order;
use std::alloc::{AllocError, Global};
use wire_findings::Finding;
use wire_json::{RaceCounts, unshown_json};
use wire_scripts::Scripts;
use wire_types::{CallAt, CallEnd, Proc};
use wire_words::{push_call, verb_at};

/// Appends the line of the call that ends differently in two runs.
pub fn push_shown(out: &mut Vec<u8>, scripts: &Scripts, call: CallAt) -> Result<(), AllocError>
    ensures { OnOk result (out.new.items ≡ out.old.items ++ spec.shown_line scripts.now call) }
{
    push_shown_by(out, scripts, call)?;
    out.extend_from_slice(verb_at(scripts, call).as_bytes())?;
    out.extend_from_slice(b"\n")
}

/// Appends how a call ends in each of two runs.
pub fn push_ends(
    out: &mut Vec<u8>,
    scripts: &Scripts,
    first: &CallEnd,
    second: &CallEnd,
) -> Result<(), AllocError>
    ensures { OnOk result (out.new.items ≡ out.old.items ++ spec.both_ends scripts.now first.now second.now) }
{
    push_end_line(out, b"first ".as_slice(), scripts, first)?;
    push_end_line(out, b"second ".as_slice(), scripts, second)
}

/// Appends the orders of two runs.
pub fn push_orders(
    out: &mut Vec<u8>,
    scripts: &Scripts,
    first: &[Proc],
    second: &[Proc],
) -> Result<(), AllocError>
    ensures { OnOk result (out.new.items ≡ out.old.items ++ spec.both_orders scripts.now (numbers_of first.now) (numbers_of second.now)) }
{
    push_order(out, scripts, first)?;
    push_order(out, scripts, second)
}

/// The text that nothing shows two calls, of which a race is reported or not: in lines, or as JSON.
pub fn unshown_text(alloc: Global, race: bool, json: bool) -> Result<Vec<u8>, AllocError>
    ensures { IfOk result (λ text. text.items ≡ spec.unshown_form json race) }
{
    if json {
        return unshown_json(alloc, race);
    }
    unshown_lines(alloc, race)
}

/// The lines of it.
fn unshown_lines(alloc: Global, race: bool) -> Result<Vec<u8>, AllocError>
    ensures { IfOk result (λ text. text.items ≡ spec.unshown_form false race) }
{
    if race {
        return Vec::from_slice(
            alloc,
            b"not shown\nNo run that was tried shows this race. Another run may show it all the same.\n".as_slice(),
        );
    }
    Vec::from_slice(
        alloc,
        b"no race\n`check` reports no race of these two calls. `why` tells whether a chain orders them.\n".as_slice(),
    )
}

/// Appends the line of a race that was tried: whether it is shown, and by which call, and what `check` writes of it.
pub fn push_tried(
    out: &mut Vec<u8>,
    scripts: &Scripts,
    race: Finding,
    shown: Option<CallAt>,
) -> Result<(), AllocError>
    ensures { OnOk result (out.new.items ≡ out.old.items ++ spec.tried_line scripts.now race shown) }
{
    push_verdict(out, scripts, shown)?;
    push_finding(out, scripts, race)?;
    out.extend_from_slice(b"\n")
}

/// Appends whether a race is shown, and by which call.
fn push_verdict(
    out: &mut Vec<u8>,
    scripts: &Scripts,
    shown: Option<CallAt>,
) -> Result<(), AllocError>
    ensures { OnOk result (out.new.items ≡ out.old.items ++ spec.verdict_text scripts.now shown) }
{
    match shown {
        Some(call) => push_shown_by(out, scripts, call),
        None => out.extend_from_slice(b"not-shown "),
    }
}

/// Appends that a race is shown by a call.
fn push_shown_by(out: &mut Vec<u8>, scripts: &Scripts, call: CallAt) -> Result<(), AllocError>
    ensures { OnOk result (out.new.items ≡ out.old.items ++ spec.shown_by scripts.now call) }
{
    out.extend_from_slice(b"shown ")?;
    push_call(out, scripts, call)?;
    out.extend_from_slice(b" ")
}

/// Appends the last line: how many races there are, and how many are shown, not shown and not tried.
pub fn push_counts(out: &mut Vec<u8>, counts: RaceCounts) -> Result<(), AllocError>
    ensures { OnOk result (out.new.items ≡ out.old.items ++ spec.counts_line counts) }
{
    push_counted(out, b"races ".as_slice(), counts.races)?;
    push_judged(out, counts)?;
    push_counted(out, b" not-tried ".as_slice(), counts.not_tried)?;
    out.extend_from_slice(b"\n")
}

/// Appends how many of the races that were tried are shown, and how many aren't.
fn push_judged(out: &mut Vec<u8>, counts: RaceCounts) -> Result<(), AllocError>
    ensures { OnOk result (out.new.items ≡ out.old.items ++ spec.judged_text counts) }
{
    push_counted(out, b" shown ".as_slice(), counts.shown)?;
    push_counted(out, b" not-shown ".as_slice(), counts.not_shown)
}
