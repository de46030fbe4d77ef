//! The text of a replay of a plan with findings.

ghost use Rattle.std.specs.Prelude.{◌≡◌, ◌≢◌, ◌⊎◌, ◌++◌, Err, flat_map, IfOk, OnOk, IfErr};
ghost use Rattle.std.specs.Io.KnownBytes.{Appends};
ghost use Rattle.wire_types.specs.declared.Fault.TheVariants.{Memory};
ghost use Rattle.wire_types.specs.Counting.{one_more};
ghost use Rattle.wire_types.specs.Front.{WritesFront};
ghost use Rattle.wire_types.specs.Outcome.{ends_of};
ghost use Rattle.wire_scripts.specs.Scripts.{numbers_of};
ghost use Rattle.wire_report.specs.Unsettled as spec;

use crate::report::push_report;
use std::alloc::{AllocError, Global};
use wire_json::unsettled_json;
use wire_scripts::Scripts;
use wire_types::{Fault, Outcome, Proc, Sink, write_out};
use wire_words::{push_number, push_proc};

/// The text of a replay of a plan with findings: a line that says so, the report, how many steps were
/// taken, and a line for each step with its process, or the same as JSON. The lines of the steps are an
/// order file. The one fault is `Fault::Memory`.
pub fn unsettled_text(
    alloc: Global,
    scripts: &Scripts,
    outcome: &Outcome,
    order: &[Proc],
    json: bool,
) -> Result<Vec<u8>, Fault>
    ensures ok { IfOk result (λ text. text.items ≡ spec.unsettled_form json scripts.now (ends_of outcome.now) (numbers_of order.now)) }
    ensures err { IfErr result (λ e. e ≡ Memory) }
{
    if json {
        return Ok(unsettled_json(alloc, scripts, outcome, order)?);
    }
    let mut text = Vec::new(alloc);
    text.extend_from_slice(b"unsettled\n")?;
    push_report(&mut text, scripts, outcome)?;
    push_order(&mut text, scripts, order)?;
    Ok(text)
}

/// Writes the text to the sink, once all of it is made: where memory runs out, nothing is written. No command
/// calls this.
pub fn write_unsettled<S: Sink>(
    alloc: Global,
    scripts: &Scripts,
    outcome: &Outcome,
    order: &[Proc],
    json: bool,
    sink: &mut S,
) -> Result<(), Fault>
    ensures ok { OnOk result (Appends (S.written sink.old) (S.written sink.new)
        (spec.unsettled_form json scripts.now (ends_of outcome.now) (numbers_of order.now))) }
    ensures quiet { OnOk result (S.failures sink.new ≡ S.failures sink.old) }
    ensures memory { result ≡ Err Memory → sink.new ≡ sink.old }
    ensures err { IfErr result (λ e. (e ≡ Memory) ⊎ WritesFront (S.written sink.old) (S.written sink.new)
        (spec.unsettled_form json scripts.now (ends_of outcome.now) (numbers_of order.now)) e) }
    ensures failed { IfErr result (λ e. e ≢ Memory → S.failures sink.new ≡ one_more (S.failures sink.old)) }
{
    let text = unsettled_text(alloc, scripts, outcome, order, json)?;
    write_out(sink, text.as_slice()).map_err(Fault::Write)
}

/// Appends how many steps were taken, and their lines.
pub(crate) fn push_order(
    out: &mut Vec<u8>,
    scripts: &Scripts,
    order: &[Proc],
) -> Result<(), AllocError>
    ensures { OnOk result (out.new.items ≡ out.old.items ++ spec.order_text scripts.now (numbers_of order.now)) }
{
    out.extend_from_slice(b"order ")?;
    push_number(out, order.len() as u64)?;
    out.extend_from_slice(b"\n")?;
    push_steps(out, scripts, order)
}

/// Appends the lines of these steps, which are an order file.
pub fn push_steps(out: &mut Vec<u8>, scripts: &Scripts, order: &[Proc]) -> Result<(), AllocError>
    ensures { OnOk result (out.new.items ≡ out.old.items
        ++ flat_map (spec.step_line scripts.now) (numbers_of order.now)) }
{
    for proc in order {
        push_proc(out, scripts, *proc)?;
        out.extend_from_slice(b"\n")?;
    }
    Ok(())
}
