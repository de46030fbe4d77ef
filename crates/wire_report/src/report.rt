//! The report of a replay.

ghost use Rattle.std.specs.Prelude.{◌≡◌, ◌≢◌, ◌⊎◌, ◌++◌, Err, IfOk, OnOk, IfErr};
ghost use Rattle.std.specs.Io.KnownBytes.{Appends};
ghost use Rattle.wire_types.specs.declared.Fault.TheVariants.{Memory};
ghost use Rattle.wire_types.specs.Counting.{one_more};
ghost use Rattle.wire_types.specs.Front.{WritesFront};
ghost use Rattle.wire_types.specs.Outcome.{ends_of};
ghost use Rattle.wire_report.specs.Report.{report, report_form};

use crate::report_lines::push_all;
use std::alloc::{AllocError, Global};
use wire_json::report_json;
use wire_scripts::Scripts;
use wire_types::{Fault, Outcome, Sink, write_out};
use wire_words::push_number;

/// The report of what became of every call: a line for each call, and last how many processes wait, or
/// the same as JSON. Fails only where memory runs out.
pub fn report_text(
    alloc: Global,
    scripts: &Scripts,
    outcome: &Outcome,
    json: bool,
) -> Result<Vec<u8>, Fault>
    ensures ok { IfOk result (λ text. text.items ≡ report_form json scripts.now (ends_of outcome.now)) }
    ensures err { IfErr result (λ e. e ≡ Memory) }
{
    if json {
        return Ok(report_json(alloc, scripts, outcome)?);
    }
    let mut text = Vec::new(alloc);
    push_report(&mut text, scripts, outcome)?;
    Ok(text)
}

/// Appends the lines of a report.
pub fn push_report(
    out: &mut Vec<u8>,
    scripts: &Scripts,
    outcome: &Outcome,
) -> Result<(), AllocError>
    ensures { OnOk result (out.new.items ≡ out.old.items ++ report scripts.now (ends_of outcome.now)) }
{
    push_all(out, scripts, outcome.rows.as_slice())?;
    out.extend_from_slice(b"waiting ")?;
    push_number(out, u64::from(outcome.waiting))?;
    out.extend_from_slice(b"\n")
}

/// Writes the report to the sink, once all of it is made: where memory runs out, nothing is written. No command
/// calls this.
pub fn write_report<S: Sink>(
    alloc: Global,
    scripts: &Scripts,
    outcome: &Outcome,
    json: bool,
    sink: &mut S,
) -> Result<(), Fault>
    ensures ok { OnOk result (Appends (S.written sink.old) (S.written sink.new) (report_form json scripts.now (ends_of outcome.now))) }
    ensures quiet { OnOk result (S.failures sink.new ≡ S.failures sink.old) }
    ensures memory { result ≡ Err Memory → sink.new ≡ sink.old }
    ensures err { IfErr result (λ e. (e ≡ Memory)
        ⊎ WritesFront (S.written sink.old) (S.written sink.new) (report_form json scripts.now (ends_of outcome.now)) e) }
    ensures failed { IfErr result (λ e. e ≢ Memory → S.failures sink.new ≡ one_more (S.failures sink.old)) }
{
    let text = report_text(alloc, scripts, outcome, json)?;
    write_out(sink, text.as_slice()).map_err(Fault::Write)
}
