//! Whether one call is before another, and the chain that shows it.

ghost use Rattle.std.specs.Prelude.{◌≡◌, ◌≢◌, ◌<◌, ◌⊎◌, ℕ, List, false, length, Err, IfOk, OnOk, IfErr};
ghost use Rattle.std.specs.Io.KnownBytes.{Appends};
ghost use Rattle.wire_types.specs.declared.Fault.TheVariants.{Memory};
ghost use Rattle.wire_types.specs.Counting.{one_more};
ghost use Rattle.wire_types.specs.Front.{WritesFront};
ghost use Rattle.wire_scripts.specs.Planned.{plan_of};
ghost use Rattle.wire_runs.specs.Ends.{calls_of};
ghost use Rattle.wire_report.specs.Chain.{IsChainText, OneChainText};

use crate::chain_parts::{ordered_text, unordered_text};
use crate::writing::write_text;
use std::alloc::Global;
use wire_happens_before::MarkedPlan;
use wire_types::{CallAt, Fault, Sink};

/// Whether a chain of events leads from the first call to the second: `before` and the events of the chain that
/// is shown, else `after` and those of the chain the other way round, else `unordered` and which of the two calls
/// isn't live; or the same as JSON. A fence counts by the arrival at it. The one fault is `Fault::Memory`.
pub fn chain_text(
    alloc: Global,
    marked: &MarkedPlan<'_>,
    calls: (CallAt, CallAt),
    json: bool,
) -> Result<Vec<u8>, Fault>
    requires x_there { calls.0.call < length (calls_of (plan_of marked.now) calls.0.proc.number) }
    requires y_there { calls.1.call < length (calls_of (plan_of marked.now) calls.1.proc.number) }
    ensures ok { IfOk result (λ text. IsChainText json marked.now calls.0 calls.1 text.items) }
    ensures err { IfErr result (λ e. e ≡ Memory) }
{
    let plan = marked.plan();
    let marks = marked.marks();
    let from = plan.first_event(calls.0);
    let to = plan.first_event(calls.1);
    if let Some(chain) = marks.chain(alloc, plan, from, to)? {
        return ordered_text(alloc, plan, true, chain.as_slice(), json);
    }
    if let Some(chain) = marks.chain(alloc, plan, to, from)? {
        return ordered_text(alloc, plan, false, chain.as_slice(), json);
    }
    unordered_text(alloc, marked, calls, json)
}

/// Writes the lines of the chain to the sink, once all of it is made: where memory runs out, nothing is
/// written. No command calls this.
pub fn write_chain<S: Sink>(
    alloc: Global,
    marked: &MarkedPlan<'_>,
    x: CallAt,
    y: CallAt,
    sink: &mut S,
) -> Result<(), Fault>
    requires x_there { x.call < length (calls_of (plan_of marked.now) x.proc.number) }
    requires y_there { y.call < length (calls_of (plan_of marked.now) y.proc.number) }
    ensures ok { OnOk result ((text : List ℕ) × IsChainText false marked.now x y text × Appends (S.written sink.old) (S.written sink.new) text) }
    ensures quiet { OnOk result (S.failures sink.new ≡ S.failures sink.old) }
    ensures memory { result ≡ Err Memory → sink.new ≡ sink.old }
    ensures err { IfErr result (λ e. (e ≡ Memory) ⊎ ((text : List ℕ) × IsChainText false marked.now x y text
        × WritesFront (S.written sink.old) (S.written sink.new) text e)) }
    ensures failed { IfErr result (λ e. e ≢ Memory → S.failures sink.new ≡ one_more (S.failures sink.old)) }
{
    let text = chain_text(alloc, marked, (x, y), false)?;
    write_text(sink, text.as_slice())
}

/// For two calls of a plan there is one text in each form.
pub fn one_chain_text()
    ensures { OneChainText }
{
    wire_happens_before::one_shown();
}
