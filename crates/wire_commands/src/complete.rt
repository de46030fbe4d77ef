//! `replay --complete`: the first call of a run that doesn't succeed.

ghost use Rattle.std.specs.Prelude.{◌≡◌, ◌<◌, ◌^◌, ℕ, true, false, length, slice_get, IfOk, IfSome, IfNone};
ghost use Rattle.wire_types.specs.Outcome.{ends_of};
ghost use Rattle.wire_scripts.specs.Scripts.{calls_in};
ghost use Rattle.wire_command.specs.Success as success;
ghost use Rattle.wire_commands.specs.Complete as spec;
ghost use Rattle.wire_commands.specs.Complete.{EverySucceeds, IsFirstFailure, TellsFailure, line_in};

use std::alloc::{AllocError, Global};
use wire_scripts::Scripts;
use wire_types::{CallAt, CallEnd, Outcome, Proc, Status};
use wire_words::{push_call, push_end, verb_at};

/// Whether a call was answered `PMIX_SUCCESS`.
fn succeeds(end: CallEnd) -> bool
    ensures { result ≡ success.succeeds end }
{
    match end {
        CallEnd::Replied(reply) => reply.status == Status::Success,
        _ => false,
    }
}

/// What became of a call, `Unreached` where the outcome doesn't have it.
fn end_at(outcome: &Outcome, proc: Proc, call: usize) -> CallEnd
    ensures { result ≡ spec.end_of (ends_of outcome.now) proc.number call }
{
    match outcome.rows.get(proc.index()) {
        Some(row) => match row.get(call) {
            Some(end) => *end,
            None => CallEnd::Unreached,
        },
        None => CallEnd::Unreached,
    }
}

/// The first of so many calls of a process that doesn't succeed.
fn find_failing_call(outcome: &Outcome, proc: Proc, calls: usize) -> Option<usize>
    ensures some { IfSome result (λ n. (n < calls) × (success.succeeds (spec.end_of (ends_of outcome.now) proc.number n) ≡ false)
        × ((m : ℕ) → m < n → success.succeeds (spec.end_of (ends_of outcome.now) proc.number m) ≡ true)) }
    ensures none { IfNone result ((m : ℕ) → m < calls → success.succeeds (spec.end_of (ends_of outcome.now) proc.number m) ≡ true) }
{
    for call in 0..calls {
        if !succeeds(end_at(outcome, proc, call)) {
            return Some(call);
        }
    }
    None
}

/// How many calls a process has, none where it isn't there.
fn call_count(scripts: &Scripts, proc: Proc) -> usize
    ensures count { result ≡ length (calls_in (slice_get scripts.now.processes proc.number)) }
    ensures fits { result < 2 ^ 31 }
{
    match scripts.processes().get(proc.index()) {
        Some(process) => process.calls().len(),
        None => 0,
    }
}

/// The first call that doesn't succeed.
fn find_failure(scripts: &Scripts, outcome: &Outcome) -> Option<CallAt>
    ensures some { IfSome result (IsFirstFailure scripts.now (ends_of outcome.now)) }
    ensures none { IfNone result (EverySucceeds scripts.now (ends_of outcome.now)) }
{
    for number in 0..scripts.processes().len() as u32 {
        let proc = Proc::new(number);
        if let Some(call) = find_failing_call(outcome, proc, call_count(scripts, proc)) {
            let call = call as u32;
            return Some(CallAt { proc, call });
        }
    }
    None
}

/// The line of a call, as a report has it.
fn line_of(
    alloc: Global,
    scripts: &Scripts,
    outcome: &Outcome,
    place: CallAt,
) -> Result<Vec<u8>, AllocError>
    ensures { IfOk result (λ line. line.items ≡ spec.line_of scripts.now (ends_of outcome.now) place) }
{
    let mut line = Vec::new(alloc);
    push_call(&mut line, scripts, place)?;
    line.extend_from_slice(b" ")?;
    line.extend_from_slice(verb_at(scripts, place).as_bytes())?;
    line.extend_from_slice(b" ")?;
    let end = end_at(outcome, place.proc, place.call as usize);
    push_end(&mut line, scripts, &end)?;
    line.extend_from_slice(b"\n")?;
    Ok(line)
}

/// The line of the report of the first call that doesn't succeed, where there is one.
pub(crate) fn tell_failure(
    alloc: Global,
    scripts: &Scripts,
    outcome: &Outcome,
) -> Result<Option<Vec<u8>>, AllocError>
    ensures { IfOk result (λ line. TellsFailure scripts.now (ends_of outcome.now) (line_in line)) }
{
    match find_failure(scripts, outcome) {
        Some(place) => Ok(Some(line_of(alloc, scripts, outcome, place)?)),
        None => Ok(None),
    }
}
