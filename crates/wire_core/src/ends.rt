//! What became of the calls of a process.

ghost use Rattle.std.specs.Prelude.{◌≡◌, ◌<◌, ◌-◌, ◌++◌, ℕ, Some, length, map, replicate, slice_get, OnOk, IfOk};
ghost use Rattle.wire_types.specs.declared.CallEnd.TheVariants.{Replied, Unreached};
ghost use Rattle.wire_runs.specs.Ends.{standing, unanswered};

use std::alloc::{AllocError, Global};
use wire_types::{CallEnd, Reply};

/// The calls that have these replies, with room for so many calls.
pub(crate) fn ends_of_replies(
    alloc: Global,
    replies: &[Reply],
    calls: usize,
) -> Result<Vec<CallEnd>, AllocError>
    ensures { IfOk result (λ ends. ends.items ≡ map Replied replies.now) }
{
    let mut ends = Vec::with_capacity(alloc, calls)?;
    for reply in replies {
        ends.push(CallEnd::Replied(*reply))?;
    }
    Ok(ends)
}

/// The call at which a process stands.
fn standing_end(ready: bool) -> CallEnd
    ensures { result ≡ standing ready }
{
    if ready {
        CallEnd::Ready
    } else {
        CallEnd::Waiting
    }
}

/// Adds so many calls that a process hasn't come to.
fn add_unreached(ends: &mut Vec<CallEnd>, count: usize) -> Result<(), AllocError>
    ensures { OnOk result (ends.new.items ≡ ends.old.items ++ replicate count Unreached) }
{
    for _ in 0..count {
        ends.push(CallEnd::Unreached)?;
    }
    Ok(())
}

/// Adds so many calls without a reply: the process stands at the first, and hasn't come to the others.
pub fn add_unanswered(ends: &mut Vec<CallEnd>, ready: bool, count: usize) -> Result<(), AllocError>
    ensures { OnOk result (ends.new.items ≡ ends.old.items ++ unanswered ready count) }
{
    if count == 0 {
        return Ok(());
    }
    ends.push(standing_end(ready))?;
    add_unreached(ends, count - 1)?;
    Ok(())
}

/// What became of the call of this number, from 0, of a process of which the first calls have these replies.
pub(crate) fn end_at(replies: &[Reply], ready: bool, number: usize) -> CallEnd
    ensures { (calls : ℕ) → number < calls →
        slice_get (map Replied replies.now ++ unanswered ready (calls - length replies.now)) number ≡ Some result }
{
    match replies.get(number) {
        Some(reply) => CallEnd::Replied(*reply),
        None if number == replies.len() => standing_end(ready),
        None => CallEnd::Unreached,
    }
}
