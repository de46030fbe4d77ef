//! Calls and processes, and what they are called.

ghost use Rattle.std.specs.Prelude.{◌≡◌, ◌+◌, ◌<◌, ◌≤◌, ◌++◌, decimal, length, OnOk, OnErr, option_copied};
ghost use Rattle.std.specs.Prelude.{vec_capacity};
ghost use Rattle.wire_types.specs.Verbs as verbs;
ghost use Rattle.wire_scripts.specs.Scripts.{call_at};
ghost use Rattle.wire_scripts.specs.Canonical.{process_text};
ghost use Rattle.wire_words.specs.Words as spec;

use itoa::Buffer;
use std::alloc::AllocError;
use wire_scripts::{Process, Scripts};
use wire_types::{Call, CallAt, Proc, Verb};

/// Appends a number in decimal. It takes memory only where there is no room for it; the one error is that this
/// ran out.
pub fn push_number(out: &mut Vec<u8>, number: u64) -> Result<(), AllocError>
    ensures ok { OnOk result (out.new.items ≡ out.old.items ++ decimal number) }
    ensures capacity { vec_capacity out.old ≤ vec_capacity out.new }
    ensures full { OnErr result (vec_capacity out.old < length out.old.items + length (decimal number)) }
{
    let mut buffer = Buffer::new();
    out.extend_from_slice(buffer.format(number).as_bytes())
}

/// Appends a process: the name of its job, a colon, and its rank. It takes memory only where there is no room
/// for them; the one error is that this ran out, and a part of them may then be there.
pub fn push_process(
    out: &mut Vec<u8>,
    scripts: &Scripts,
    process: &Process,
) -> Result<(), AllocError>
    ensures ok { OnOk result (out.new.items ≡ out.old.items ++ process_text scripts.now process.now) }
    ensures capacity { vec_capacity out.old ≤ vec_capacity out.new }
    ensures full { OnErr result (vec_capacity out.old < length out.old.items + length (process_text scripts.now process.now)) }
{
    out.extend_from_slice(scripts.jobs().text(process.job()))?;
    out.extend_from_slice(b":")?;
    push_number(out, u64::from(process.rank()))
}

/// Appends a process by its number; nothing where it isn't there. It takes memory only where there is no room
/// for its words; the one error is that this ran out, and a part of them may then be there.
pub fn push_proc(out: &mut Vec<u8>, scripts: &Scripts, proc: Proc) -> Result<(), AllocError>
    ensures ok { OnOk result (out.new.items ≡ out.old.items ++ spec.name_of scripts.now proc.number) }
    ensures capacity { vec_capacity out.old ≤ vec_capacity out.new }
    ensures full { OnErr result (vec_capacity out.old < length out.old.items + length (spec.name_of scripts.now proc.number)) }
{
    match scripts.processes().get(proc.index()) {
        Some(process) => push_process(out, scripts, process),
        None => Ok(()),
    }
}

/// Appends a call: its process, and its number from 1. It takes memory only where there is no room for its
/// words; the one error is that this ran out, and a part of them may then be there.
pub fn push_call(out: &mut Vec<u8>, scripts: &Scripts, call: CallAt) -> Result<(), AllocError>
    ensures ok { OnOk result (out.new.items ≡ out.old.items ++ spec.call_text scripts.now call) }
    ensures capacity { vec_capacity out.old ≤ vec_capacity out.new }
    ensures full { OnErr result (vec_capacity out.old < length out.old.items + length (spec.call_text scripts.now call)) }
{
    push_proc(out, scripts, call.proc)?;
    out.extend_from_slice(b" ")?;
    push_number(out, u64::from(call.call) + 1)
}

/// The verb of a call.
pub fn verb_of(call: &Call) -> Verb
    ensures { result ≡ spec.verb_of call.now }
{
    match call {
        Call::Put { .. } => Verb::Put,
        Call::Commit => Verb::Commit,
        Call::Get { .. } => Verb::Get,
        Call::GetNow { .. } => Verb::GetNow,
        Call::Fence { .. } => Verb::Fence,
        Call::Publish { .. } => Verb::Publish,
        Call::Lookup { .. } => Verb::Lookup,
        Call::LookupWait { .. } => Verb::LookupWait,
        Call::Unpublish { .. } | Call::UnpublishAll => Verb::Unpublish,
    }
}

/// How a verb is spelled.
fn text_of_verb(verb: Verb) -> &'static str
    ensures { result.now ≡ verbs.text_of_verb verb }
{
    match verb {
        Verb::Put => "put",
        Verb::Commit => "commit",
        Verb::Get => "get",
        Verb::GetNow => "get-now",
        Verb::Fence => "fence",
        Verb::Publish => "publish",
        Verb::Lookup => "lookup",
        Verb::LookupWait => "lookup-wait",
        Verb::Unpublish => "unpublish",
    }
}

/// What a call is called.
pub fn verb(call: &Call) -> &'static str
    ensures { result.now ≡ spec.verb_text call.now }
{
    text_of_verb(verb_of(call))
}

/// What the call at a place is called, empty where there is none.
pub fn verb_at(scripts: &Scripts, place: CallAt) -> &'static str
    ensures { result.now ≡ spec.verb_text_in (call_at scripts.now.processes place.proc.number place.call) }
{
    match find_call(scripts, place) {
        Some(call) => verb(call),
        None => "",
    }
}

/// The call at a place, where there is one.
pub fn find_call(scripts: &Scripts, place: CallAt) -> Option<&Call>
    ensures { option_copied result ≡ call_at scripts.now.processes place.proc.number place.call }
{
    match scripts.processes().get(place.proc.index()) {
        Some(process) => process.calls().get(place.call as usize),
        None => None,
    }
}
