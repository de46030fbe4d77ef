//! What became of a call.

ghost use Rattle.std.specs.Prelude.{◌≡◌, ◌++◌, OnOk};
ghost use Rattle.wire_scripts.specs.Scripts.{call_at};
ghost use Rattle.wire_words.specs.Words as spec;

use crate::calls::{find_call, push_number};
use std::alloc::AllocError;
use wire_scripts::Scripts;
use wire_types::{Call, CallAt, CallEnd, Status, Value};

/// Appends what became of a call: the name of the reply's status and, after a space, what the reply
/// brings, or else how the call stands.
pub fn push_end(out: &mut Vec<u8>, scripts: &Scripts, end: &CallEnd) -> Result<(), AllocError>
    ensures { OnOk result (out.new.items ≡ out.old.items ++ spec.end_text scripts.now end.now) }
{
    out.extend_from_slice(end_word(end).as_bytes())?;
    let value = replied_value(end);
    if value == Value::Nothing {
        return Ok(());
    }
    out.extend_from_slice(b" ")?;
    push_value(out, scripts, &value)
}

/// The name of the reply's status, or how a call stands that has no reply.
pub fn end_word(end: &CallEnd) -> &'static str
    ensures { result.now ≡ spec.end_word end.now }
{
    match end {
        CallEnd::Replied(reply) => status_name(reply.status),
        CallEnd::Waiting => "waiting",
        CallEnd::Ready => "ready",
        CallEnd::Unreached => "unreached",
    }
}

/// The name of a status in the PMIx Standard 5.0.
fn status_name(status: Status) -> &'static str
    ensures { result.now ≡ spec.status_name status }
{
    match status {
        Status::Success => "PMIX_SUCCESS",
        Status::NotFound => "PMIX_ERR_NOT_FOUND",
        Status::ExistsOutsideScope => "PMIX_ERR_EXISTS_OUTSIDE_SCOPE",
        Status::DuplicateKey => "PMIX_ERR_DUPLICATE_KEY",
        Status::BadParam => "PMIX_ERR_BAD_PARAM",
    }
}

/// What the reply of a call brings, nothing where the call has none.
pub fn replied_value(end: &CallEnd) -> Value
    ensures { result ≡ spec.replied_value end.now }
{
    match end {
        CallEnd::Replied(reply) => reply.value,
        _ => Value::Nothing,
    }
}

/// Appends the text of what a reply brings.
pub fn push_value(out: &mut Vec<u8>, scripts: &Scripts, value: &Value) -> Result<(), AllocError>
    ensures { OnOk result (out.new.items ≡ out.old.items ++ spec.value_text scripts.now value.now) }
{
    match value {
        Value::Nothing => Ok(()),
        Value::Put(place) | Value::Published(place) => {
            let text = given_text(scripts, *place);
            out.extend_from_slice(text)
        }
        Value::Number(number) => push_number(out, u64::from(*number)),
        Value::NodeName(node) => out.extend_from_slice(scripts.nodes().text(*node)),
    }
}

/// The text of the value that the call at a place gives, empty where there is none.
fn given_text(scripts: &Scripts, place: CallAt) -> &[u8]
    ensures { result.now ≡ spec.given_text scripts.now (call_at scripts.now.processes place.proc.number place.call) }
{
    match find_call(scripts, place) {
        Some(Call::Put { value, .. } | Call::Publish { value, .. }) => scripts
            .values()
            .text(*value),
        _ => b"".as_slice(),
    }
}
