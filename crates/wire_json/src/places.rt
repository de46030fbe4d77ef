//! Calls by their places.

ghost use Rattle.std.specs.Prelude.{◌≡◌, map, string_bytes, IfOk};
ghost use Rattle.serde_json.specs.View.{view};
ghost use Rattle.wire_json.specs.ChainTrees as trees;

use crate::objects::Object;
use crate::strings::printable_text;
use serde_json::Value;
use std::alloc::{AllocError, Global};
use wire_scripts::Scripts;
use wire_types::CallAt;
use wire_words::{push_proc, verb_at};

/// The name of a call's process, and what the call is called.
pub(crate) fn call_names(
    alloc: Global,
    scripts: &Scripts,
    call: CallAt,
) -> Result<(String, String), AllocError>
    ensures proc { IfOk result (λ names. string_bytes names.0 ≡ trees.proc_shown scripts.now call) }
    ensures verb { IfOk result (λ names. string_bytes names.1 ≡ trees.verb_shown scripts.now call) }
{
    let proc = proc_name(alloc, scripts, call)?;
    let verb = printable_text(alloc, verb_at(scripts, call).as_bytes())?;
    Ok((proc, verb))
}

/// The name of a call's process.
fn proc_name(alloc: Global, scripts: &Scripts, call: CallAt) -> Result<String, AllocError>
    ensures { IfOk result (λ name. string_bytes name ≡ trees.proc_shown scripts.now call) }
{
    let mut text = Vec::new(alloc);
    push_proc(&mut text, scripts, call.proc)?;
    printable_text(alloc, text.as_slice())
}

/// These calls, by their numbers and processes alone.
pub(crate) fn place_trees(
    alloc: Global,
    scripts: &Scripts,
    calls: &[CallAt],
) -> Result<Vec<Value>, AllocError>
    ensures { IfOk result (λ values. map view values.items ≡ map (trees.place_data scripts.now) calls.now) }
{
    let mut values = Vec::new(alloc);
    for call in calls {
        values.push(place_tree(alloc, scripts, *call)?)?;
    }
    Ok(values)
}

/// A call, by its number and process alone.
pub(crate) fn place_tree(
    alloc: Global,
    scripts: &Scripts,
    call: CallAt,
) -> Result<Value, AllocError>
    ensures { IfOk result (λ tree. view tree ≡ trees.place_data scripts.now call) }
{
    let proc = proc_name(alloc, scripts, call)?;
    bare_place(alloc, u64::from(call.call) + 1, proc.as_str())
}

/// A number and a process.
fn bare_place(alloc: Global, number: u64, proc: &str) -> Result<Value, AllocError>
    ensures { IfOk result (λ tree. view tree ≡ trees.bare_place number proc.now) }
{
    Object::new(alloc)
        .put_number("call", number)
        .put_text("proc", proc)
        .finish()
}

/// A call: its number, its process, and what it is called.
pub(crate) fn named_call(
    alloc: Global,
    number: u64,
    proc: &str,
    verb: &str,
) -> Result<Value, AllocError>
    ensures { IfOk result (λ tree. view tree ≡ trees.named_data number proc.now verb.now) }
{
    Object::new(alloc)
        .put_number("call", number)
        .put_text("proc", proc)
        .put_text("verb", verb)
        .finish()
}
