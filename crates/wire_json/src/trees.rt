//! A report as a tree of JSON.

ghost use Rattle.std.specs.Prelude.{◌≡◌, codes, map, string_bytes, IfOk};
ghost use Rattle.serde_json.specs.Data.{member, no_members, object, string};
ghost use Rattle.serde_json.specs.View.{view};
ghost use Rattle.wire_types.specs.Texts.{lists_of};
ghost use Rattle.wire_scripts.specs.Canonical.{process_text};
ghost use Rattle.wire_json.specs.Json.{printed};
ghost use Rattle.wire_json.specs.Trees as spec;

use crate::objects::Object;
use crate::strings::printable_text;
use serde_json::Value;
use std::alloc::{AllocError, Global};
use wire_scripts::{Process, Scripts};
use wire_types::{Call, CallEnd, Value as ReplyValue};
use wire_words::{end_word, push_process, push_value, replied_value, verb};

/// The processes, each with its row.
pub fn rank_trees(
    alloc: Global,
    scripts: &Scripts,
    rows: &[Vec<CallEnd>],
) -> Result<Vec<Value>, AllocError>
    ensures { IfOk result (λ values. map view values.items
        ≡ spec.ranks_data scripts.now scripts.now.processes (lists_of rows.now)) }
{
    let mut values = Vec::new(alloc);
    for (process, row) in scripts.processes().iter().zip(rows) {
        values.push(rank_tree(alloc, scripts, process, row.as_slice())?)?;
    }
    Ok(values)
}

/// A process: its calls and its name.
fn rank_tree(
    alloc: Global,
    scripts: &Scripts,
    process: &Process,
    ends: &[CallEnd],
) -> Result<Value, AllocError>
    ensures { IfOk result (λ value. view value ≡ spec.rank_data scripts.now process.now ends.now) }
{
    let name = process_name(alloc, scripts, process)?;
    match call_trees(alloc, scripts, process, ends) {
        Ok(calls) => named_calls(alloc, calls, name),
        Err(fault) => {
            drop(name);
            Err(fault)
        }
    }
}

/// The name of a process, as it is shown.
fn process_name(alloc: Global, scripts: &Scripts, process: &Process) -> Result<String, AllocError>
    ensures { IfOk result (λ name. string_bytes name ≡ map printed (process_text scripts.now process.now)) }
{
    let mut text = Vec::new(alloc);
    push_process(&mut text, scripts, process)?;
    printable_text(alloc, text.as_slice())
}

/// The calls of a process under its name.
fn named_calls(alloc: Global, calls: Vec<Value>, name: String) -> Result<Value, AllocError>
    ensures { IfOk result (λ tree. view tree ≡ object (member (codes "calls") (spec.list_data (map view calls.items))
        (member (codes "proc") (string (string_bytes name)) no_members))) }
{
    Object::new(alloc)
        .put_list("calls", calls)
        .put_string("proc", name)
        .finish()
}

/// The calls of a process, each with its end.
fn call_trees(
    alloc: Global,
    scripts: &Scripts,
    process: &Process,
    ends: &[CallEnd],
) -> Result<Vec<Value>, AllocError>
    ensures { IfOk result (λ values. map view values.items
        ≡ spec.calls_data scripts.now process.now.calls ends.now) }
{
    let mut values = Vec::new(alloc);
    for (call, end) in process.calls().iter().zip(ends) {
        values.push(call_tree(alloc, scripts, call, end)?)?;
    }
    Ok(values)
}

/// A call: what became of it, what its reply brings, and what it is called.
fn call_tree(
    alloc: Global,
    scripts: &Scripts,
    call: &Call,
    end: &CallEnd,
) -> Result<Value, AllocError>
    ensures { IfOk result (λ value. view value ≡ spec.call_data scripts.now call.now end.now) }
{
    let value = replied_value(end);
    if value == ReplyValue::Nothing {
        return bare_call(alloc, end_word(end), verb(call));
    }
    let mut text = Vec::new(alloc);
    push_value(&mut text, scripts, &value)?;
    let text = printable_text(alloc, text.as_slice())?;
    valued_call(alloc, end_word(end), text.as_str(), verb(call))
}

/// A call whose reply brings nothing, or that has none.
fn bare_call(alloc: Global, reply: &str, verb: &str) -> Result<Value, AllocError>
    ensures { IfOk result (λ tree. view tree ≡ spec.bare_data reply.now verb.now) }
{
    Object::new(alloc)
        .put_text("reply", reply)
        .put_text("verb", verb)
        .finish()
}

/// A call whose reply brings something.
fn valued_call(alloc: Global, reply: &str, value: &str, verb: &str) -> Result<Value, AllocError>
    ensures { IfOk result (λ tree. view tree ≡ spec.valued_data reply.now value.now verb.now) }
{
    Object::new(alloc)
        .put_text("reply", reply)
        .put_text("value", value)
        .put_text("verb", verb)
        .finish()
}
