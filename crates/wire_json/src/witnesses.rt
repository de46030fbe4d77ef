//! What shows races: how two runs differ, and which races were tried.

ghost use Rattle.std.specs.Prelude.{◌≡◌, map, IfOk};
ghost use Rattle.serde_json.specs.View.{view};
ghost use Rattle.wire_types.specs.Texts.{lists_of};
ghost use Rattle.wire_scripts.specs.Scripts.{numbers_of};
ghost use Rattle.wire_json.specs.Json.{printed};
ghost use Rattle.wire_words.specs.Words.{end_word, replied_value};
ghost use Rattle.wire_json.specs.Witnesses as spec;
ghost use Rattle.wire_json.specs.WitnessTrees as trees;

use crate::chains::{ChainStep, Half, step_tree};
use crate::forms::{name_trees, tree_line, tree_text};
use crate::objects::Object;
use crate::places::place_tree;
use crate::strings::printable_text;
use serde_json::Value;
use std::alloc::{AllocError, Global};
use wire_scripts::Scripts;
use wire_types::{CallAt, CallEnd, Proc, Value as ReplyValue};
use wire_words::{end_word, push_value, replied_value};

/// A run by the processes of its steps, and how a call ends in it.
#[derive(Clone, Copy)]
pub struct RunTold<'a> {
    pub end: &'a CallEnd,
    pub order: &'a [Proc],
}

/// How many races there are in all, and how many of them are shown, not shown and not tried.
#[derive(Clone, Copy)]
pub struct RaceCounts {
    pub races: u64,
    pub shown: u64,
    pub not_shown: u64,
    pub not_tried: u64,
}

/// Two runs that show a race, and the call that ends differently in them, as JSON.
pub fn witness_json(
    alloc: Global,
    scripts: &Scripts,
    call: CallAt,
    first: RunTold<'_>,
    second: RunTold<'_>,
) -> Result<Vec<u8>, AllocError>
    ensures { IfOk result (λ text. text.items ≡ spec.json_witness scripts.now call
        (spec.json_run scripts.now first.entry.end.now (numbers_of first.entry.order.now))
        (spec.json_run scripts.now second.entry.end.now (numbers_of second.entry.order.now))) }
{
    let before = run_tree(alloc, scripts, first.end, first.order)?;
    let after = run_tree(alloc, scripts, second.end, second.order)?;
    let half = Half::Whole;
    let shown = step_tree(alloc, scripts, ChainStep { call, half })?;
    tree_line(alloc, witness_tree(alloc, before, after, shown))
}

/// That nothing shows two calls, of which a race is reported or not, as JSON.
pub fn unshown_json(alloc: Global, race: bool) -> Result<Vec<u8>, AllocError>
    ensures { IfOk result (λ text. text.items ≡ spec.json_unshown race) }
{
    tree_line(alloc, unshown_tree(alloc, race))
}

/// The races that were tried, of each the words of its finding and the call that shows it, and how many there are,
/// as JSON.
pub fn races_json(
    alloc: Global,
    scripts: &Scripts,
    findings: &[Vec<u8>],
    shown: &[Option<CallAt>],
    counts: RaceCounts,
) -> Result<Vec<u8>, AllocError>
    ensures { IfOk result (λ text. text.items ≡ spec.json_races scripts.now (lists_of findings.now) shown.now counts) }
{
    let races = tried_trees(alloc, scripts, findings, shown)?;
    let numbers = counts_tree(alloc, counts)?;
    tree_line(alloc, races_tree(alloc, numbers, races))
}

/// A run, by the processes of its steps and how a call ends in it, as a part of a form.
pub fn run_json(alloc: Global, scripts: &Scripts, run: RunTold<'_>) -> Result<Vec<u8>, AllocError>
    ensures { IfOk result (λ text. text.items ≡ spec.json_run scripts.now run.entry.end.now (numbers_of run.entry.order.now)) }
{
    let tree = run_tree(alloc, scripts, run.end, run.order)?;
    tree_text(alloc, tree)
}

/// How many races there are in all, and how many of them are shown, not shown and not tried, as a part of a form.
pub fn counts_json(alloc: Global, counts: RaceCounts) -> Result<Vec<u8>, AllocError>
    ensures { IfOk result (λ text. text.items ≡ spec.json_counts counts) }
{
    let tree = counts_tree(alloc, counts)?;
    tree_text(alloc, tree)
}

/// A run: the processes of its steps, and how a call ends in it.
fn run_tree(
    alloc: Global,
    scripts: &Scripts,
    end: &CallEnd,
    order: &[Proc],
) -> Result<Value, AllocError>
    ensures { IfOk result (λ tree. view tree ≡ trees.run_data scripts.now end.now (numbers_of order.now)) }
{
    let steps = name_trees(alloc, scripts, order)?;
    end_tree(alloc, scripts, steps, end)
}

/// The steps of a run, and how a call ends in it.
fn end_tree(
    alloc: Global,
    scripts: &Scripts,
    steps: Vec<Value>,
    end: &CallEnd,
) -> Result<Value, AllocError>
    ensures { IfOk result (λ tree. view tree
        ≡ trees.run_with scripts.now (replied_value end.now) (map view steps.items) (end_word end.now)) }
{
    let value = replied_value(end);
    if value == ReplyValue::Nothing {
        return bare_run(alloc, steps, end_word(end));
    }
    let mut text = Vec::new(alloc);
    push_value(&mut text, scripts, &value)?;
    let text = printable_text(alloc, text.as_slice())?;
    valued_run(alloc, steps, end_word(end), text.as_str())
}

/// A run in which a call ends with nothing, or doesn't end.
fn bare_run(alloc: Global, order: Vec<Value>, reply: &str) -> Result<Value, AllocError>
    ensures { IfOk result (λ tree. view tree ≡ trees.bare_run (map view order.items) reply.now) }
{
    Object::new(alloc)
        .put_list("order", order)
        .put_text("reply", reply)
        .finish()
}

/// A run in which a call ends with something.
fn valued_run(
    alloc: Global,
    order: Vec<Value>,
    reply: &str,
    value: &str,
) -> Result<Value, AllocError>
    ensures { IfOk result (λ tree. view tree ≡ trees.valued_run (map view order.items) reply.now value.now) }
{
    Object::new(alloc)
        .put_list("order", order)
        .put_text("reply", reply)
        .put_text("value", value)
        .finish()
}

/// Two runs, and the call that ends differently in them.
fn witness_tree(
    alloc: Global,
    first: Value,
    second: Value,
    shown: Value,
) -> Result<Value, AllocError>
    ensures { IfOk result (λ tree. view tree ≡ trees.witness_data (view first) (view second) (view shown)) }
{
    Object::new(alloc)
        .put("first", first)
        .put_flag("race", true)
        .put("second", second)
        .put("shown", shown)
        .finish()
}

/// Two calls that nothing shows.
fn unshown_tree(alloc: Global, race: bool) -> Result<Value, AllocError>
    ensures { IfOk result (λ tree. view tree ≡ trees.unshown_data race) }
{
    Object::new(alloc)
        .put_flag("race", race)
        .put_null("shown")
        .finish()
}

/// The races that were tried.
fn tried_trees(
    alloc: Global,
    scripts: &Scripts,
    findings: &[Vec<u8>],
    shown: &[Option<CallAt>],
) -> Result<Vec<Value>, AllocError>
    ensures { IfOk result (λ values. map view values.items
        ≡ trees.tried_data scripts.now (lists_of findings.now) shown.now) }
{
    let mut values = Vec::new(alloc);
    for (words, call) in findings.iter().zip(shown) {
        values.push(tried_tree(alloc, scripts, words.as_slice(), *call)?)?;
    }
    Ok(values)
}

/// A race that was tried: the words of its finding, and the call that shows it.
fn tried_tree(
    alloc: Global,
    scripts: &Scripts,
    words: &[u8],
    shown: Option<CallAt>,
) -> Result<Value, AllocError>
    ensures { IfOk result (λ tree. view tree ≡ trees.tried_with (map printed words.now) (trees.shown_data scripts.now shown)) }
{
    let finding = printable_text(alloc, words)?;
    let call = shown_tree(alloc, scripts, shown)?;
    named_race(alloc, finding.as_str(), call)
}

/// The call that shows a race, or null.
fn shown_tree(alloc: Global, scripts: &Scripts, shown: Option<CallAt>) -> Result<Value, AllocError>
    ensures { IfOk result (λ tree. view tree ≡ trees.shown_data scripts.now shown) }
{
    match shown {
        Some(call) => place_tree(alloc, scripts, call),
        None => Ok(Value::Null),
    }
}

/// The words of a race, and what shows it.
fn named_race(alloc: Global, finding: &str, shown: Value) -> Result<Value, AllocError>
    ensures { IfOk result (λ tree. view tree ≡ trees.tried_with finding.now (view shown)) }
{
    Object::new(alloc)
        .put_text("finding", finding)
        .put("shown", shown)
        .finish()
}

/// How many races there are.
fn counts_tree(alloc: Global, counts: RaceCounts) -> Result<Value, AllocError>
    ensures { IfOk result (λ tree. view tree ≡ trees.counts_data counts) }
{
    Object::new(alloc)
        .put_number("not_shown", counts.not_shown)
        .put_number("not_tried", counts.not_tried)
        .put_number("races", counts.races)
        .put_number("shown", counts.shown)
        .finish()
}

/// The races that were tried, behind their counts.
fn races_tree(alloc: Global, counts: Value, races: Vec<Value>) -> Result<Value, AllocError>
    ensures { IfOk result (λ tree. view tree ≡ trees.races_data (view counts) (map view races.items)) }
{
    Object::new(alloc)
        .put("counts", counts)
        .put_list("races", races)
        .finish()
}
