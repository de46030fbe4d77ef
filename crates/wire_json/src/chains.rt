//! The answers to a question about two calls: the chain that orders them, or which of them are dead.

ghost use Rattle.std.specs.Prelude.{◌≡◌, ◌+◌, map, IfOk};
ghost use Rattle.serde_json.specs.View.{view};
ghost use Rattle.wire_json.specs.Chains as spec;
ghost use Rattle.wire_json.specs.ChainTrees as trees;

use crate::forms::tree_line;
use crate::objects::Object;
use crate::places::{call_names, named_call, place_trees};
use serde_json::Value;
use std::alloc::{AllocError, Global};
use wire_scripts::Scripts;
use wire_types::CallAt;

/// What is meant of a call in a chain.
#[derive(Clone, Copy)]
pub enum Half {
    /// All of it.
    Whole,
    /// To arrive at a fence.
    Arrive,
    /// To leave a fence.
    Leave,
}

/// A step of a chain: a call, or a half of a fence.
#[derive(Clone, Copy)]
pub struct ChainStep {
    pub call: CallAt,
    pub half: Half,
}

/// That the first call is before the second, or else the second before the first, and the steps of the chain
/// that orders them, as JSON.
pub fn chain_json(
    alloc: Global,
    scripts: &Scripts,
    first: bool,
    steps: &[ChainStep],
) -> Result<Vec<u8>, AllocError>
    ensures { IfOk result (λ text. text.items ≡ spec.json_chain first scripts.now steps.now) }
{
    let chain = step_trees(alloc, scripts, steps)?;
    tree_line(alloc, chain_tree(alloc, which_word(first), chain))
}

/// That no chain orders two calls, and which of them are dead, as JSON.
pub fn unordered_json(
    alloc: Global,
    scripts: &Scripts,
    dead: &[CallAt],
) -> Result<Vec<u8>, AllocError>
    ensures { IfOk result (λ text. text.items ≡ spec.json_unordered scripts.now dead.now) }
{
    let places = place_trees(alloc, scripts, dead)?;
    tree_line(alloc, unordered_tree(alloc, places))
}

/// Which of two calls comes before the other.
pub fn which_word(first: bool) -> &'static str
    ensures { result.now ≡ spec.which_word first }
{
    if first { "first" } else { "second" }
}

/// The steps of a chain.
fn step_trees(
    alloc: Global,
    scripts: &Scripts,
    steps: &[ChainStep],
) -> Result<Vec<Value>, AllocError>
    ensures { IfOk result (λ values. map view values.items ≡ map (trees.step_data scripts.now) steps.now) }
{
    let mut values = Vec::new(alloc);
    for step in steps {
        values.push(step_tree(alloc, scripts, *step)?)?;
    }
    Ok(values)
}

/// A step of a chain.
pub(crate) fn step_tree(
    alloc: Global,
    scripts: &Scripts,
    step: ChainStep,
) -> Result<Value, AllocError>
    ensures { IfOk result (λ tree. view tree ≡ trees.step_data scripts.now step) }
{
    let (proc, verb) = call_names(alloc, scripts, step.call)?;
    part_tree(alloc, step, proc.as_str(), verb.as_str())
}

/// A step of a chain, with the names of its process and of what it is called.
fn part_tree(alloc: Global, step: ChainStep, proc: &str, verb: &str) -> Result<Value, AllocError>
    ensures { IfOk result (λ tree. view tree ≡ trees.part_data step.half (step.call.call + 1) proc.now verb.now) }
{
    let number = u64::from(step.call.call) + 1;
    match step.half {
        Half::Whole => named_call(alloc, number, proc, verb),
        Half::Arrive => half_call(alloc, "arrive", number, proc, verb),
        Half::Leave => half_call(alloc, "leave", number, proc, verb),
    }
}

/// A half of a fence.
fn half_call(
    alloc: Global,
    half: &str,
    number: u64,
    proc: &str,
    verb: &str,
) -> Result<Value, AllocError>
    ensures { IfOk result (λ tree. view tree ≡ trees.half_data half.now number proc.now verb.now) }
{
    Object::new(alloc)
        .put_number("call", number)
        .put_text("half", half)
        .put_text("proc", proc)
        .put_text("verb", verb)
        .finish()
}

/// A chain under the word for the call that comes first.
fn chain_tree(alloc: Global, before: &str, chain: Vec<Value>) -> Result<Value, AllocError>
    ensures { IfOk result (λ tree. view tree ≡ trees.chain_data before.now (map view chain.items)) }
{
    Object::new(alloc)
        .put_text("before", before)
        .put_list("chain", chain)
        .finish()
}

/// Calls that no chain orders.
fn unordered_tree(alloc: Global, dead: Vec<Value>) -> Result<Value, AllocError>
    ensures { IfOk result (λ tree. view tree ≡ trees.unordered_data (map view dead.items)) }
{
    Object::new(alloc)
        .put_null("before")
        .put_list("dead", dead)
        .finish()
}
