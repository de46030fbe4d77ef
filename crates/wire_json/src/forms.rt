//! The texts: one compact object each, and a line feed.

ghost use Rattle.std.specs.Prelude.{◌≡◌, ◌++◌, codes, false, map, IfOk};
ghost use Rattle.serde_json.specs.Data.{Data};
ghost use Rattle.serde_json.specs.View.{view};
ghost use Rattle.serde_json.specs.Written.{compact_text, has_float};
ghost use Rattle.wire_types.specs.Outcome.{ends_of};
ghost use Rattle.wire_types.specs.Texts.{lists_of};
ghost use Rattle.wire_scripts.specs.Scripts.{numbers_of};
ghost use Rattle.wire_words.specs.Words.{name_of};
ghost use Rattle.wire_json.specs.Json as spec;
ghost use Rattle.wire_json.specs.Trees as trees;
ghost use Rattle.wire_json.specs.Trees.{strings_data};

use crate::objects::Object;
use crate::strings::string_trees;
use crate::trees::rank_trees;
use serde_json::Value;
use std::alloc::{AllocError, Global};
use wire_scripts::Scripts;
use wire_types::{Outcome, Proc};
use wire_words::push_proc;

/// The report of what became of every call, as JSON.
pub fn report_json(
    alloc: Global,
    scripts: &Scripts,
    outcome: &Outcome,
) -> Result<Vec<u8>, AllocError>
    ensures { IfOk result (λ text. text.items ≡ spec.json_report scripts.now (ends_of outcome.now)) }
{
    let ranks = rank_trees(alloc, scripts, outcome.rows.as_slice())?;
    tree_line(alloc, report_tree(alloc, ranks, outcome.waiting))
}

/// The lines of findings, as JSON.
pub fn findings_json(alloc: Global, lines: &[Vec<u8>]) -> Result<Vec<u8>, AllocError>
    ensures { IfOk result (λ text. text.items ≡ spec.json_findings (lists_of lines.now)) }
{
    let findings = string_trees(alloc, lines)?;
    tree_line(alloc, findings_tree(alloc, findings))
}

/// The report of an unsettled replay and the order of its steps, each by its process, as JSON.
pub fn unsettled_json(
    alloc: Global,
    scripts: &Scripts,
    outcome: &Outcome,
    order: &[Proc],
) -> Result<Vec<u8>, AllocError>
    ensures { IfOk result (λ text. text.items
        ≡ spec.json_unsettled scripts.now (ends_of outcome.now) (numbers_of order.now)) }
{
    let steps = name_trees(alloc, scripts, order)?;
    let ranks = rank_trees(alloc, scripts, outcome.rows.as_slice())?;
    tree_line(alloc, unsettled_tree(alloc, steps, ranks, outcome.waiting))
}

/// The names of these processes, as strings.
pub(crate) fn name_trees(
    alloc: Global,
    scripts: &Scripts,
    order: &[Proc],
) -> Result<Vec<Value>, AllocError>
    ensures { IfOk result (λ values. map view values.items ≡ strings_data (map (name_of scripts.now) (numbers_of order.now))) }
{
    let names = names_of(alloc, scripts, order)?;
    let values = string_trees(alloc, names.as_slice());
    drop(names);
    values
}

/// The names of these processes.
fn names_of(alloc: Global, scripts: &Scripts, order: &[Proc]) -> Result<Vec<Vec<u8>>, AllocError>
    ensures { IfOk result (λ names. lists_of names.items
        ≡ map (name_of scripts.now) (numbers_of order.now)) }
{
    let mut names = Vec::new(alloc);
    for proc in order {
        let mut name = Vec::new(alloc);
        push_proc(&mut name, scripts, *proc)?;
        names.push(name)?;
    }
    Ok(names)
}

/// A report: its processes, and how many of them wait.
fn report_tree(alloc: Global, ranks: Vec<Value>, waiting: u32) -> Result<Value, AllocError>
    ensures { IfOk result (λ tree. view tree ≡ trees.report_data (map view ranks.items) waiting) }
{
    Object::new(alloc)
        .put_list("ranks", ranks)
        .put_number("waiting", u64::from(waiting))
        .finish()
}

/// Findings, of each its line.
fn findings_tree(alloc: Global, findings: Vec<Value>) -> Result<Value, AllocError>
    ensures { IfOk result (λ tree. view tree ≡ trees.findings_data (map view findings.items)) }
{
    Object::new(alloc).put_list("findings", findings).finish()
}

/// An unsettled replay: the processes of its steps, and its report.
fn unsettled_tree(
    alloc: Global,
    order: Vec<Value>,
    ranks: Vec<Value>,
    waiting: u32,
) -> Result<Value, AllocError>
    ensures { IfOk result (λ tree. view tree
        ≡ trees.unsettled_data (map view order.items) (map view ranks.items) waiting) }
{
    Object::new(alloc)
        .put_list("order", order)
        .put_list("ranks", ranks)
        .put_flag("unsettled", true)
        .put_number("waiting", u64::from(waiting))
        .finish()
}

/// The compact text of a tree without floats and a line feed, or the fault that ended the building of the tree.
pub(crate) fn tree_line(
    alloc: Global,
    built: Result<Value, AllocError>,
) -> Result<Vec<u8>, AllocError>
    ensures { (d : Data) → IfOk built (λ tree. view tree ≡ d) → IfOk result (λ text. has_float d ≡ false
        → text.items ≡ compact_text d ++ codes "\n") }
{
    match built {
        Ok(tree) => ended_text(alloc, tree),
        Err(fault) => Err(fault),
    }
}

/// The compact text of a tree without floats, and a line feed.
fn ended_text(alloc: Global, tree: Value) -> Result<Vec<u8>, AllocError>
    ensures { IfOk result (λ text. has_float (view tree) ≡ false
        → text.items ≡ compact_text (view tree) ++ codes "\n") }
{
    let mut text = tree_text(alloc, tree)?;
    text.push(b'\n')?;
    Ok(text)
}

/// The compact text of a tree without floats.
pub(crate) fn tree_text(alloc: Global, tree: Value) -> Result<Vec<u8>, AllocError>
    ensures { IfOk result (λ text. has_float (view tree) ≡ false → text.items ≡ compact_text (view tree)) }
{
    let text = tree.to_string(alloc);
    drop(tree);
    Ok(text?.into_bytes())
}
