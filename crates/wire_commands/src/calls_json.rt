//! The parts of JSON that tell calls with the numbers of their lines in the file.

ghost use Rattle.std.specs.Prelude.{◌≡◌, IfOk};
ghost use Rattle.wire_types.specs.Texts.{lists_of};
ghost use Rattle.wire_report.specs.Findings.{finding_words};
ghost use Rattle.wire_commands.specs.CallsJson as spec;

use crate::json_builder::JsonBuilder;
use std::alloc::{AllocError, Global};
use wire_findings::Finding;
use wire_json::{ChainStep, Half, lined_place_json, lined_step_json};
use wire_report::{line_of, pair_of, push_finding};
use wire_scripts::Scripts;
use wire_types::CallAt;

/// A call, or a half of a fence, with its line.
#[tactic(auto, unfolding(crate::specs::CallsJson::json_step))]
pub(crate) fn step_json(
    alloc: Global,
    scripts: &Scripts,
    rows: &[Vec<u64>],
    step: ChainStep,
) -> Result<Vec<u8>, AllocError>
    ensures { IfOk result (λ text. text.items ≡ spec.json_step (lists_of rows.now) scripts.now step) }
{
    lined_step_json(alloc, scripts, step, line_of(rows, step.call))
}

/// A call with its line.
pub(crate) fn call_json(
    alloc: Global,
    scripts: &Scripts,
    rows: &[Vec<u64>],
    call: CallAt,
) -> Result<Vec<u8>, AllocError>
    ensures { IfOk result (λ text. text.items ≡ spec.json_call (lists_of rows.now) scripts.now call) }
{
    let half = Half::Whole;
    step_json(alloc, scripts, rows, ChainStep { call, half })
}

/// A call by its process, its number and its line alone.
#[tactic(auto, unfolding(crate::specs::CallsJson::json_place))]
pub(crate) fn place_json(
    alloc: Global,
    scripts: &Scripts,
    rows: &[Vec<u64>],
    call: CallAt,
) -> Result<Vec<u8>, AllocError>
    ensures { IfOk result (λ text. text.items ≡ spec.json_place (lists_of rows.now) scripts.now call) }
{
    lined_place_json(alloc, scripts, call, line_of(rows, call))
}

/// The form of a finding as far as its members go: its two calls, and its words.
pub(crate) fn begin_finding(
    alloc: Global,
    scripts: &Scripts,
    rows: &[Vec<u64>],
    finding: Finding,
) -> JsonBuilder
    ensures { IfOk result.built (λ text. text.items ≡ spec.finding_members (lists_of rows.now) scripts.now finding) }
{
    let pair = pair_of(finding);
    JsonBuilder::new(alloc)
        .put(b"{\"calls\":[")
        .put_form(call_json(alloc, scripts, rows, pair.lower))
        .put(b",")
        .put_form(call_json(alloc, scripts, rows, pair.higher))
        .put(b"],\"finding\":")
        .put_quoted(words_of(alloc, scripts, finding))
}

/// The words of a finding.
fn words_of(alloc: Global, scripts: &Scripts, finding: Finding) -> Result<Vec<u8>, AllocError>
    ensures { IfOk result (λ words. words.items ≡ finding_words scripts.now finding) }
{
    let mut words = Vec::new(alloc);
    push_finding(&mut words, scripts, finding)?;
    Ok(words)
}
