//! Who waits for ever, as JSON with the report.

ghost use Rattle.std.specs.Prelude.{◌≡◌, ◌++◌, codes, drop, option_map, OnOk, IfOk};
ghost use Rattle.wire_types.specs.Outcome.{ends_of};
ghost use Rattle.wire_types.specs.Texts.{lists_of};
ghost use Rattle.wire_core.specs.Course.{state_of};
ghost use Rattle.wire_json.specs.Json.{bracketed, quoted};
ghost use Rattle.wire_json.specs.Chains as chains;
ghost use Rattle.wire_explain.specs.Stops as stops;
ghost use Rattle.wire_standstill.specs.Report as spec;

use crate::standstill::Standstill;
use std::alloc::{AllocError, Global};
use wire_core::Core;
use wire_explain::{Standing, find_standing};
use wire_json::{push_list, push_quoted, report_json};
use wire_scripts::Scripts;
use wire_types::{CallAt, Outcome, Proc};
use wire_words::{push_number, push_proc, verb_at};

/// A text without its first byte.
#[tactic(auto, using(crate::proofs::Ranks::behind_first))]
fn without_first(text: &[u8]) -> &[u8]
    ensures { result.now ≡ drop 1 text.now }
{
    &text[text.len().min(1)..]
}

/// Appends the brace that opens a call, and the member of its number.
fn push_call(out: &mut Vec<u8>, call: CallAt) -> Result<(), AllocError>
    ensures { OnOk result (out.new.items ≡ out.old.items ++ (codes "{" ++ chains.call_member call)) }
{
    out.extend_from_slice(b"{\"call\":")?;
    push_number(out, u64::from(call.call) + 1)
}

/// Appends the member of a call's rank.
fn push_rank(
    alloc: Global,
    out: &mut Vec<u8>,
    scripts: &Scripts,
    call: CallAt,
) -> Result<(), AllocError>
    ensures { OnOk result (out.new.items ≡ out.old.items ++ chains.proc_member scripts.now call) }
{
    let mut name = Vec::new(alloc);
    push_proc(&mut name, scripts, call.proc)?;
    out.extend_from_slice(b",\"proc\":")?;
    push_quoted(out, name.as_slice())
}

/// Appends the member of what a call is called.
fn push_verb(out: &mut Vec<u8>, scripts: &Scripts, call: CallAt) -> Result<(), AllocError>
    ensures { OnOk result (out.new.items ≡ out.old.items ++ chains.verb_member scripts.now call) }
{
    out.extend_from_slice(b",\"verb\":")?;
    push_quoted(out, verb_at(scripts, call).as_bytes())
}

/// Appends the member of what is waited for, and the brace that closes a call.
fn push_wait(out: &mut Vec<u8>, wait: &[u8]) -> Result<(), AllocError>
    ensures { OnOk result (out.new.items ≡ out.old.items ++ (codes ",\"waits_for\":" ++ (quoted (drop 1 wait.now) ++ codes "}"))) }
{
    out.extend_from_slice(b",\"waits_for\":")?;
    push_quoted(out, without_first(wait))?;
    out.extend_from_slice(b"}")
}

/// A rank that stands at a call.
fn rank_json(alloc: Global, scripts: &Scripts, standing: &Standing) -> Result<Vec<u8>, AllocError>
    ensures { IfOk result (λ text. text.items ≡ spec.rank_json scripts.now (standing.now.call, standing.now.wait.items)) }
{
    let mut text = Vec::new(alloc);
    push_call(&mut text, standing.call)?;
    push_rank(alloc, &mut text, scripts, standing.call)?;
    push_verb(&mut text, scripts, standing.call)?;
    push_wait(&mut text, standing.wait.as_slice())?;
    Ok(text)
}

/// Adds a rank that stands so; nothing where it is at its end.
fn add_place(
    alloc: Global,
    ranks: &mut Vec<Vec<u8>>,
    scripts: &Scripts,
    standing: &Option<Standing>,
) -> Result<(), AllocError>
    ensures { OnOk result (lists_of ranks.new.items
        ≡ lists_of ranks.old.items ++ spec.ranks_at scripts.now (option_map (λ it. (it.call, it.wait.items)) standing.now)) }
{
    if let Some(standing) = standing {
        ranks.push(rank_json(alloc, scripts, standing)?)?;
    }
    Ok(())
}

/// Adds a rank; nothing where it is at its end.
fn add_rank(
    alloc: Global,
    ranks: &mut Vec<Vec<u8>>,
    core: &Core<'_>,
    number: u32,
) -> Result<(), AllocError>
    ensures { OnOk result (lists_of ranks.new.items
        ≡ lists_of ranks.old.items ++ spec.ranks_at core.now.scripts (stops.standing core.now.scripts (state_of core.now) number)) }
{
    let standing = find_standing(alloc, core, Proc::new(number))?;
    add_place(alloc, ranks, core.plan().scripts(), &standing)
}

/// These ranks, but those at their end.
#[tactic(auto, using(crate::proofs::Ranks::added_more, crate::proofs::Ranks::added_all))]
fn ranks_json(alloc: Global, core: &Core<'_>, numbers: &[u32]) -> Result<Vec<Vec<u8>>, AllocError>
    ensures { IfOk result (λ ranks. lists_of ranks.items ≡ spec.ranks_json core.now.scripts (state_of core.now) numbers.now) }
{
    let mut ranks = Vec::new(alloc);
    for number in numbers {
        add_rank(alloc, &mut ranks, core, *number)?;
    }
    Ok(ranks)
}

/// Appends the list of these ranks.
fn push_ranks(
    alloc: Global,
    out: &mut Vec<u8>,
    core: &Core<'_>,
    numbers: &[u32],
) -> Result<(), AllocError>
    ensures { OnOk result (out.new.items ≡ out.old.items ++ bracketed (spec.ranks_json core.now.scripts (state_of core.now) numbers.now)) }
{
    let ranks = ranks_json(alloc, core, numbers)?;
    push_list(out, ranks.as_slice())
}

/// The start of an object: the members of a deadlock, and of the ranks that wait for no rank.
fn members_json(
    alloc: Global,
    core: &Core<'_>,
    circle: &[u32],
    never: &[u32],
) -> Result<Vec<u8>, AllocError>
    ensures { IfOk result (λ text. text.items ≡ spec.standstill_members core.now.scripts (state_of core.now) circle.now never.now) }
{
    let mut text = Vec::new(alloc);
    text.extend_from_slice(b"{\"deadlock\":")?;
    push_ranks(alloc, &mut text, core, circle)?;
    text.extend_from_slice(b",\"never\":")?;
    push_ranks(alloc, &mut text, core, never)?;
    text.extend_from_slice(b",")?;
    Ok(text)
}

/// The start of an object that tells who waits for ever where a core stands: each with its call and what it waits for
/// there.
pub(crate) fn standstill_members(
    alloc: Global,
    core: &Core<'_>,
    standstill: &Standstill,
) -> Result<Vec<u8>, AllocError>
    ensures { IfOk result (λ text. text.items
        ≡ spec.standstill_members core.now.scripts (state_of core.now) standstill.now.circle.items standstill.now.never.items) }
{
    members_json(
        alloc,
        core,
        standstill.circle.as_slice(),
        standstill.never.as_slice(),
    )
}

/// The report of an outcome, behind who waits for ever where a core stands, as JSON.
pub(crate) fn standstill_json(
    alloc: Global,
    core: &Core<'_>,
    standstill: &Standstill,
    outcome: &Outcome,
) -> Result<Vec<u8>, AllocError>
    ensures { IfOk result (λ text. text.items ≡ spec.standstill_json core.now.scripts (state_of core.now) (ends_of outcome.now)
        standstill.now.circle.items standstill.now.never.items) }
{
    let report = report_json(alloc, core.plan().scripts(), outcome)?;
    let mut text = standstill_members(alloc, core, standstill)?;
    text.extend_from_slice(without_first(report.as_slice()))?;
    Ok(text)
}
