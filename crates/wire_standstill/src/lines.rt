//! Who waits for ever, in lines.

ghost use Rattle.std.specs.Prelude.{◌≡◌, ◌++◌, codes, map, true, option_map, OnOk, IfOk};
ghost use Rattle.wire_core.specs.Course.{state_of};
ghost use Rattle.wire_explain.specs.Quote.{shown_byte, is_printable_text, labelled};
ghost use Rattle.wire_explain.specs.Stops as stops;
ghost use Rattle.wire_standstill.specs.Lines as spec;

use crate::standstill::Standstill;
use std::alloc::{AllocError, Global};
use wire_core::Core;
use wire_explain::{Standing, find_standing, push_said_call, shown_text};
use wire_scripts::Scripts;
use wire_types::{CallAt, Proc};
use wire_words::push_number;

/// How many ranks have a line of their own.
const LINES: usize = 16;

/// Appends the call of a line.
fn push_call_of_line(out: &mut Vec<u8>, scripts: &Scripts, place: CallAt) -> Result<(), AllocError>
    ensures { OnOk result (out.new.items ≡ out.old.items ++ (codes "    " ++ stops.said_call scripts.now place)) }
{
    out.extend_from_slice(b"    ")?;
    push_said_call(out, scripts, place)
}

/// Appends what a rank waits for to the end of its line.
fn push_wait_of_line(out: &mut Vec<u8>, wait: &[u8]) -> Result<(), AllocError>
    ensures { OnOk result (out.new.items ≡ out.old.items ++ labelled (codes " waits for") wait.now) }
{
    out.extend_from_slice(b" waits for")?;
    out.extend_from_slice(wait)?;
    out.extend_from_slice(b"\n")
}

/// Appends the line of a rank that stands at a call.
fn push_standing(
    out: &mut Vec<u8>,
    scripts: &Scripts,
    standing: &Standing,
) -> Result<(), AllocError>
    ensures { OnOk result (out.new.items ≡ out.old.items
        ++ ((codes "    " ++ stops.said_call scripts.now standing.now.call) ++ labelled (codes " waits for") standing.now.wait.items)) }
{
    push_call_of_line(out, scripts, standing.call)?;
    push_wait_of_line(out, standing.wait.as_slice())
}

/// Appends the line of a rank that stands so; nothing where it is at its end.
fn push_place(
    out: &mut Vec<u8>,
    scripts: &Scripts,
    standing: &Option<Standing>,
) -> Result<(), AllocError>
    ensures { OnOk result (out.new.items ≡ out.old.items ++ spec.line_at scripts.now (option_map (λ it. (it.call, it.wait.items)) standing.now)) }
{
    match standing {
        Some(standing) => push_standing(out, scripts, standing),
        None => Ok(()),
    }
}

/// Appends the line of a rank; nothing where it is at its end.
fn push_line(
    alloc: Global,
    out: &mut Vec<u8>,
    core: &Core<'_>,
    number: u32,
) -> Result<(), AllocError>
    ensures { OnOk result (out.new.items ≡ out.old.items ++ spec.line_of core.now.scripts (state_of core.now) number) }
{
    let standing = find_standing(alloc, core, Proc::new(number))?;
    push_place(out, core.plan().scripts(), &standing)
}

/// Appends the lines of these ranks.
#[tactic(auto, using(crate::proofs::Parts::lined_more, crate::proofs::Parts::lined_all))]
fn push_lines(
    alloc: Global,
    out: &mut Vec<u8>,
    core: &Core<'_>,
    ranks: &[u32],
) -> Result<(), AllocError>
    ensures { OnOk result (out.new.items ≡ out.old.items ++ spec.lines_of core.now.scripts (state_of core.now) ranks.now) }
{
    for rank in ranks {
        push_line(alloc, out, core, *rank)?;
    }
    Ok(())
}

/// Appends the line that says how many more there are.
fn push_more_line(out: &mut Vec<u8>, count: usize) -> Result<(), AllocError>
    ensures { OnOk result (out.new.items ≡ out.old.items ++ spec.more_line count) }
{
    if count == 0 {
        return Ok(());
    }
    out.extend_from_slice(b"    and ")?;
    push_number(out, count as u64)?;
    out.extend_from_slice(b" more\n")
}

/// Appends the lines of the first of some ranks, and how many more there are.
fn push_rank_lines(
    alloc: Global,
    out: &mut Vec<u8>,
    core: &Core<'_>,
    ranks: &[u32],
) -> Result<(), AllocError>
    ensures { OnOk result (out.new.items ≡ out.old.items ++ spec.rank_lines core.now.scripts (state_of core.now) ranks.now) }
{
    let shown = ranks.len().min(LINES);
    push_lines(alloc, out, core, &ranks[..shown])?;
    push_more_line(out, ranks.len() - shown)
}

/// Appends a heading and the lines of some ranks, where there are any.
fn push_part(
    alloc: Global,
    out: &mut Vec<u8>,
    core: &Core<'_>,
    heading: &[u8],
    ranks: &[u32],
) -> Result<(), AllocError>
    ensures { OnOk result (out.new.items ≡ out.old.items ++ spec.part heading.now core.now.scripts (state_of core.now) ranks.now) }
{
    if ranks.is_empty() {
        return Ok(());
    }
    out.extend_from_slice(heading)?;
    push_rank_lines(alloc, out, core, ranks)
}

/// Appends what is told of a deadlock, and of the ranks that wait for no rank.
fn push_standstill(
    alloc: Global,
    out: &mut Vec<u8>,
    core: &Core<'_>,
    circle: &[u32],
    never: &[u32],
) -> Result<(), AllocError>
    ensures { OnOk result (out.new.items ≡ out.old.items ++ spec.told_of core.now.scripts (state_of core.now) circle.now never.now) }
{
    push_part(
        alloc,
        out,
        core,
        b"  deadlock, each for the next and the last for the first:\n",
        circle,
    )?;
    push_part(alloc, out, core, b"  for what never comes:\n", never)
}

/// What is told in lines where a core stands: the first sixteen ranks of each list, each with its call and what it waits
/// for there. Only printable ASCII and line feeds are in the text.
pub(crate) fn standstill_text(
    alloc: Global,
    core: &Core<'_>,
    standstill: &Standstill,
) -> Result<Vec<u8>, AllocError>
    ensures told { IfOk result (λ text. text.items ≡ map shown_byte
        (spec.told_of core.now.scripts (state_of core.now) standstill.now.circle.items standstill.now.never.items)) }
    ensures printable { IfOk result (λ text. is_printable_text text.items ≡ true) }
{
    let mut told = Vec::new(alloc);
    push_standstill(
        alloc,
        &mut told,
        core,
        standstill.circle.as_slice(),
        standstill.never.as_slice(),
    )?;
    shown_text(alloc, told.as_slice())
}
