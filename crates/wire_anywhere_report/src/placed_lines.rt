//! Findings of all placements, in lines.

ghost use Rattle.std.specs.Prelude.{◌≡◌, ◌++◌, IfOk, OnOk};
ghost use Rattle.std.specs.List.{flat_map};
ghost use Rattle.wire_anywhere_report.specs.PlacedLines as spec;

use std::alloc::{AllocError, Global};
use wire_anywhere::{Pair, PlacedFinding, PlacedList};
use wire_report::{push_count, push_finding};
use wire_scripts::Scripts;
use wire_words::push_proc;

/// Appends two ranks, with a comma between them.
fn push_pair(out: &mut Vec<u8>, scripts: &Scripts, pair: Pair) -> Result<(), AllocError>
    ensures { OnOk result (out.new.items ≡ out.old.items ++ spec.pair_text scripts.now pair) }
{
    push_proc(out, scripts, pair.lower)?;
    out.extend_from_slice(b",")?;
    push_proc(out, scripts, pair.higher)
}

/// Appends which two ranks share a node where a finding is one, nothing where it is one everywhere.
pub(crate) fn push_on(
    out: &mut Vec<u8>,
    scripts: &Scripts,
    on: Option<Pair>,
) -> Result<(), AllocError>
    ensures { OnOk result (out.new.items ≡ out.old.items ++ spec.on_text scripts.now on) }
{
    match on {
        Some(pair) => {
            out.extend_from_slice(b" on ")?;
            push_pair(out, scripts, pair)
        }
        None => Ok(()),
    }
}

/// Appends the line of a finding.
fn push_placed(
    out: &mut Vec<u8>,
    scripts: &Scripts,
    placed: PlacedFinding,
) -> Result<(), AllocError>
    ensures { OnOk result (out.new.items ≡ out.old.items ++ spec.placed_line scripts.now placed) }
{
    push_finding(out, scripts, placed.finding)?;
    push_on(out, scripts, placed.on)?;
    out.extend_from_slice(b"\n")
}

/// Appends the lines of all findings.
fn push_all(out: &mut Vec<u8>, scripts: &Scripts, found: &PlacedList) -> Result<(), AllocError>
    ensures { OnOk result (out.new.items ≡ out.old.items ++ flat_map (spec.placed_line scripts.now) found.now) }
{
    for number in 0..found.len() {
        let Some(placed) = found.get(number) else {
            unreachable!();
        };
        push_placed(out, scripts, placed)?;
    }
    Ok(())
}

/// The lines of all findings, and last how many they are.
pub(crate) fn lines_text(
    alloc: Global,
    scripts: &Scripts,
    found: &PlacedList,
) -> Result<Vec<u8>, AllocError>
    ensures { IfOk result (λ text. text.items ≡ spec.placed_report scripts.now found.now) }
{
    let mut text = Vec::new(alloc);
    push_all(&mut text, scripts, found)?;
    push_count(&mut text, found.len())?;
    Ok(text)
}
