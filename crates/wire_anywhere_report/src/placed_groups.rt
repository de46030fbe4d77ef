//! Findings of all placements, in groups.

ghost use Rattle.std.specs.Prelude.{◌≡◌, ◌++◌, map, IfOk, OnOk};
ghost use Rattle.std.specs.List.{flat_map};
ghost use Rattle.wire_types.specs.Texts.{lists_of};
ghost use Rattle.wire_report.specs.Grouped.{AreGroupsOf};
ghost use Rattle.wire_report.specs.GroupedText.{said_call};
ghost use Rattle.wire_report.specs.Label.{label_of as the_label};
ghost use Rattle.wire_anywhere_report.specs.PlacedGroups as spec;
ghost use Rattle.wire_anywhere_report.specs.PlacedLines.{findings_in};

use crate::placed_lines::push_on;
use std::alloc::{AllocError, Global};
use wire_anywhere::{PlacedFinding, PlacedList};
use wire_report::{
    Group, Label, SourceLines, groups_of, label_of, pair_of, push_first, push_last, push_place,
};
use wire_scripts::Scripts;
use wire_types::CallAt;
use wire_words::{push_call, verb_at};

/// The labels of findings, in their order.
fn labels_of(alloc: Global, scripts: &Scripts, found: &PlacedList) -> Result<Vec<Label>, AllocError>
    ensures { IfOk result (λ labels. labels.items ≡ map (λ placed. the_label scripts.now placed.finding) found.now) }
{
    let mut labels = Vec::with_capacity(alloc, found.len())?;
    for number in 0..found.len() {
        let Some(placed) = found.get(number) else {
            unreachable!();
        };
        labels.push(label_of(scripts, placed.finding))?;
    }
    Ok(labels)
}

/// The groups of findings, as `check` has them.
pub(crate) fn group_placed(
    alloc: Global,
    scripts: &Scripts,
    found: &PlacedList,
) -> Result<Vec<Group>, AllocError>
    ensures { IfOk result (λ groups. AreGroupsOf scripts.now (findings_in found.now) groups.items) }
{
    let labels = labels_of(alloc, scripts, found)?;
    groups_of(alloc, labels.as_slice())
}

/// Appends a call with its verb.
pub(crate) fn push_said(
    out: &mut Vec<u8>,
    scripts: &Scripts,
    call: CallAt,
) -> Result<(), AllocError>
    ensures { OnOk result (out.new.items ≡ out.old.items ++ said_call scripts.now call) }
{
    push_call(out, scripts, call)?;
    out.extend_from_slice(b" ")?;
    out.extend_from_slice(verb_at(scripts, call).as_bytes())
}

/// Appends where a call stands, and the call, which goes with the one in the line above.
fn push_note(
    out: &mut Vec<u8>,
    places: SourceLines<'_>,
    scripts: &Scripts,
    call: CallAt,
) -> Result<(), AllocError>
    ensures { OnOk result (out.new.items ≡ out.old.items
        ++ spec.note_part places.entry.name.now scripts.now (lists_of places.entry.rows.now) call) }
{
    push_place(out, places, call)?;
    out.extend_from_slice(b"note: ")?;
    push_said(out, scripts, call)
}

/// Appends the second line of a group: the second call of its first finding, and where that is one.
fn push_second(
    out: &mut Vec<u8>,
    places: SourceLines<'_>,
    scripts: &Scripts,
    placed: PlacedFinding,
) -> Result<(), AllocError>
    ensures { OnOk result (out.new.items ≡ out.old.items
        ++ spec.second_line places.entry.name.now scripts.now (lists_of places.entry.rows.now) placed) }
{
    push_note(out, places, scripts, pair_of(placed.finding).higher)?;
    push_on(out, scripts, placed.on)?;
    out.extend_from_slice(b"\n")
}

/// Appends the lines of a group.
fn push_group(
    out: &mut Vec<u8>,
    places: SourceLines<'_>,
    scripts: &Scripts,
    found: &PlacedList,
    group: Group,
) -> Result<(), AllocError>
    ensures { OnOk result (out.new.items ≡ out.old.items
        ++ spec.group_text places.entry.name.now scripts.now (lists_of places.entry.rows.now) found.now group) }
{
    match found.get(group.first) {
        Some(placed) => {
            push_first(out, places, scripts, placed.finding, group.count)?;
            push_second(out, places, scripts, placed)
        }
        None => Ok(()),
    }
}

/// Appends the lines of all groups.
fn push_all_groups(
    out: &mut Vec<u8>,
    places: SourceLines<'_>,
    scripts: &Scripts,
    found: &PlacedList,
    groups: &[Group],
) -> Result<(), AllocError>
    ensures { OnOk result (out.new.items ≡ out.old.items
        ++ flat_map (spec.group_text places.entry.name.now scripts.now (lists_of places.entry.rows.now) found.now) groups.now) }
{
    for group in groups {
        push_group(out, places, scripts, found, *group)?;
    }
    Ok(())
}

/// The text of these groups of findings.
fn groups_text(
    alloc: Global,
    places: SourceLines<'_>,
    scripts: &Scripts,
    found: &PlacedList,
    groups: &[Group],
) -> Result<Vec<u8>, AllocError>
    ensures { IfOk result (λ text. text.items
        ≡ spec.groups_report places.entry.name.now scripts.now (lists_of places.entry.rows.now) found.now groups.now) }
{
    let mut text = Vec::new(alloc);
    push_all_groups(&mut text, places, scripts, found, groups)?;
    push_last(&mut text, found.len(), groups.len())?;
    Ok(text)
}

/// The text of findings in groups.
pub(crate) fn grouped_text(
    alloc: Global,
    places: SourceLines<'_>,
    scripts: &Scripts,
    found: &PlacedList,
) -> Result<Vec<u8>, AllocError>
    ensures { IfOk result (λ text. spec.IsGroupedText places.entry.name.now (lists_of places.entry.rows.now) scripts.now found.now
        text.items) }
{
    let groups = group_placed(alloc, scripts, found)?;
    groups_text(alloc, places, scripts, found, groups.as_slice())
}
