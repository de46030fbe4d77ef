//! The calls by which a plan isn't portable, in groups: one for each rule.

ghost use Rattle.std.specs.Prelude.{[], ◌≡◌, ◌∷◌, ◌++◌, IfOk, OnOk};
ghost use Rattle.std.specs.List.{flat_map};
ghost use Rattle.wire_types.specs.Texts.{lists_of};
ghost use Rattle.wire_portable_commands.specs.Lines as spec;

use crate::lines::{push_portable, push_said};
use crate::words::{blamed_in, names_text, rule_word};
use std::alloc::{AllocError, Global};
use wire_portable::{Rule, Unportable};
use wire_report::{SourceLines, push_place};
use wire_scripts::Scripts;
use wire_types::CallAt;
use wire_words::push_number;

/// Whether a call is blamed by a rule.
fn is_by(rule: Rule, line: Unportable) -> bool
    ensures { result ≡ spec.is_by rule line }
{
    line.rule.number() == rule.number()
}

/// Adds a call where it is blamed by a rule.
fn add_if_by(those: &mut Vec<Unportable>, rule: Rule, line: Unportable) -> Result<(), AllocError>
    ensures { OnOk result (those.new.items ≡ those.old.items ++ spec.lines_by rule (line ∷ [])) }
{
    if is_by(rule, line) {
        those.push(line)?;
    }
    Ok(())
}

/// The calls that are blamed by a rule.
fn lines_by(alloc: Global, rule: Rule, lines: &[Unportable]) -> Result<Vec<Unportable>, AllocError>
    ensures { IfOk result (λ those. those.items ≡ spec.lines_by rule lines.now) }
{
    let mut those = Vec::new(alloc);
    for line in lines {
        add_if_by(&mut those, rule, *line)?;
    }
    Ok(those)
}

/// Appends how many calls a group has, and their rule.
fn push_count_by(out: &mut Vec<u8>, rule: Rule, those: &[Unportable]) -> Result<(), AllocError>
    ensures { OnOk result (out.new.items ≡ out.old.items ++ spec.counted_by rule those.now) }
{
    push_number(out, those.len() as u64)?;
    out.extend_from_slice(b" unportable by ")?;
    out.extend_from_slice(rule_word(rule).as_bytes())
}

/// Appends the libraries of a group.
fn push_blamed(out: &mut Vec<u8>, those: &[Unportable]) -> Result<(), AllocError>
    ensures { OnOk result (out.new.items ≡ out.old.items ++ spec.in_libraries those.now) }
{
    out.extend_from_slice(b" in ")?;
    out.extend_from_slice(names_text(blamed_in(those)).as_bytes())?;
    out.extend_from_slice(b": ")
}

/// Appends how many calls a group has, their rule and their libraries.
fn push_count(out: &mut Vec<u8>, rule: Rule, those: &[Unportable]) -> Result<(), AllocError>
    ensures { OnOk result (out.new.items ≡ out.old.items ++ spec.counted rule those.now) }
{
    push_count_by(out, rule, those)?;
    push_blamed(out, those)
}

/// Appends how many calls a group has, and one of them.
fn push_counted(
    out: &mut Vec<u8>,
    scripts: &Scripts,
    rule: Rule,
    those: &[Unportable],
    call: CallAt,
) -> Result<(), AllocError>
    ensures { OnOk result (out.new.items ≡ out.old.items ++ spec.counted_call scripts.now rule those.now call) }
{
    push_count(out, rule, those)?;
    push_said(out, scripts, call)?;
    out.extend_from_slice(b"\n")
}

/// Appends the line of a group, none where it has no calls.
fn push_group(
    out: &mut Vec<u8>,
    places: SourceLines<'_>,
    scripts: &Scripts,
    rule: Rule,
    those: &[Unportable],
) -> Result<(), AllocError>
    ensures { OnOk result (out.new.items ≡ out.old.items
        ++ spec.group_line places.entry.name.now (lists_of places.entry.rows.now) scripts.now rule those.now) }
{
    let Some(first) = those.first() else {
        return Ok(());
    };
    push_place(out, places, first.call)?;
    push_counted(out, scripts, rule, those, first.call)
}

/// Appends the line of a rule's group.
fn push_rule(
    out: &mut Vec<u8>,
    places: SourceLines<'_>,
    scripts: &Scripts,
    lines: &[Unportable],
    rule: Rule,
) -> Result<(), AllocError>
    ensures { OnOk result (out.new.items ≡ out.old.items
        ++ spec.group_of_rule places.entry.name.now (lists_of places.entry.rows.now) scripts.now lines.now rule) }
{
    let those = lines_by(*out.allocator(), rule, lines)?;
    push_group(out, places, scripts, rule, those.as_slice())
}

/// Appends the lines of all groups.
fn push_all_groups(
    out: &mut Vec<u8>,
    places: SourceLines<'_>,
    scripts: &Scripts,
    lines: &[Unportable],
) -> Result<(), AllocError>
    ensures { OnOk result (out.new.items ≡ out.old.items
        ++ flat_map (spec.group_of_rule places.entry.name.now (lists_of places.entry.rows.now) scripts.now lines.now) spec.all_rules) }
{
    for rule in &[
        Rule::FarGet,
        Rule::FarLocal,
        Rule::FenceCollect,
        Rule::FenceJobs,
        Rule::FenceRepeats,
        Rule::FenceSpelling,
        Rule::GetNow,
        Rule::Mates,
        Rule::NearGet,
        Rule::NearRemote,
        Rule::Published,
        Rule::Reserved,
        Rule::Rewrite,
        Rule::UnpublishAll,
        Rule::Unpublished,
    ] {
        push_rule(out, places, scripts, lines, *rule)?;
    }
    Ok(())
}

/// Appends the lines of all groups, and the last line.
pub(crate) fn push_grouped(
    out: &mut Vec<u8>,
    places: SourceLines<'_>,
    scripts: &Scripts,
    lines: &[Unportable],
) -> Result<(), AllocError>
    ensures { OnOk result (out.new.items ≡ out.old.items
        ++ spec.grouped_lines places.entry.name.now (lists_of places.entry.rows.now) scripts.now lines.now) }
{
    push_all_groups(out, places, scripts, lines)?;
    push_portable(out, lines)
}
