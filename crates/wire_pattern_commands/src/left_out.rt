//! The turns of loops of `for some` that an instance leaves out.

ghost use Rattle.std.specs.Prelude.{◌≡◌, ◌++◌, map, slice_get, Some, OnOk, IfOk};
ghost use Rattle.std.specs.List.{flat_map};
ghost use Rattle.wire_pattern.specs.Views.{step_by};
ghost use Rattle.wire_pattern.specs.Planned.{steps_in};
ghost use Rattle.wire_pattern.specs.Instances.{IsCast};
ghost use Rattle.wire_instances.specs.Views.{cast_by, choice_by, turn_by};
ghost use Rattle.wire_cutoff.specs.Judged.{loop_line, turn_line};
ghost use Rattle.wire_pattern_commands.specs.LeftOut as spec;

use std::alloc::{AllocError, Global};
use wire_instances::{Cast, Choice, Turn};
use wire_pattern::{Pattern, Step};
use wire_pattern_waits::process_roles;
use wire_scripts::Scripts;
use wire_types::Proc;
use wire_words::{push_number, push_proc};

/// A turn that is left out: the process that would take it, the one that it is for, and the number of its loop's line.
#[derive(Clone, Copy)]
pub(crate) struct LeftOut {
    pub(crate) caller: u32,
    pub(crate) each: u32,
    pub(crate) line: u64,
}

/// The number of the line of a step that is a loop, 0 of another.
fn step_line(step: &Step) -> u64
    ensures { result ≡ loop_line (Some (step_by step.now)) }
{
    match step {
        Step::Once(_) => 0,
        Step::Loop {
            number,
            group: _,
            turns: _,
            lines: _,
        } => *number,
    }
}

/// The same of the step of this number of a script.
fn line_of(steps: &[Step], number: usize) -> u64
    ensures { result ≡ loop_line (slice_get (map step_by steps.now) number) }
{
    match steps.get(number) {
        Some(step) => step_line(step),
        None => 0,
    }
}

/// The same of the script of a process of the role of this number.
fn line_at(pattern: &Pattern, role: u32, step: usize) -> u64
    ensures { result ≡ loop_line (slice_get (steps_in (slice_get pattern.now.roles role)) step) }
{
    match pattern.roles().get(role as usize) {
        Some(role) => line_of(role.steps.as_slice(), step),
        None => 0,
    }
}

/// The line of the loop of a turn, where the processes have these roles.
fn line_in(pattern: &Pattern, roles: &[u32], turn: Turn) -> u64
    ensures { result ≡ turn_line pattern.now roles.now (turn_by turn) }
{
    match roles.get(turn.caller as usize) {
        Some(role) => line_at(pattern, *role, turn.step),
        None => line_at(pattern, 0, turn.step),
    }
}

/// A turn, with the line of its loop.
fn left_turn(pattern: &Pattern, roles: &[u32], turn: Turn) -> LeftOut
    ensures { result ≡ spec.left_turn pattern.now roles.now (turn_by turn) }
{
    LeftOut {
        caller: turn.caller,
        each: turn.each,
        line: line_in(pattern, roles, turn),
    }
}

/// Adds a turn if it isn't taken.
fn add_left(
    out: &mut Vec<LeftOut>,
    pattern: &Pattern,
    roles: &[u32],
    choice: Choice,
) -> Result<(), AllocError>
    ensures { OnOk result (out.new.items ≡ out.old.items ++ spec.left_in pattern.now roles.now (choice_by choice)) }
{
    if choice.taken {
        return Ok(());
    }
    out.push(left_turn(pattern, roles, choice.turn))?;
    Ok(())
}

/// Those of these turns that aren't taken.
fn all_left(
    alloc: Global,
    pattern: &Pattern,
    roles: &[u32],
    chosen: &[Choice],
) -> Result<Vec<LeftOut>, AllocError>
    ensures { IfOk result (λ v. v.items ≡ flat_map (spec.left_in pattern.now roles.now) (map choice_by chosen.now)) }
{
    let mut left = Vec::new(alloc);
    for choice in chosen {
        add_left(&mut left, pattern, roles, *choice)?;
    }
    Ok(left)
}

/// The turns that an instance leaves out.
pub(crate) fn left_out(
    alloc: Global,
    pattern: &Pattern,
    cast: &Cast,
) -> Result<Vec<LeftOut>, AllocError>
    requires { IsCast pattern.now (cast_by cast.now) }
    ensures { IfOk result (λ v. v.items ≡ spec.left_out pattern.now (cast_by cast.now)) }
{
    let roles = process_roles(alloc, pattern, cast)?;
    let left = all_left(alloc, pattern, roles.as_slice(), cast.chosen.as_slice())?;
    Ok(left)
}

/// Appends which process would take a turn, and which it is for.
fn push_ranks(out: &mut Vec<u8>, scripts: &Scripts, turn: LeftOut) -> Result<(), AllocError>
    ensures { OnOk result (out.new.items ≡ out.old.items ++ spec.rank_words scripts.now turn) }
{
    push_proc(out, scripts, Proc::new(turn.caller))?;
    out.extend_from_slice(b" for ")?;
    push_proc(out, scripts, Proc::new(turn.each))
}

/// Appends the line of a turn's loop.
fn push_line(out: &mut Vec<u8>, line: u64) -> Result<(), AllocError>
    ensures { OnOk result (out.new.items ≡ out.old.items ++ spec.line_words line) }
{
    out.extend_from_slice(b", line ")?;
    push_number(out, line)?;
    out.extend_from_slice(b" of the file\n")
}

/// Appends a turn.
fn push_turn(out: &mut Vec<u8>, scripts: &Scripts, turn: LeftOut) -> Result<(), AllocError>
    ensures { OnOk result (out.new.items ≡ out.old.items ++ spec.turn_words scripts.now turn) }
{
    push_ranks(out, scripts, turn)?;
    push_line(out, turn.line)
}

/// Appends a line for each of these turns.
pub(crate) fn push_turns(
    out: &mut Vec<u8>,
    scripts: &Scripts,
    turns: &[LeftOut],
) -> Result<(), AllocError>
    ensures { OnOk result (out.new.items ≡ out.old.items ++ spec.turns_text scripts.now turns.now) }
{
    for turn in turns {
        push_turn(out, scripts, *turn)?;
    }
    Ok(())
}

/// Appends a turn below a heading.
fn push_indented(out: &mut Vec<u8>, scripts: &Scripts, turn: LeftOut) -> Result<(), AllocError>
    ensures { OnOk result (out.new.items ≡ out.old.items ++ spec.indented_turn scripts.now turn) }
{
    out.extend_from_slice(b"    ")?;
    push_turn(out, scripts, turn)
}

/// Appends these turns.
fn push_all_indented(
    out: &mut Vec<u8>,
    scripts: &Scripts,
    turns: &[LeftOut],
) -> Result<(), AllocError>
    ensures { OnOk result (out.new.items ≡ out.old.items ++ flat_map (spec.indented_turn scripts.now) turns.now) }
{
    for turn in turns {
        push_indented(out, scripts, *turn)?;
    }
    Ok(())
}

/// Appends these turns below a heading, nothing where there are none.
pub(crate) fn push_left(
    out: &mut Vec<u8>,
    scripts: &Scripts,
    turns: &[LeftOut],
) -> Result<(), AllocError>
    ensures { OnOk result (out.new.items ≡ out.old.items ++ spec.left_part scripts.now turns.now) }
{
    if turns.is_empty() {
        return Ok(());
    }
    out.extend_from_slice(b"  turns not taken:\n")?;
    push_all_indented(out, scripts, turns)
}
