//! The turns of loops of `for some` that may be taken or not.

ghost use Rattle.std.specs.Prelude.{◌≡◌, ◌++◌, ◌<◌, ◌^◌, OnOk, IfOk, map, length, slice_get};
ghost use Rattle.wire_pattern.specs.Planned.{steps_in};
ghost use Rattle.wire_pattern.specs.Views.{view_call, line_by, step_by};
ghost use Rattle.wire_instances.specs.Views.{turn_by};
ghost use Rattle.wire_cutoff_laws.specs.Choices as spec;

use std::alloc::{AllocError, Global};
use wire_instances::Turn;
use wire_pattern::{Call, Line, Pattern, Step, Turns};
use wire_types::is_reserved;

/// Whether a call only reads.
fn is_read_call(call: &Call) -> bool
    ensures { result ≡ spec.is_read_call (view_call call.now) }
{
    match call {
        Call::GetNow { owner: _, key } => !is_reserved(key.base.as_slice()),
        Call::Lookup { name } => !is_reserved(name.base.as_slice()),
        _ => false,
    }
}

/// Whether the lines of a loop only read. Then all of its turns are taken.
fn are_reads(lines: &[Line]) -> bool
    ensures { result ≡ spec.are_reads (map line_by lines.now) }
{
    for line in lines {
        if !is_read_call(&line.call) {
            return false;
        }
    }
    true
}

/// Where a turn stands: its caller, and the number of the step in the caller's script.
#[derive(Clone, Copy)]
struct LoopSite {
    caller: u32,
    step: usize,
}

/// Adds the turns of a round for the processes of a role but its caller.
fn add_turns(
    turns: &mut Vec<Turn>,
    round: LoopSite,
    group: u32,
    roles: &[u32],
) -> Result<(), AllocError>
    requires { length roles.now < 2 ^ 32 }
    ensures { OnOk result (map turn_by turns.new.items
        ≡ map turn_by turns.old.items ++ spec.turns_for round.caller round.step group 0 roles.now) }
{
    for (number, role) in roles.iter().enumerate() {
        let each = number as u32;
        if *role == group && each != round.caller {
            turns.push(Turn {
                caller: round.caller,
                step: round.step,
                each,
            })?;
        }
    }
    Ok(())
}

/// Adds the turns of a step that may be left out.
fn add_step(
    turns: &mut Vec<Turn>,
    round: LoopSite,
    step: &Step,
    roles: &[u32],
) -> Result<(), AllocError>
    requires { length roles.now < 2 ^ 32 }
    ensures { OnOk result (map turn_by turns.new.items
        ≡ map turn_by turns.old.items ++ spec.step_turns roles.now round.caller round.step (step_by step.now)) }
{
    match step {
        Step::Loop {
            number: _,
            group,
            turns: Turns::Chosen,
            lines,
        } => {
            if are_reads(lines.as_slice()) {
                return Ok(());
            }
            add_turns(turns, round, *group, roles)
        }
        _ => Ok(()),
    }
}

/// Adds the turns of a script that may be left out.
fn add_steps(
    turns: &mut Vec<Turn>,
    caller: u32,
    steps: &[Step],
    roles: &[u32],
) -> Result<(), AllocError>
    requires { length roles.now < 2 ^ 32 }
    ensures { OnOk result (map turn_by turns.new.items
        ≡ map turn_by turns.old.items ++ spec.steps_turns roles.now caller 0 (map step_by steps.now)) }
{
    for (number, step) in steps.iter().enumerate() {
        let round = LoopSite {
            caller,
            step: number,
        };
        add_step(turns, round, step, roles)?;
    }
    Ok(())
}

/// Adds the turns of a process that may be left out. It has the role of this number.
fn add_caller(
    turns: &mut Vec<Turn>,
    pattern: &Pattern,
    caller: u32,
    role: u32,
    roles: &[u32],
) -> Result<(), AllocError>
    requires { length roles.now < 2 ^ 32 }
    ensures { OnOk result (map turn_by turns.new.items ≡ map turn_by turns.old.items
        ++ spec.steps_turns roles.now caller 0 (steps_in (slice_get pattern.now.roles role))) }
{
    match pattern.roles().get(role as usize) {
        Some(role) => add_steps(turns, caller, role.steps.as_slice(), roles),
        None => Ok(()),
    }
}

/// The turns of loops of `for some` that may be left out, where the processes have these roles: those of each caller in
/// turn, of each of its loops, for each other process of the loop's role. A loop that only reads has none.
pub fn optional_turns(
    alloc: Global,
    pattern: &Pattern,
    roles: &[u32],
) -> Result<Vec<Turn>, AllocError>
    requires { length roles.now < 2 ^ 31 }
    ensures { IfOk result (λ turns. map turn_by turns.items ≡ spec.callers_turns pattern.now roles.now 0 roles.now) }
{
    let mut turns = Vec::new(alloc);
    for (number, role) in roles.iter().enumerate() {
        add_caller(&mut turns, pattern, number as u32, *role, roles)?;
    }
    Ok(turns)
}
