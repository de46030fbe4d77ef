//! The line and the turn that each event of a process comes from.

ghost use Rattle.std.specs.Prelude.{◌≡◌, ◌++◌, ◌<◌, ◌^◌, OnOk, IfOk, map, slice_get, length};
ghost use Rattle.wire_pattern.specs.Instances.{IsCast};
ghost use Rattle.wire_pattern.specs.Planned.{steps_in};
ghost use Rattle.wire_pattern.specs.Views.{view_call, line_by, step_by};
ghost use Rattle.wire_instances.specs.Views.{cast_by};
ghost use Rattle.wire_pattern_stages.specs.Views.{label_by};
ghost use Rattle.wire_pattern_stages.specs.Lines as spec;
ghost use Rattle.wire_pattern_stages.specs.Tables.{rows_by};

use std::alloc::{AllocError, Global};
use wire_instances::{Cast, LoopTurns, turns_of};
use wire_pattern::{Call, Line, Pattern, Step};
use wire_pattern_waits::Caller;

/// Where an event comes from: the step of its role's script, the line of that step, and the process that the turn is
/// for, the caller itself outside loops.
#[derive(Clone, Copy)]
pub(crate) struct Label {
    pub(crate) step: usize,
    pub(crate) line: usize,
    pub(crate) each: u32,
}

/// Whether a call is a fence.
fn is_fence(call: &Call) -> bool
    ensures { result ≡ spec.is_fence (view_call call.now) }
{
    match call {
        Call::Fence { .. } => true,
        _ => false,
    }
}

/// Appends the label of each event of a call.
fn add_call(out: &mut Vec<Label>, label: Label, call: &Call) -> Result<(), AllocError>
    ensures { OnOk result (map label_by out.new.items ≡ map label_by out.old.items
        ++ spec.call_labels label.step label.line label.each (view_call call.now)) }
{
    out.push(label)?;
    if is_fence(call) {
        out.push(label)?;
    }
    Ok(())
}

/// Appends those of a turn.
fn add_turn(out: &mut Vec<Label>, step: usize, each: u32, lines: &[Line]) -> Result<(), AllocError>
    ensures { OnOk result (map label_by out.new.items ≡ map label_by out.old.items
        ++ spec.turn_labels step 0 each (map line_by lines.now)) }
{
    for (number, line) in lines.iter().enumerate() {
        let label = Label {
            step,
            line: number,
            each,
        };
        add_call(out, label, &line.call)?;
    }
    Ok(())
}

/// Appends those of all turns of a loop.
fn add_turns(
    out: &mut Vec<Label>,
    step: usize,
    turns: &[u32],
    lines: &[Line],
) -> Result<(), AllocError>
    ensures { OnOk result (map label_by out.new.items ≡ map label_by out.old.items
        ++ spec.loop_labels step (map line_by lines.now) turns.now) }
{
    for each in turns {
        add_turn(out, step, *each, lines)?;
    }
    Ok(())
}

/// Appends those of a step, which has this number.
fn add_step(
    out: &mut Vec<Label>,
    alloc: Global,
    caller: &Caller,
    index: usize,
    step: &Step,
) -> Result<(), AllocError>
    requires { IsCast caller.now.pattern.now (cast_by caller.now.cast.now) }
    ensures { OnOk result (map label_by out.new.items ≡ map label_by out.old.items
        ++ spec.step_labels (cast_by caller.now.cast.now) caller.now.process index (step_by step.now)) }
{
    match step {
        Step::Once(line) => {
            let label = Label {
                step: index,
                line: 0,
                each: caller.process,
            };
            add_call(out, label, &line.call)
        }
        Step::Loop {
            number: _,
            group,
            turns,
            lines,
        } => {
            let round = LoopTurns {
                caller: caller.process,
                step: index,
                turns: *turns,
            };
            let taken = turns_of(alloc, caller.pattern, caller.cast, round, *group)?;
            add_turns(out, index, taken.as_slice(), lines.as_slice())
        }
    }
}

/// Appends those of a script.
fn add_steps(
    out: &mut Vec<Label>,
    alloc: Global,
    caller: &Caller,
    steps: &[Step],
) -> Result<(), AllocError>
    requires { IsCast caller.now.pattern.now (cast_by caller.now.cast.now) }
    ensures { OnOk result (map label_by out.new.items ≡ map label_by out.old.items
        ++ spec.steps_labels (cast_by caller.now.cast.now) caller.now.process 0 (map step_by steps.now)) }
{
    for (index, step) in steps.iter().enumerate() {
        add_step(out, alloc, caller, index, step)?;
    }
    Ok(())
}

/// The label of each event of a process.
pub(crate) fn labels_of(alloc: Global, caller: &Caller) -> Result<Vec<Label>, AllocError>
    requires { IsCast caller.now.pattern.now (cast_by caller.now.cast.now) }
    ensures { IfOk result (λ v. map label_by v.items ≡ spec.steps_labels (cast_by caller.now.cast.now) caller.now.process 0
        (steps_in (slice_get caller.now.pattern.now.roles caller.now.role))) }
{
    let mut labels = Vec::new(alloc);
    if let Some(role) = caller.pattern.roles().get(caller.role as usize) {
        add_steps(&mut labels, alloc, caller, role.steps.as_slice())?;
    }
    Ok(labels)
}

/// The labels of the events of all processes, which have these roles.
pub(crate) fn all_labels(
    alloc: Global,
    pattern: &Pattern,
    cast: &Cast,
    roles: &[u32],
) -> Result<Vec<Vec<Label>>, AllocError>
    requires cast { IsCast pattern.now (cast_by cast.now) }
    requires few { length roles.now < 2 ^ 31 }
    ensures { IfOk result (λ v. rows_by v.items ≡ spec.rows_labels pattern.now (cast_by cast.now) 0 roles.now) }
{
    let mut rows = Vec::new(alloc);
    for (number, role) in roles.iter().enumerate() {
        let caller = Caller {
            pattern,
            cast,
            process: number as u32,
            role: *role,
        };
        let labels = labels_of(alloc, &caller)?;
        rows.push(labels)?;
    }
    Ok(rows)
}
