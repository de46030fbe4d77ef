//! The call lines that the calls of an instance come from.

ghost use Rattle.std.specs.Prelude.{◌≡◌, ◌<◌, ◌^◌, ◌+◌, ◌++◌, ℕ, OnOk, IfOk, map, flat_map, slice_get};
ghost use Rattle.std.specs.List.{range_with_len};
ghost use Rattle.wire_pattern.specs.Instances.{IsCast};
ghost use Rattle.wire_pattern.specs.Planned.{steps_in};
ghost use Rattle.wire_pattern.specs.Views.{step_by};
ghost use Rattle.wire_instances.specs.Views.{cast_by};
ghost use Rattle.wire_pattern_waits.specs.Places as spec;
ghost use Rattle.wire_pattern_waits.specs.Places.{line_count};

use std::alloc::{AllocError, Global};
use wire_instances::{Cast, LoopTurns, turns_of};
use wire_pattern::{Pattern, Step};

/// Appends so many numbers, the first of which is given.
fn add_numbers(out: &mut Vec<usize>, first: usize, count: usize) -> Result<(), AllocError>
    requires { first + count < 2 ^ 64 }
    ensures { OnOk result (out.new.items ≡ out.old.items ++ range_with_len first count) }
{
    for number in first..first + count {
        out.push(number)?;
    }
    Ok(())
}

/// Appends the same numbers for each turn of a loop.
fn add_turns(
    out: &mut Vec<usize>,
    turns: &[u32],
    first: usize,
    count: usize,
) -> Result<(), AllocError>
    requires { first + count < 2 ^ 64 }
    ensures { OnOk result (out.new.items ≡ out.old.items ++ flat_map (λ (e : ℕ). range_with_len first count) turns.now) }
{
    for _each in turns {
        add_numbers(out, first, count)?;
    }
    Ok(())
}

/// Who makes the calls of a script: a process of an instance, by its number, and the number of its role.
#[derive(Clone, Copy)]
pub struct Caller<'a> {
    pub pattern: &'a Pattern,
    pub cast: &'a Cast,
    pub process: u32,
    pub role: u32,
}

/// Where a step stands in its script: its own number, and that of its first line.
#[derive(Clone, Copy)]
struct Place {
    index: usize,
    first: usize,
}

/// Appends for each call of a step, which stands at this place, the number of its line.
fn add_step(
    out: &mut Vec<usize>,
    alloc: Global,
    caller: &Caller,
    place: Place,
    step: &Step,
) -> Result<(), AllocError>
    requires cast { IsCast caller.now.pattern.now (cast_by caller.now.cast.now) }
    requires fits { place.first + line_count (step_by step.now) < 2 ^ 64 }
    ensures { OnOk result (out.new.items ≡ out.old.items
        ++ spec.step_places (cast_by caller.now.cast.now) caller.now.process place.index place.first (step_by step.now)) }
{
    match step {
        Step::Once(_) => Ok(out.push(place.first)?),
        Step::Loop {
            number: _,
            group,
            turns,
            lines,
        } => {
            let round = LoopTurns {
                caller: caller.process,
                step: place.index,
                turns: *turns,
            };
            let taken = turns_of(alloc, caller.pattern, caller.cast, round, *group)?;
            add_turns(out, taken.as_slice(), place.first, lines.len())
        }
    }
}

/// The number of the first line behind a step, where the first line of the step has this number. It fails only where
/// there are more lines than any memory holds.
fn number_behind(first: usize, step: &Step) -> Result<usize, AllocError>
    ensures { IfOk result (λ n. n ≡ first + line_count (step_by step.now)) }
{
    let count = match step {
        Step::Once(_) => 1,
        Step::Loop { lines, .. } => lines.len(),
    };
    match first.checked_add(count) {
        Some(number) => Ok(number),
        None => Err(AllocError),
    }
}

/// Appends for each call of a script the number of its line.
fn add_steps(
    out: &mut Vec<usize>,
    alloc: Global,
    caller: &Caller,
    steps: &[Step],
) -> Result<(), AllocError>
    requires { IsCast caller.now.pattern.now (cast_by caller.now.cast.now) }
    ensures { OnOk result (out.new.items ≡ out.old.items
        ++ spec.steps_places (cast_by caller.now.cast.now) caller.now.process 0 1 (map step_by steps.now)) }
{
    let mut first = 1;
    for (index, step) in steps.iter().enumerate() {
        let behind = number_behind(first, step)?;
        add_step(out, alloc, caller, Place { index, first }, step)?;
        first = behind;
    }
    Ok(())
}

/// For each call of a process the number of its line in its role's script.
pub fn places_of(alloc: Global, caller: &Caller) -> Result<Vec<usize>, AllocError>
    requires { IsCast caller.now.pattern.now (cast_by caller.now.cast.now) }
    ensures { IfOk result (λ v. v.items ≡ spec.steps_places (cast_by caller.now.cast.now) caller.now.process 0 1
        (steps_in (slice_get caller.now.pattern.now.roles caller.now.role))) }
{
    let mut places = Vec::new(alloc);
    if let Some(role) = caller.pattern.roles().get(caller.role as usize) {
        add_steps(&mut places, alloc, caller, role.steps.as_slice())?;
    }
    Ok(places)
}
