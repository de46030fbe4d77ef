//! The limits of a pattern: those of its largest instance that is judged.

ghost use Rattle.std.specs.Prelude.{◌≡◌, ◌<◌, ◌^◌, ◌⊎◌, IfErr, OnOk, map, slice_get};
ghost use Rattle.wire_types.specs.declared.Fault.TheVariants.{Memory};
ghost use Rattle.wire_pattern.specs.Instances.{number_in};
ghost use Rattle.wire_pattern.specs.Planned.{steps_in};
ghost use Rattle.wire_instances.specs.Views.{turn_by};
ghost use Rattle.wire_cutoff.specs.Judged as spec;
ghost use Rattle.wire_cutoff.specs.Judged.{HasFewTurns, HasManyTurns, IsLargestRead, IsTextFault, largest_cast};
ghost use Rattle.wire_cutoff.specs.Judged.{IsLimitFault, IsWithinPatternLimits};
ghost use Rattle.wire_cutoff.specs.Selections.{most_sizes};
ghost use Rattle.wire_cutoff_laws.specs.Sizes.{total_of};

use crate::choices::optional_turns;
use crate::judge::instance_scripts;
use crate::selections::note_sound;
use crate::sizes::most_of_each;
use std::alloc::{AllocError, Global};
use wire_instances::{Cast, Turn, all_alone, process_total, roles_by};
use wire_pattern::{Pattern, Step};
use wire_types::Fault;

/// How many turns of loops of `for some` may be open in the largest instance.
pub const MOST_TURNS: usize = 20;

/// The number of the line of the first role, 0 where there is none.
fn first_line(pattern: &Pattern) -> u64
    ensures { result ≡ number_in (slice_get pattern.now.roles 0) }
{
    match pattern.roles().first() {
        Some(role) => role.number,
        None => 0,
    }
}

/// The number of the line of the loop that is this step of a role's script.
fn loop_line(pattern: &Pattern, role: u32, step: usize) -> u64
    ensures { result ≡ spec.loop_line (slice_get (steps_in (slice_get pattern.now.roles role)) step) }
{
    let Some(role) = pattern.roles().get(role as usize) else {
        return 0;
    };
    match role.steps.get(step) {
        Some(
            Step::Loop {
                number,
                group: _,
                turns: _,
                lines: _,
            },
        ) => *number,
        _ => 0,
    }
}

/// The number of the line of the loop of a turn.
fn turn_line(pattern: &Pattern, roles: &[u32], turn: Turn) -> u64
    ensures { result ≡ spec.turn_line pattern.now roles.now (turn_by turn) }
{
    match roles.get(turn.caller as usize) {
        Some(role) => loop_line(pattern, *role, turn.step),
        None => loop_line(pattern, 0, turn.step),
    }
}

/// The fault of a pattern whose instance with so many processes of each role has too many open turns.
fn judge_turns(alloc: Global, pattern: &Pattern, sizes: &[u32]) -> Result<(), Fault>
    requires most { sizes.now ≡ most_sizes pattern.now.roles }
    requires few { total_of sizes.now < 2 ^ 31 }
    ensures ok { OnOk result (HasFewTurns pattern.now) }
    ensures err { IfErr result (λ e. (e ≡ Memory) ⊎ HasManyTurns pattern.now e) }
{
    note_sound(pattern);
    let roles = roles_by(alloc, sizes)?;
    let turns = optional_turns(alloc, pattern, roles.as_slice())?;
    match turns.get(MOST_TURNS) {
        Some(turn) => Err(Fault::TooMany(turn_line(pattern, roles.as_slice(), *turn))),
        None => Ok(()),
    }
}

/// The fault of the text of the instance with so many processes of each role, each on a node of its own.
fn judge_text(alloc: Global, pattern: &Pattern, sizes: Vec<u32>, total: u32) -> Result<(), Fault>
    requires most { sizes.items ≡ most_sizes pattern.now.roles }
    requires total { total ≡ total_of sizes.items }
    requires few { total < 2 ^ 31 }
    ensures ok { OnOk result (IsLargestRead pattern.now) }
    ensures err { IfErr result (λ e. (e ≡ Memory) ⊎ IsTextFault pattern.now (largest_cast pattern.now) e) }
{
    note_sound(pattern);
    let nodes = all_alone(alloc, total)?;
    let cast = Cast {
        sizes,
        chosen: Vec::new(alloc),
        nodes,
    };
    let (text, scripts) = instance_scripts(alloc, pattern, &cast)?;
    drop(text);
    drop(scripts);
    Ok(())
}

/// The fault of a pattern of which the largest instance that is judged isn't a plan within the limits: the first one.
pub(crate) fn judge_limits(alloc: Global, pattern: &Pattern) -> Result<(), Fault>
    ensures ok { OnOk result (IsWithinPatternLimits pattern.now) }
    ensures err { IfErr result (λ e. (e ≡ Memory) ⊎ IsLimitFault pattern.now e) }
{
    let sizes = most_of_each(alloc, pattern.roles())?;
    let Some(total) = process_total(sizes.as_slice()) else {
        return Err(Fault::TooMany(first_line(pattern)));
    };
    judge_turns(alloc, pattern, sizes.as_slice())?;
    judge_text(alloc, pattern, sizes, total)
}
