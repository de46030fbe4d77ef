//! Stages that the largest instance that is judged may keep.

ghost use Rattle.std.specs.Prelude.{◌≡◌, ◌<◌, ◌^◌, IfErr, map};
ghost use Rattle.wire_types.specs.declared.Fault.TheVariants.{Memory};
ghost use Rattle.wire_pattern.specs.Instances.{IsCast};
ghost use Rattle.wire_instances.specs.Views.{cast_by};
ghost use Rattle.wire_cutoff.specs.Judged.{IsJudgeFault};
ghost use Rattle.wire_cutoff.specs.Selections.{selections, most_sizes};
ghost use Rattle.wire_cutoff.specs.Views.{selection_by};
ghost use Rattle.wire_cutoff_laws.specs.Sizes as counted;
ghost use Rattle.wire_cutoff_laws.specs.Sizes.{AreFewSizes};

use crate::labels::all_labels;
use crate::search::search_stages;
use crate::stage::Stages;
use std::alloc::Global;
use wire_core::plain_outcome;
use wire_cutoff::{Selection, cast_for, instance_scripts};
use wire_instances::Cast;
use wire_pattern::Pattern;
use wire_pattern_waits::process_roles;
use wire_plan::Plan;
use wire_scripts::Scripts;
use wire_types::Fault;

/// Stages that the plan of an instance may keep; none where a process waits in it, or where none are found.
fn plan_stages(
    alloc: Global,
    pattern: &Pattern,
    cast: &Cast,
    plan: &Plan,
) -> Result<Option<Stages>, Fault>
    requires { IsCast pattern.now (cast_by cast.now) }
    ensures err { IfErr result (λ e. e ≡ Memory) }
{
    let outcome = plain_outcome(alloc, plan)?;
    if outcome.waiting > 0 {
        return Ok(None);
    }
    let roles = process_roles(alloc, pattern, cast)?;
    let labels = all_labels(alloc, pattern, cast, roles.as_slice())?;
    let found = search_stages(alloc, pattern, plan, roles.as_slice(), labels.as_slice())?;
    Ok(found)
}

/// The same of the plan that these scripts are.
fn scripts_stages(
    alloc: Global,
    pattern: &Pattern,
    cast: &Cast,
    scripts: Scripts,
) -> Result<Option<Stages>, Fault>
    requires { IsCast pattern.now (cast_by cast.now) }
    ensures err { IfErr result (λ e. e ≡ Memory) }
{
    let plan = Plan::build(alloc, scripts)?;
    let found = plan_stages(alloc, pattern, cast, &plan);
    drop(plan);
    found
}

/// The same of the instance of a selection.
fn selection_stages(
    alloc: Global,
    pattern: &Pattern,
    selection: &Selection,
) -> Result<Option<Stages>, Fault>
    requires sizes { AreFewSizes pattern.now.roles selection.now.sizes.items }
    requires few { counted.total_of selection.now.sizes.items < 2 ^ 31 }
    ensures err { IfErr result (λ e. IsJudgeFault pattern.now e) }
{
    let cast = cast_for(alloc, pattern, selection)?;
    let (text, scripts) = instance_scripts(alloc, pattern, &cast)?;
    drop(text);
    let found = scripts_stages(alloc, pattern, &cast, scripts)?;
    Ok(found)
}

/// The same of the last of these selections: the one with the most processes, and with all turns.
pub(crate) fn last_stages(
    alloc: Global,
    pattern: &Pattern,
    all: &[Selection],
) -> Result<Option<Stages>, Fault>
    requires all { map selection_by all.now ≡ selections pattern.now }
    requires few { counted.total_of (most_sizes pattern.now.roles) < 2 ^ 31 }
    ensures err { IfErr result (λ e. IsJudgeFault pattern.now e) }
{
    if all.len() == 0 {
        return Ok(None);
    }
    let found = selection_stages(alloc, pattern, &all[all.len() - 1])?;
    Ok(found)
}
