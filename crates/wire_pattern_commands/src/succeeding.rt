//! Whether every call of the instances that are judged succeeds.

ghost use Rattle.std.specs.Prelude.{◌≡◌, ◌↔◌, ◌<◌, ◌^◌, [], true, map, Ok, IfOk, IfErr};
ghost use Rattle.wire_types.specs.declared.Fault.TheVariants.{Memory};
ghost use Rattle.wire_scripts.specs.Placed.{placed};
ghost use Rattle.wire_scripts.specs.Scripts.{Scripts as ScriptsSpec};
ghost use Rattle.wire_reader.specs.declared.Size.TheVariants.{OfVersion};
ghost use Rattle.wire_reader.specs.Reads.{Reads};
ghost use Rattle.wire_pattern.specs.Instances.{instance_text};
ghost use Rattle.wire_instances.specs.Views.{cast_by};
ghost use Rattle.wire_cutoff.specs.Judged.{IsFewCast, IsJudgeFault};
ghost use Rattle.wire_cutoff.specs.Selections.{selections, most_sizes};
ghost use Rattle.wire_cutoff.specs.Views.{selection_by};
ghost use Rattle.wire_cutoff_laws.specs.Promised.{IsSettledForAll};
ghost use Rattle.wire_cutoff_laws.specs.Sizes.{AreFewSizes, total_of};
ghost use Rattle.wire_pattern_waits.specs.Waits.{AllReadAsPlans};
ghost use Rattle.wire_pattern_stages.specs.Succeeding.{SomeFailsApart, SomePutsRemote, all_succeed};
ghost use Rattle.wire_pattern_commands.specs.Succeeding.{AllSucceedApart, IsCastTold, IsSelectionTold, IsSuccessTold, SucceedsIn};

use crate::laws::succeed_together;
use crate::reading::note_sound;
use std::alloc::Global;
use wire_core::plain_outcome;
use wire_cutoff::{Selection, all_selections, cast_for, instance_scripts};
use wire_instance_laws::laws::instances_read;
use wire_instances::Cast;
use wire_pattern::Pattern;
use wire_pattern_stages::{Waiting, rows_succeed};
use wire_plan::Plan;
use wire_scripts::Scripts;
use wire_types::Fault;

/// Whether every call of a plan succeeds in its plain run.
fn plan_succeeds(alloc: Global, plan: &Plan) -> Result<bool, Fault>
    ensures ok { IfOk result (λ b. b ≡ all_succeed plan.now) }
    ensures err { IfErr result (λ e. e ≡ Memory) }
{
    let outcome = plain_outcome(alloc, plan)?;
    Ok(rows_succeed(outcome.rows.as_slice()))
}

/// Whether every call of scripts does.
fn scripts_succeed(alloc: Global, scripts: Scripts) -> Result<bool, Fault>
    ensures ok { IfOk result (λ b. b ≡ all_succeed scripts) }
    ensures err { IfErr result (λ e. e ≡ Memory) }
{
    let plan = Plan::build(alloc, scripts)?;
    let succeed = plan_succeeds(alloc, &plan);
    drop(plan);
    succeed
}

/// Whether every call of scripts does with all processes on one node.
fn together_succeed(alloc: Global, scripts: Scripts) -> Result<bool, Fault>
    ensures ok { IfOk result (λ b. b ≡ all_succeed (placed scripts [])) }
    ensures err { IfErr result (λ e. e ≡ Memory) }
{
    let none = Vec::new(alloc);
    let placed = scripts.place(alloc, none.as_slice())?;
    let succeed = scripts_succeed(alloc, placed)?;
    Ok(succeed)
}

/// Whether every call of an instance succeeds, on the nodes where its processes are and with all of them on one. On the
/// former each does.
fn instance_succeeds(alloc: Global, pattern: &Pattern, cast: &Cast) -> Result<bool, Fault>
    requires few { IsFewCast pattern.now (cast_by cast.now) }
    requires apart { (s : ScriptsSpec) → Reads OfVersion (instance_text pattern.now (cast_by cast.now)) (Ok s) → all_succeed s ≡ true }
    ensures ok { IfOk result (λ b. IsCastTold pattern.now (cast_by cast.now) b) }
    ensures err { IfErr result (λ e. IsJudgeFault pattern.now e) }
{
    let (text, scripts) = instance_scripts(alloc, pattern, cast)?;
    drop(text);
    let succeed = together_succeed(alloc, scripts)?;
    Ok(succeed)
}

/// The same of the instance of a selection.
fn selection_succeeds(
    alloc: Global,
    pattern: &Pattern,
    selection: &Selection,
) -> Result<bool, Fault>
    requires sizes { AreFewSizes pattern.now.roles selection.now.sizes.items }
    requires few { total_of selection.now.sizes.items < 2 ^ 31 }
    requires apart { SucceedsIn pattern.now (selection_by selection.now) }
    ensures ok { IfOk result (λ b. IsSelectionTold pattern.now (selection_by selection.now) b) }
    ensures err { IfErr result (λ e. IsJudgeFault pattern.now e) }
{
    let cast = cast_for(alloc, pattern, selection)?;
    let succeeds = instance_succeeds(alloc, pattern, &cast)?;
    Ok(succeeds)
}

/// The same of the instances of all selections.
fn selections_succeed(alloc: Global, pattern: &Pattern, all: &[Selection]) -> Result<bool, Fault>
    requires all { map selection_by all.now ≡ selections pattern.now }
    requires few { total_of (most_sizes pattern.now.roles) < 2 ^ 31 }
    requires apart { AllSucceedApart pattern.now }
    ensures ok { IfOk result (λ b. IsSuccessTold pattern.now b) }
    ensures err { IfErr result (λ e. IsJudgeFault pattern.now e) }
{
    for selection in all {
        let succeeds = selection_succeeds(alloc, pattern, selection)?;
        if !succeeds {
            return Ok(false);
        }
    }
    Ok(true)
}

/// Whether every call of the instances that are judged is answered `PMIX_SUCCESS`, both with each rank on a node of its
/// own and with all on one; each is with the former.
fn all_succeed_together(alloc: Global, pattern: &Pattern) -> Result<bool, Fault>
    requires few { total_of (most_sizes pattern.now.roles) < 2 ^ 31 }
    requires apart { AllSucceedApart pattern.now }
    ensures ok { IfOk result (λ b. IsSuccessTold pattern.now b) }
    ensures err { IfErr result (λ e. IsJudgeFault pattern.now e) }
{
    let all = all_selections(alloc, pattern)?;
    let succeed = selections_succeed(alloc, pattern, all.as_slice())?;
    Ok(succeed)
}

/// Whether every call of the instances that are judged is answered `PMIX_SUCCESS`, both with each rank on a node of its
/// own and with all on one, by what these instances show. Nothing is found in the pattern, so only a key that is put for
/// other nodes alone can tell the two apart; without one nothing more is run.
pub(crate) fn every_call_succeeds(
    alloc: Global,
    pattern: &Pattern,
    waiting: &Waiting,
) -> Result<bool, Fault>
    requires settled { IsSettledForAll pattern.now }
    requires few { total_of (most_sizes pattern.now.roles) < 2 ^ 31 }
    requires read { AllReadAsPlans pattern.now }
    requires failing { (waiting.now.failing ≡ true) ↔ SomeFailsApart pattern.now }
    requires remote { (waiting.now.remote ≡ true) ↔ SomePutsRemote pattern.now }
    ensures ok { IfOk result (λ b. IsSuccessTold pattern.now b) }
    ensures err { IfErr result (λ e. IsJudgeFault pattern.now e) }
{
    note_sound(pattern);
    instances_read();
    succeed_together();
    if waiting.failing {
        return Ok(false);
    }
    if !waiting.remote {
        return Ok(true);
    }
    let succeed = all_succeed_together(alloc, pattern)?;
    Ok(succeed)
}
