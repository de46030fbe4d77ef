//! The judgement of one instance, on all placements.

ghost use Rattle.std.specs.Prelude.{◌≡◌, ◌⊎◌, Ok, true, IfOk, IfErr};
ghost use Rattle.wire_types.specs.declared.Fault.TheVariants.{Memory};
ghost use Rattle.wire_scripts.specs.Planned.{plan_of};
ghost use Rattle.wire_runs.specs.Plan.{Plan as PlanSpec};
ghost use Rattle.wire_runs.specs.Placings.{IsPlacing};
ghost use Rattle.wire_runs.specs.Races.{IsSettled};
ghost use Rattle.wire_reader.specs.declared.Size.TheVariants.{OfVersion};
ghost use Rattle.wire_reader.specs.Reads.{Reads};
ghost use Rattle.wire_pattern.specs.Instances.{instance_text};
ghost use Rattle.wire_instances.specs.Views.{cast_by};
ghost use Rattle.wire_cutoff.specs.Judged.{IsFewCast, IsJudgeFault, IsTextFault};
ghost use Rattle.wire_cutoff_laws.specs.Promised.{IsChoiceSettled};

use crate::selections::note_sound;
use std::alloc::Global;
use std::thread::Threads;
use wire_anywhere::find_anywhere;
use wire_anywhere::laws::settled_exactly;
use wire_happens_before::HappensBefore;
use wire_instance_laws::laws::instances_read;
use wire_instances::{Cast, pattern_fault, write_front};
use wire_pattern::Pattern;
use wire_pattern_laws::laws::settled_by_placing;
use wire_plan::Plan;
use wire_reader::{Size, read_sized};
use wire_scripts::Scripts;
use wire_types::Fault;

/// Whether nothing is found in a plan on any placement of its processes.
fn is_settled_plan(rt: &(impl Threads + Sync), alloc: Global, plan: &Plan) -> Result<bool, Fault>
    ensures ok { result ≡ Ok true → (other : PlanSpec) → IsPlacing (plan_of plan.now) other → IsSettled other }
    ensures err { IfErr result (λ e. e ≡ Memory) }
{
    let marks = HappensBefore::of(alloc, plan)?;
    let found = find_anywhere(rt, alloc, &marks.with(plan))?;
    settled_exactly();
    Ok(found.is_empty())
}

/// Whether nothing is found in scripts on any placement of their processes.
fn is_settled(rt: &(impl Threads + Sync), alloc: Global, scripts: Scripts) -> Result<bool, Fault>
    ensures ok { result ≡ Ok true → (other : PlanSpec) → IsPlacing (plan_of scripts) other → IsSettled other }
    ensures err { IfErr result (λ e. e ≡ Memory) }
{
    let plan = Plan::build(alloc, scripts)?;
    let settled = is_settled_plan(rt, alloc, &plan);
    drop(plan);
    settled
}

/// The scripts of an instance, by its text; or the fault of the text, on the line of the pattern that it comes from. A
/// text that is too long isn't made: its front tells so.
pub fn instance_scripts(
    alloc: Global,
    pattern: &Pattern,
    cast: &Cast,
) -> Result<(Vec<u8>, Scripts), Fault>
    requires { IsFewCast pattern.now (cast_by cast.now) }
    ensures text { IfOk result (λ r. r.0.items ≡ instance_text pattern.now (cast_by cast.now)) }
    ensures reads { IfOk result (λ r. Reads OfVersion (instance_text pattern.now (cast_by cast.now)) (Ok r.1)) }
    ensures own { IfErr result (λ e. (e ≡ Memory) ⊎ IsTextFault pattern.now (cast_by cast.now) e) }
    ensures err { IfErr result (λ e. IsJudgeFault pattern.now e) }
{
    let text = write_front(alloc, pattern, cast, Size::OfVersion.file_bytes() + 1)?;
    match read_sized(alloc, Size::OfVersion, text.as_slice()) {
        Ok(scripts) => Ok((text, scripts)),
        Err(fault) => {
            let fault = pattern_fault(alloc, pattern, cast, fault)?;
            Err(fault)
        }
    }
}

/// Whether nothing is found in an instance on any placement of its processes.
pub(crate) fn judge_instance(
    rt: &(impl Threads + Sync),
    alloc: Global,
    pattern: &Pattern,
    cast: &Cast,
) -> Result<bool, Fault>
    requires { IsFewCast pattern.now (cast_by cast.now) }
    ensures settled { result ≡ Ok true → IsChoiceSettled pattern.now (cast_by cast.now).sizes (cast_by cast.now).chosen }
    ensures err { IfErr result (λ e. IsJudgeFault pattern.now e) }
{
    let (text, scripts) = instance_scripts(alloc, pattern, cast)?;
    drop(text);
    note_sound(pattern);
    instances_read();
    settled_by_placing();
    is_settled(rt, alloc, scripts)
}
