//! The search for calls whose reply isn't the same on every placement.

ghost use Rattle.std.specs.Prelude.{◌++◌, IfOk, OnOk, IsOkUnless, map};
ghost use Rattle.wire_runs.specs.Plan.{event_of};
ghost use Rattle.wire_scripts.specs.Planned.{plan_of};
ghost use Rattle.wire_runs.specs.Laws.{plain_end};
ghost use Rattle.wire_runs.specs.Placings.{IsSettledAnywhere};
ghost use Rattle.wire_anywhere.specs.Gets.{AreGetLists};
ghost use Rattle.wire_anywhere.specs.Answered.{AreStuck};
ghost use Rattle.wire_anywhere.specs.Differing.{AreToldTo, AreDiffering, AddsDiffering};

use crate::answered::{count_answered, stuck_events};
use crate::differing::Differing;
use crate::gets::GetTable;
use crate::replies::told;
use std::alloc::{AllocError, Global};
use wire_happens_before::MarkedPlan;
use wire_types::{Event, Fault, Proc};

/// Adds the calls of a process whose reply isn't the same on every placement.
fn add_process(
    marked: &MarkedPlan<'_>,
    table: &GetTable,
    found: &mut Vec<Differing>,
    stuck: &[Event],
    proc: Proc,
) -> Result<(), AllocError>
    requires settled { IsSettledAnywhere (plan_of marked.now) }
    requires table { AreGetLists (plan_of marked.now) table.now }
    requires stuck { AreStuck (plan_of marked.now) (map event_of stuck.now) }
    ensures { OnOk result (AddsDiffering found.old.items found.new.items
        (AreToldTo (plan_of marked.now) proc.number ((plain_end (plan_of marked.now)).done proc.number))) }
{
    for at in 0..count_answered(marked, stuck, proc) {
        if let Some(differing) = told(marked, table, Event { proc, at }) {
            found.push(differing)?;
        }
    }
    Ok(())
}

/// Those of all processes, given the plan's gets, and where processes are stuck.
fn all_differing(
    alloc: Global,
    marked: &MarkedPlan<'_>,
    table: &GetTable,
    stuck: &[Event],
) -> Result<Vec<Differing>, AllocError>
    requires settled { IsSettledAnywhere (plan_of marked.now) }
    requires table { AreGetLists (plan_of marked.now) table.now }
    requires stuck { AreStuck (plan_of marked.now) (map event_of stuck.now) }
    ensures { IfOk result (λ found. AreDiffering (plan_of marked.now) found.items) }
{
    let mut found = Vec::new(alloc);
    for number in 0..marked.plan().process_count() {
        add_process(marked, table, &mut found, stuck, Proc { number })?;
    }
    Ok(found)
}

/// The answered calls of a plan, settled on every placement, that don't have the same reply on all of them, in the
/// order of processes and calls. Gets of reserved keys are left out. The one fault is `Fault::Memory`.
pub fn find_differing(alloc: Global, marked: &MarkedPlan<'_>) -> Result<Vec<Differing>, Fault>
    requires { IsSettledAnywhere (plan_of marked.now) }
    ensures ok { IfOk result (λ found. AreDiffering (plan_of marked.now) found.items) }
    ensures memory { IsOkUnless result Fault.Memory }
{
    let stuck = stuck_events(alloc, marked)?;
    let table = GetTable::of(alloc, marked.plan())?;
    let found = all_differing(alloc, marked, &table, stuck.as_slice())?;
    Ok(found)
}
