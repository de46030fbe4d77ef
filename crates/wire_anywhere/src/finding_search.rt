//! The list of the findings of all placements.

ghost use Rattle.std.specs.Prelude.{OnOk, IfOk, IsOkUnless};
ghost use Rattle.wire_runs.specs.Plan as runs;
ghost use Rattle.wire_anywhere.specs.Anywhere.{AreFoundAnywhere};
ghost use Rattle.wire_anywhere.specs.Adding.{AddsPlacementFindings, IsOnAll};

use crate::key_races::add_key_races;
use crate::placed::{PlacedFinding, PlacedList};
use std::alloc::{AllocError, Global};
use std::thread::Threads;
use wire_findings::FindingList;
use wire_happens_before::MarkedPlan;
use wire_races::placeless_findings;
use wire_types::Fault;

/// Adds findings of every placement.
fn add_placeless(found: &mut PlacedList, list: &FindingList) -> Result<(), AllocError>
    ensures { OnOk result ((plan : runs.Plan) → AddsPlacementFindings plan found.old found.new (IsOnAll plan list.now)) }
{
    for number in 0..list.len() {
        let Some(finding) = list.get(number) else {
            unreachable!();
        };
        found.push(PlacedFinding { finding, on: None })?;
    }
    Ok(())
}

/// All findings of all placements, in their order.
fn all_findings(
    rt: &(impl Threads + Sync),
    alloc: Global,
    marked: &MarkedPlan<'_>,
) -> Result<PlacedList, AllocError>
    ensures { IfOk result (AreFoundAnywhere marked.now) }
{
    let placeless = placeless_findings(rt, alloc, marked)?;
    let mut found = PlacedList::empty(alloc);
    add_placeless(&mut found, &placeless)?;
    add_key_races(rt, alloc, marked, &mut found)?;
    let names = marked.plan().scripts().names();
    names.are_apart();
    Ok(found.in_order(names))
}

/// The findings of all placements of the plan's processes, each once, in the order of `check`: rewrites and races on
/// names, which every placement has, and races on keys, each with the two processes that show it on a node of their
/// own. Several threads look for the races, and the list is the same whatever pieces they take. The one fault is
/// `Fault::Memory`.
pub fn find_anywhere(
    rt: &(impl Threads + Sync),
    alloc: Global,
    marked: &MarkedPlan<'_>,
) -> Result<PlacedList, Fault>
    ensures ok { IfOk result (AreFoundAnywhere marked.now) }
    ensures memory { IsOkUnless result Fault.Memory }
{
    let list = all_findings(rt, alloc, marked)?;
    Ok(list)
}
