//! The list of the findings.

ghost use Rattle.std.specs.Prelude.{IfOk, IsOkUnless};
ghost use Rattle.wire_scripts.specs.Planned.{plan_of};
ghost use Rattle.wire_happens_before.specs.Clocks.{AreMarks};
ghost use Rattle.wire_findings.specs.Findings.{AreFindings};
ghost use Rattle.wire_races.specs.FindingKinds.{ArePlaceless};

use crate::key_races::add_key_races;
use crate::name_races::add_name_races;
use crate::rewrites::add_rewrites;
use std::alloc::{AllocError, Global};
use std::thread::Threads;
use wire_findings::{Finding, FindingList, FindingsBuilder};
use wire_happens_before::{HappensBefore, MarkedPlan};
use wire_plan::Plan;
use wire_types::Fault;

/// All findings of a plan, in their order.
fn all_findings(
    rt: &(impl Threads + Sync),
    alloc: Global,
    marked: &MarkedPlan<'_>,
) -> Result<FindingList, AllocError>
    ensures { IfOk result (AreFindings marked.now) }
{
    let plan = marked.plan();
    let mut found = FindingsBuilder::new(alloc);
    add_rewrites(plan, &mut found)?;
    add_key_races(rt, alloc, marked, &mut found)?;
    add_name_races(rt, alloc, marked, &mut found)?;
    let names = plan.scripts().names();
    names.are_apart();
    let list = found.into_list(names);
    Ok(list)
}

/// The rewrites and the races on names of a plan, as they are met: what is found wherever its processes stand. The one
/// error is that memory ran out.
pub fn placeless_findings(
    rt: &(impl Threads + Sync),
    alloc: Global,
    marked: &MarkedPlan<'_>,
) -> Result<FindingList, AllocError>
    ensures { IfOk result (ArePlaceless (plan_of marked.now)) }
{
    let mut found = FindingsBuilder::new(alloc);
    add_rewrites(marked.plan(), &mut found)?;
    add_name_races(rt, alloc, marked, &mut found)?;
    Ok(found.as_met())
}

/// All findings of a plan, in their order, one by one in a `Vec`.
fn vec_of_findings(
    rt: &(impl Threads + Sync),
    alloc: Global,
    marked: &MarkedPlan<'_>,
) -> Result<Vec<Finding>, AllocError>
    ensures { IfOk result (λ found. AreFindings marked.now found.items) }
{
    let list = all_findings(rt, alloc, marked)?;
    list.to_vec(alloc)
}

/// The findings of a plan, each once: the rewrites by the later put, then the races by the lower event and the higher
/// one, and those of one pair by the bytes of their names. Several threads look for the races, and the list is the same
/// whatever pieces they take. The one fault is `Fault::Memory`.
///
/// The list takes 20 bytes for each finding, and 12 more each time the key or the name changes from one to the
/// next. More than 2^32 - 1 such changes count as memory that ran out. [`findings`] gives the same findings as
/// a `Vec`.
pub fn finding_list(
    rt: &(impl Threads + Sync),
    alloc: Global,
    marked: &MarkedPlan<'_>,
) -> Result<FindingList, Fault>
    ensures ok { IfOk result (AreFindings marked.now) }
    ensures memory { IsOkUnless result Fault.Memory }
{
    let list = all_findings(rt, alloc, marked)?;
    Ok(list)
}

/// The findings of a plan, each once: the rewrites by the later put, then the races by the lower event and the higher
/// one, and those of one pair by the bytes of their names. Several threads look for the races, and the list is the same
/// whatever pieces they take. The caller ensures that the marks are those of the plan. The one fault is
/// `Fault::Memory`.
///
/// The `Vec` is made from the list that [`finding_list`] gives, and while it is made there are both. What
/// counts as memory that ran out there does so here. Only tests and `make bench` call this.
pub fn findings(
    rt: &(impl Threads + Sync),
    alloc: Global,
    plan: &Plan,
    marks: &HappensBefore,
) -> Result<Vec<Finding>, Fault>
    requires { AreMarks (plan_of plan.now) marks.now }
    ensures ok { IfOk result (λ found. AreFindings plan.now found.items) }
    ensures memory { IsOkUnless result Fault.Memory }
{
    let marked = marks.with(plan);
    let found = vec_of_findings(rt, alloc, &marked)?;
    Ok(found)
}
