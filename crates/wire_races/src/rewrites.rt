//! Rewrites: puts of a key that its process has put before.

ghost use Rattle.std.specs.Prelude.{◌≡◌, ◌<◌, OnOk, MatchOption};
ghost use Rattle.wire_runs.specs.Plan.{event_of, event_count};
ghost use Rattle.wire_runs.specs.Plan as runs;
ghost use Rattle.wire_scripts.specs.Planned.{plan_of};
ghost use Rattle.wire_runs.specs.Races.{IsRewrite};
ghost use Rattle.wire_findings.specs.Collected.{AreFound};
ghost use Rattle.wire_races.specs.FindingKinds.{IsOfRewrite, AllAdded};
ghost use Rattle.wire_races.specs.Adding.{AddsFindings, ToldIn};
ghost use Rattle.wire_races.specs.Rewriting.{IsRewriteBy};

use std::alloc::AllocError;
use wire_findings::{Finding, FindingsBuilder};
use wire_plan::{Kind, Plan};
use wire_types::{Event, Proc};

/// The first put of the key that an event of the plan puts again.
fn first_put_before(plan: &Plan, event: Event) -> Option<Event>
    requires { event.at < event_count (plan_of plan.now) event.proc.number }
    ensures { MatchOption result ((x : runs.Event) → IsRewrite (plan_of plan.now) x (event_of event) → ⊥)
        (λ x. IsRewrite (plan_of plan.now) (event_of x) (event_of event)) }
{
    match plan.kind(event) {
        Kind::Put { key, .. } => match plan.first_put(event.proc, key) {
            Some(first) if first.at < event.at => Some(first),
            _ => None,
        },
        _ => None,
    }
}

/// Adds the rewrite that an event of the plan is, if it is one.
fn add_rewrite(plan: &Plan, found: &mut FindingsBuilder, event: Event) -> Result<(), AllocError>
    requires there { event.at < event_count (plan_of plan.now) event.proc.number }
    requires found { AreFound (plan_of plan.now) found.old }
    ensures { OnOk result (AddsFindings (plan_of plan.now) found.old found.new (IsRewriteBy (plan_of plan.now) (event_of event))) }
{
    match first_put_before(plan, event) {
        Some(first) => {
            let finding = Finding::Rewrite(plan.call_of(first), plan.call_of(event));
            found.add(finding)
        }
        None => Ok(()),
    }
}

/// Adds the rewrites of a process.
fn add_process(plan: &Plan, found: &mut FindingsBuilder, proc: Proc) -> Result<(), AllocError>
    requires { AreFound (plan_of plan.now) found.old }
    ensures { OnOk result (AddsFindings (plan_of plan.now) found.old found.new
        (ToldIn (IsRewriteBy (plan_of plan.now)) proc.number (event_count (plan_of plan.now) proc.number))) }
{
    for at in 0..plan.event_count(proc) {
        add_rewrite(plan, found, Event { proc, at })?;
    }
    Ok(())
}

/// Adds all rewrites of the plan: each put of a key that isn't its process's first put of it (PMIx
/// Standard 5.0, PMIx_Put). The one error is that memory ran out.
pub(crate) fn add_rewrites(plan: &Plan, found: &mut FindingsBuilder) -> Result<(), AllocError>
    requires { AreFound (plan_of plan.now) found.old }
    ensures found { OnOk result (AreFound (plan_of plan.now) found.new) }
    ensures all { OnOk result (AllAdded (plan_of plan.now) IsOfRewrite found.old found.new) }
{
    for number in 0..plan.process_count() {
        add_process(plan, found, Proc { number })?;
    }
    Ok(())
}
