//! The race of two events, with the two processes that show it on a node of their own.

ghost use Rattle.std.specs.Prelude.{◌≡◌, ◌≢◌, OnOk};
ghost use Rattle.wire_runs.specs.Plan.{event_of};
ghost use Rattle.wire_runs.specs.FindingsAnywhere.{IsPair};
ghost use Rattle.wire_scripts.specs.Planned.{plan_of};
ghost use Rattle.wire_findings.specs.Findings.{shown};
ghost use Rattle.wire_races.specs.KeyRaces.{IsRaceOf, IsOpenRead};
ghost use Rattle.wire_anywhere.specs.Adding.{AddsPlacementFindings};
ghost use Rattle.wire_anywhere.specs.Races.{IsSource, IsRaceWith};

use crate::placed::{Pair, PlacedFinding, PlacedList};
use std::alloc::AllocError;
use wire_fates::KeyRead;
use wire_findings::Finding;
use wire_plan::Plan;
use wire_races::is_lower;
use wire_types::{Event, Proc};

/// Two processes as a pair.
fn pair_of(one: Proc, other: Proc) -> Pair
    requires { one.number ≢ other.number }
    ensures { IsPair result.lower.number result.higher.number one.number other.number }
{
    if one.number < other.number {
        Pair {
            lower: one,
            higher: other,
        }
    } else {
        Pair {
            lower: other,
            higher: one,
        }
    }
}

/// The race of a get-now with an event, the lower call first.
fn race_of(plan: &Plan, source: Event, asked: KeyRead) -> Finding
    requires source { IsSource (plan_of plan.now) (event_of source) }
    requires get { IsOpenRead (plan_of plan.now) (event_of asked.get_now) asked.owner.number asked.key }
    ensures { IsRaceOf (event_of source) (event_of asked.get_now) asked.owner.number asked.key (shown (plan_of plan.now) result) }
{
    let first = plan.call_of(source);
    let second = plan.call_of(asked.get_now);
    if is_lower(source, asked.get_now) {
        Finding::KeyRace(first, second, asked.owner, asked.key)
    } else {
        Finding::KeyRace(second, first, asked.owner, asked.key)
    }
}

/// Adds the race of a get-now with an event, which its process and another show on a node of their own.
pub(crate) fn add_race(
    plan: &Plan,
    found: &mut PlacedList,
    source: Event,
    asked: KeyRead,
    other: Proc,
) -> Result<(), AllocError>
    requires source { IsSource (plan_of plan.now) (event_of source) }
    requires get { IsOpenRead (plan_of plan.now) (event_of asked.get_now) asked.owner.number asked.key }
    requires another { asked.get_now.proc.number ≢ other.number }
    ensures { OnOk result (AddsPlacementFindings (plan_of plan.now) found.old found.new
        (IsRaceWith (event_of source) (event_of asked.get_now) asked.owner.number asked.key other.number)) }
{
    found.push(PlacedFinding {
        finding: race_of(plan, source, asked),
        on: Some(pair_of(asked.get_now.proc, other)),
    })
}
