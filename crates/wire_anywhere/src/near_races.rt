//! Near races: of a get-now and the commit that stores its key, where their two processes share a node.

ghost use Rattle.std.specs.Prelude.{OnOk};
ghost use Rattle.wire_runs.specs.Plan.{event_of};
ghost use Rattle.wire_scripts.specs.Planned.{plan_of};
ghost use Rattle.wire_races.specs.KeyRaces.{IsOpenRead};
ghost use Rattle.wire_anywhere.specs.Adding.{AddsPlacementFindings};
ghost use Rattle.wire_anywhere.specs.Races.{IsNearBy};

use crate::placed::PlacedList;
use crate::racing_pairs::add_race;
use std::alloc::AllocError;
use wire_fates::KeyRead;
use wire_happens_before::MarkedPlan;
use wire_races::are_unordered;

/// Adds the near race of a get-now, if there is one: whatever the scope of the put.
pub(crate) fn add_near_race(
    marked: &MarkedPlan<'_>,
    found: &mut PlacedList,
    asked: KeyRead,
) -> Result<(), AllocError>
    requires { IsOpenRead (plan_of marked.now) (event_of asked.get_now) asked.owner.number asked.key }
    ensures { OnOk result (AddsPlacementFindings (plan_of marked.now) found.old found.new
        (IsNearBy (plan_of marked.now) (event_of asked.get_now) asked.owner.number asked.key)) }
{
    let plan = marked.plan();
    let Some(commit) = plan.store_of(asked.owner, asked.key) else {
        return Ok(());
    };
    if are_unordered(marked, commit, asked.get_now) {
        add_race(plan, found, commit, asked, asked.owner)
    } else {
        Ok(())
    }
}
