//! Races on keys where the plan keeps what gets bring: a get that is answered at once, and the gets that
//! bring its key to its node.

ghost use Rattle.std.specs.Prelude.{◌≡◌, ◌↔◌, IsTrue, OnOk};
ghost use Rattle.wire_runs.specs.Plan.{event_of, node_of};
ghost use Rattle.wire_scripts.specs.Planned.{plan_of};
ghost use Rattle.wire_findings.specs.Collected.{AreFound};
ghost use Rattle.wire_races.specs.Adding.{AddsFindings};
ghost use Rattle.wire_races.specs.KeyRaces.{IsUnsure};
ghost use Rattle.wire_races.specs.GetRaces.{MayRace, AreRacesByGets};

use crate::key_races::add_race;
use std::alloc::AllocError;
use wire_fates::{KeyRead, process_end};
use wire_findings::FindingsBuilder;
use wire_happens_before::MarkedPlan;
use wire_types::Event;

/// Whether a get that brings a key is live, and a get that is answered at once isn't before it.
fn may_race(marked: &MarkedPlan<'_>, get: Event, get_now: Event) -> bool
    ensures { IsTrue result ↔ MayRace (plan_of marked.now) (event_of get) (event_of get_now) }
{
    marked.live(get) && !marked.before(get_now, get)
}

/// Adds the races of a get with the gets that bring its key to its node, none of which comes surely before
/// it. Of the gets of a process those that may race are the first ones.
pub(crate) fn add_get_races(
    marked: &MarkedPlan<'_>,
    found: &mut FindingsBuilder,
    asked: KeyRead,
    node: u32,
) -> Result<(), AllocError>
    requires found { AreFound (plan_of marked.now) found.old }
    requires late { IsUnsure (plan_of marked.now) (event_of asked.get_now) asked.owner.number asked.key }
    requires node { node ≡ node_of (plan_of marked.now) asked.get_now.proc.number }
    ensures { OnOk result (AddsFindings (plan_of marked.now) found.old found.new
        (AreRacesByGets (plan_of marked.now) (event_of asked.get_now) asked.owner.number asked.key (node_of (plan_of marked.now) asked.get_now.proc.number))) }
{
    let plan = marked.plan();
    let gets = plan.gets_to(asked.owner, asked.key, node);
    let mut place = 0;
    'gets: while place < gets.len() {
        if may_race(marked, gets[place], asked.get_now) {
            add_race(plan, found, gets[place], asked)?;
            place += 1;
        } else {
            place = process_end(gets, place);
        }
    }
    Ok(())
}
