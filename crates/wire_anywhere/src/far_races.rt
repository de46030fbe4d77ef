//! Far races: of a get-now and a delivery of its key to another process, where these two share a node apart from
//! the owner's.

ghost use Rattle.std.specs.Prelude.{◌≡◌, ◌↔◌, ℕ, List, suc, OnOk, IsTrue, MatchOption, map};
ghost use Rattle.wire_runs.specs.Plan.{event_of, event_count, node_of};
ghost use Rattle.wire_runs.specs.Plan as runs;
ghost use Rattle.wire_runs.specs.Order.{IsArrival};
ghost use Rattle.wire_runs.specs.Placings.{HasSurely};
ghost use Rattle.wire_scripts.specs.Planned.{plan_of};
ghost use Rattle.wire_plan.specs.Index.{IsDelivering, AreArrivals};
ghost use Rattle.wire_fates.specs.Deliveries.{MayBeLate, IsLate};
ghost use Rattle.wire_races.specs.KeyRaces.{IsOpenRead};
ghost use Rattle.wire_races.specs.GetRaces.{MayRace};
ghost use Rattle.wire_anywhere.specs.Adding.{AddsPlacementFindings};
ghost use Rattle.wire_anywhere.specs.Gets.{AreGetLists, AreCarrying};
ghost use Rattle.wire_anywhere.specs.Carriers.{LacksSurely};
ghost use Rattle.wire_anywhere.specs.Races.{IsUnsureAnywhere, IsFarBy, IsFarAt, AreFarBelow, AreFarByGets};

use crate::carriers::{first_lacking, has_surely, lacks};
use crate::gets::GetTable;
use crate::placed::PlacedList;
use crate::racing_pairs::add_race;
use std::alloc::AllocError;
use wire_fates::{KeyRead, all_arrivals, next_arrival};
use wire_happens_before::MarkedPlan;
use wire_types::Event;

/// Whether the fence of the owner's arrival, whose end is the owner's event after it, may come late: all arrivals there
/// are live, and a get-now is before none of them. The end tells.
fn may_be_late(marked: &MarkedPlan<'_>, asked: KeyRead, arrival: Event, end: Event) -> bool
    requires get { IsOpenRead (plan_of marked.now) (event_of asked.get_now) asked.owner.number asked.key }
    requires proc { arrival.proc ≡ asked.owner }
    requires delivers { let plan = plan_of marked.now in IsDelivering plan asked.owner.number asked.key (node_of plan asked.owner.number) arrival.at }
    requires end_proc { end.proc ≡ asked.owner }
    requires end_at { end.at ≡ suc arrival.at }
    ensures { IsTrue result ↔ MayBeLate (plan_of marked.now) (event_of asked.get_now) (event_of arrival) }
{
    marked.live(end) && !marked.before(asked.get_now, end)
}

/// The first arrival that isn't before a get-now at the fence of the owner's arrival, which may come late. Where the
/// owner's isn't before the get, none is.
fn late_source(
    marked: &MarkedPlan<'_>,
    asked: KeyRead,
    arrival: Event,
    arrivals: &[Event],
) -> Option<Event>
    requires get { IsOpenRead (plan_of marked.now) (event_of asked.get_now) asked.owner.number asked.key }
    requires may { MayBeLate (plan_of marked.now) (event_of asked.get_now) (event_of arrival) }
    requires those { (members : List ℕ) (j : ℕ) → IsArrival (plan_of marked.now) members j (event_of arrival) →
        AreArrivals (plan_of marked.now) members j (map event_of arrivals.now) }
    ensures { MatchOption result ((x : runs.Event) → IsLate (plan_of marked.now) (event_of asked.get_now) (event_of arrival) x → ⊥)
        (λ x. IsLate (plan_of marked.now) (event_of asked.get_now) (event_of arrival) (event_of x)) }
{
    if marked.before(arrival, asked.get_now) {
        return None;
    }
    match arrivals.first() {
        Some(first) => Some(*first),
        None => None,
    }
}

/// Adds the far race of a get-now with the fence of an arrival, if there is one: with the first arrival that isn't
/// before the get, shown by the first member that lacks the key.
fn add_late(
    marked: &MarkedPlan<'_>,
    gets: &[Event],
    found: &mut PlacedList,
    asked: KeyRead,
    arrival: Event,
) -> Result<(), AllocError>
    requires unsure { IsUnsureAnywhere (plan_of marked.now) (event_of asked.get_now) asked.owner.number asked.key }
    requires gets { AreCarrying (plan_of marked.now) asked.owner.number asked.key (map event_of gets.now) }
    requires may { MayBeLate (plan_of marked.now) (event_of asked.get_now) (event_of arrival) }
    requires proc { arrival.proc ≡ asked.owner }
    requires delivers { let plan = plan_of marked.now in IsDelivering plan asked.owner.number asked.key (node_of plan asked.owner.number) arrival.at }
    ensures { OnOk result (AddsPlacementFindings (plan_of marked.now) found.old found.new
        (IsFarAt (plan_of marked.now) (event_of asked.get_now) asked.owner.number asked.key arrival.at)) }
{
    let plan = marked.plan();
    let arrivals = all_arrivals(plan, arrival);
    let Some(source) = late_source(marked, asked, arrival, arrivals) else {
        return Ok(());
    };
    let Some(other) = first_lacking(marked, gets, asked, arrivals) else {
        return Ok(());
    };
    add_race(plan, found, source, asked, other)
}

/// Adds the far races of a get-now with fences. Where one can't come late, since the get is before an arrival at it or
/// one of these isn't live, no later one can.
fn add_all_late(
    marked: &MarkedPlan<'_>,
    gets: &[Event],
    found: &mut PlacedList,
    asked: KeyRead,
) -> Result<(), AllocError>
    requires unsure { IsUnsureAnywhere (plan_of marked.now) (event_of asked.get_now) asked.owner.number asked.key }
    requires gets { AreCarrying (plan_of marked.now) asked.owner.number asked.key (map event_of gets.now) }
    ensures { OnOk result (AddsPlacementFindings (plan_of marked.now) found.old found.new
        (AreFarBelow (plan_of marked.now) (event_of asked.get_now) asked.owner.number asked.key (event_count (plan_of marked.now) asked.owner.number))) }
{
    let plan = marked.plan();
    let home = plan.node_of(asked.owner);
    let count = plan.event_count(asked.owner);
    let mut from = 0;
    'deliveries: while from < count {
        let Some(arrival) = next_arrival(plan, asked.owner, asked.key, home, from) else {
            return Ok(());
        };
        let end = Event {
            proc: asked.owner,
            at: arrival.at + 1,
        };
        if !may_be_late(marked, asked, arrival, end) {
            return Ok(());
        }
        add_late(marked, gets, found, asked, arrival)?;
        from = end.at;
    }
    Ok(())
}

/// Whether a get that brings a key is live, and a get-now isn't before it.
fn may_race(marked: &MarkedPlan<'_>, get: Event, get_now: Event) -> bool
    ensures { IsTrue result ↔ MayRace (plan_of marked.now) (event_of get) (event_of get_now) }
{
    marked.live(get) && !marked.before(get_now, get)
}

/// Whether a get-now has a far race with a get that brings its key away: it may come later, and its process lacks the
/// key.
fn is_far(marked: &MarkedPlan<'_>, gets: &[Event], asked: KeyRead, get: Event) -> bool
    requires get { IsOpenRead (plan_of marked.now) (event_of asked.get_now) asked.owner.number asked.key }
    requires gets { AreCarrying (plan_of marked.now) asked.owner.number asked.key (map event_of gets.now) }
    ensures { IsTrue result ↔ (MayRace (plan_of marked.now) (event_of get) (event_of asked.get_now)
        × LacksSurely (plan_of marked.now) asked.owner.number asked.key (event_of asked.get_now) get.proc.number) }
{
    may_race(marked, get, asked.get_now) && lacks(marked, gets, asked, get.proc)
}

/// Adds the far races of a get-now with gets that bring its key away, each shown by its own process.
fn add_get_races(
    marked: &MarkedPlan<'_>,
    gets: &[Event],
    found: &mut PlacedList,
    asked: KeyRead,
) -> Result<(), AllocError>
    requires unsure { IsUnsureAnywhere (plan_of marked.now) (event_of asked.get_now) asked.owner.number asked.key }
    requires gets { AreCarrying (plan_of marked.now) asked.owner.number asked.key (map event_of gets.now) }
    ensures { OnOk result (AddsPlacementFindings (plan_of marked.now) found.old found.new
        (AreFarByGets (plan_of marked.now) (event_of asked.get_now) asked.owner.number asked.key)) }
{
    for get in gets {
        if is_far(marked, gets, asked, *get) {
            add_race(marked.plan(), found, *get, asked, get.proc)?;
        }
    }
    Ok(())
}

/// Adds the far races of a get-now. There are none where its own process surely has the key by then.
pub(crate) fn add_far_races(
    marked: &MarkedPlan<'_>,
    table: &GetTable,
    found: &mut PlacedList,
    asked: KeyRead,
) -> Result<(), AllocError>
    requires get { IsOpenRead (plan_of marked.now) (event_of asked.get_now) asked.owner.number asked.key }
    requires table { AreGetLists (plan_of marked.now) table.now }
    ensures { OnOk result (AddsPlacementFindings (plan_of marked.now) found.old found.new
        (IsFarBy (plan_of marked.now) (event_of asked.get_now) asked.owner.number asked.key)) }
{
    if has_surely(marked, table, asked, asked.get_now.proc) {
        return Ok(());
    }
    let gets = table.carrying(marked.plan(), asked);
    add_all_late(marked, gets, found, asked)?;
    add_get_races(marked, gets, found, asked)
}
