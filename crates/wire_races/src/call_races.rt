//! The races of one call on a name with calls of one other process.

ghost use Rattle.std.specs.Prelude.{◌≡◌, ◌<◌, ◌≤◌, ◌↔◌, ℕ, true, IsTrue, OnOk, length, map};
ghost use Rattle.wire_runs.specs.Plan.{event_of, kind};
ghost use Rattle.wire_scripts.specs.Planned.{plan_of};
ghost use Rattle.wire_runs.specs.Names.{calls_name};
ghost use Rattle.wire_runs.specs.Order.{Live};
ghost use Rattle.wire_findings.specs.Findings.{shown};
ghost use Rattle.wire_findings.specs.Collected.{AreFound};
ghost use Rattle.wire_races.specs.Adding.{AddsFindings};
ghost use Rattle.wire_races.specs.NameRaces.{IsNameRaceWith, AllRace, race_between, AreOf, AreRising, IsStretch, IsBelow};
ghost use Rattle.wire_races.specs.NameRaces.{AreThoseUnordered};
ghost use Rattle.wire_fates.specs.Cuts.{IsCut};

use std::alloc::AllocError;
use wire_findings::{Finding, FindingsBuilder};
use wire_happens_before::MarkedPlan;
use wire_plan::Plan;
use wire_types::Event;

// The calls of one process that race with a call of another stand between two borders: the first
// that isn't before the call, and the first that is after it, or that isn't live.
#[derive(Clone, Copy)]
enum Border {
    FirstNotBefore,
    FirstAfter,
}

/// A call on a name.
#[derive(Clone, Copy)]
pub(crate) struct NameCall {
    pub(crate) name: u32,
    pub(crate) event: Event,
}

/// The race of a call with one of another process on the same name.
fn race_of(plan: &Plan, x: NameCall, y: Event) -> Finding
    requires x { calls_name (plan_of plan.now) x.name (event_of x.event) (kind (plan_of plan.now) (event_of x.event)) ≡ true }
    requires y { calls_name (plan_of plan.now) x.name (event_of y) (kind (plan_of plan.now) (event_of y)) ≡ true }
    ensures { shown (plan_of plan.now) result ≡ race_between (event_of x.event) (event_of y) x.name }
{
    let is_lower = x.event.proc.number < y.proc.number;
    if is_lower {
        Finding::NameRace(plan.call_of(x.event), plan.call_of(y), x.name)
    } else {
        Finding::NameRace(plan.call_of(y), plan.call_of(x.event), x.name)
    }
}

/// Whether a call stands below a border of the calls that may race with x.
fn is_below(marked: &MarkedPlan<'_>, x: Event, border: Border, y: Event) -> bool
    ensures { IsTrue result ↔ IsBelow (plan_of marked.now) (event_of x) border (event_of y) }
{
    match border {
        Border::FirstNotBefore => marked.before(y, x),
        Border::FirstAfter => marked.live(y) && !marked.before(x, y),
    }
}

/// How many of these calls of one process stand below the border, by bisection.
fn count_below(marked: &MarkedPlan<'_>, x: Event, border: Border, run: &[Event]) -> usize
    ensures within { result ≤ length run.now }
    ensures cut { (p : ℕ) → AreRising (map event_of run.now) → AreOf p (map event_of run.now)
        → IsCut (IsBelow (plan_of marked.now) (event_of x) border) (map event_of run.now) result }
{
    let mut low = 0;
    let mut high = run.len();
    'bisection: while low < high {
        let middle = low + (high - low) / 2;
        if is_below(marked, x, border, run[middle]) {
            low = middle + 1;
        } else {
            high = middle;
        }
    }
    low
}

/// Those of these calls of one process that no chain orders with a live call. They stand between two borders, and both
/// are found without a look at any name.
pub(crate) fn find_unordered<'a>(marked: &MarkedPlan<'_>, x: Event, run: &'a [Event]) -> &'a [Event]
    requires live { Live (plan_of marked.now) (event_of x) }
    requires rising { AreRising (map event_of run.now) }
    requires run { IsStretch (map event_of run.now) }
    ensures { AreThoseUnordered (plan_of marked.now) (event_of x) (map event_of run.now) (map event_of result.now) }
{
    let from = count_below(marked, x, Border::FirstNotBefore, run);
    let to = count_below(marked, x, Border::FirstAfter, run);
    if from < to {
        run.split_at(to).0.split_at(from).1
    } else {
        &[]
    }
}

/// Adds the races of a call with these, each of which races with it.
pub(crate) fn add_races(
    plan: &Plan,
    found: &mut FindingsBuilder,
    x: NameCall,
    those: &[Event],
) -> Result<(), AllocError>
    requires found { AreFound (plan_of plan.now) found.old }
    requires races { AllRace (plan_of plan.now) x.name (event_of x.event) (map event_of those.now) }
    ensures { OnOk result (AddsFindings (plan_of plan.now) found.old found.new (IsNameRaceWith (plan_of plan.now) x.name (event_of x.event) (map event_of those.now))) }
{
    for y in those {
        found.add(race_of(plan, x, *y))?;
    }
    Ok(())
}
