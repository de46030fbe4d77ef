//! The steps of the chain that is shown.

ghost use Rattle.std.specs.Prelude.{◌≡◌, ◌⊎◌, ◌↔◌, ◌++◌, ◌∷◌, [], List, Some, IsTrue, IfOk, map, option_map};
ghost use Rattle.std.specs.Prelude.{option_to_list};
ghost use Rattle.wire_runs.specs.Plan.{event_of};
ghost use Rattle.wire_runs.specs.Plan as runs;
ghost use Rattle.wire_scripts.specs.Planned.{plan_of};
ghost use Rattle.wire_runs.specs.Order.{Before};
ghost use Rattle.wire_happens_before.specs.Clocks.{AreMarks, LeadsTo};
ghost use Rattle.wire_happens_before.specs.Chain.{AtMost, IsStepBack, IsShownChain, Lowest};

use crate::marks::HappensBefore;
use std::alloc::{AllocError, Global};
use wire_plan::Plan;
use wire_types::Event;

/// Whether two events are the same.
pub(crate) fn is_same(x: Event, y: Event) -> bool
    ensures { IsTrue result ↔ (event_of x ≡ event_of y) }
{
    x.proc.number == y.proc.number && x.at == y.at
}

/// Whether x stands at y or below it.
fn is_at_most(x: Event, y: Event) -> bool
    ensures { IsTrue result ↔ AtMost (event_of x) (event_of y) }
{
    x.proc.number < y.proc.number || (x.proc.number == y.proc.number && x.at <= y.at)
}

/// The lower of two events.
fn lower(x: Option<Event>, y: Event) -> Event
    ensures one { (option_map event_of x ≡ Some (event_of result)) ⊎ (event_of result ≡ event_of y) }
    ensures first { (z : runs.Event) → option_map event_of x ≡ Some z → AtMost (event_of result) z }
    ensures second { AtMost (event_of result) (event_of y) }
{
    match x {
        Some(x) if is_at_most(x, y) => x,
        _ => y,
    }
}

/// Whether y is x or after x.
fn leads_to(marks: &HappensBefore, x: Event, y: Event) -> bool
    ensures { (plan : runs.Plan) → AreMarks plan marks.now → (IsTrue result ↔ LeadsTo plan (event_of x) (event_of y)) }
{
    is_same(x, y) || marks.before(x, y)
}

/// The lowest event so far that is x or after x, with one more looked at.
fn lowest_with(marks: &HappensBefore, x: Event, lowest: Option<Event>, z: Event) -> Option<Event>
    ensures { (plan : runs.Plan) (places : List runs.Event) → AreMarks plan marks.now → Lowest plan (event_of x) places (option_map event_of lowest)
        → Lowest plan (event_of x) (places ++ event_of z ∷ []) (option_map event_of result) }
{
    if leads_to(marks, x, z) {
        Some(lower(lowest, z))
    } else {
        lowest
    }
}

/// The lowest event so far that is x or after x, with a source looked at, if there is one.
fn lowest_of(
    marks: &HappensBefore,
    x: Event,
    lowest: Option<Event>,
    source: Option<Event>,
) -> Option<Event>
    ensures { (plan : runs.Plan) (places : List runs.Event) → AreMarks plan marks.now → Lowest plan (event_of x) places (option_map event_of lowest)
        → Lowest plan (event_of x) (places ++ option_to_list (option_map event_of source)) (option_map event_of result) }
{
    match source {
        Some(z) => lowest_with(marks, x, lowest, z),
        None => lowest,
    }
}

/// The lowest event so far that is x or after x, with further ones looked at.
fn lowest_among(
    marks: &HappensBefore,
    x: Event,
    first: Option<Event>,
    events: &[Event],
) -> Option<Event>
    ensures { (plan : runs.Plan) (places : List runs.Event) → AreMarks plan marks.now → Lowest plan (event_of x) places (option_map event_of first)
        → Lowest plan (event_of x) (places ++ map event_of events.now) (option_map event_of result) }
{
    let mut lowest = first;
    for z in events {
        lowest = lowest_with(marks, x, lowest, *z);
    }
    lowest
}

/// The lowest of the sources of y that is x or that x is before.
fn step_back(marks: &HappensBefore, plan: &Plan, x: Event, y: Event) -> Event
    requires marks { AreMarks (plan_of plan.now) marks.now }
    requires before { Before (plan_of plan.now) (event_of x) (event_of y) }
    ensures { IsStepBack (plan_of plan.now) (event_of x) (event_of y) (event_of result) }
{
    let sources = plan.sources(y);
    let first = lowest_of(marks, x, None, sources.previous);
    let second = lowest_of(marks, x, first, sources.awaited);
    let lowest = lowest_among(marks, x, second, sources.arrivals);
    lowest.unwrap()
}

/// The chain from x to y that is shown, both ends in it.
pub(crate) fn chain_between(
    alloc: Global,
    marks: &HappensBefore,
    plan: &Plan,
    x: Event,
    y: Event,
) -> Result<Vec<Event>, AllocError>
    requires marks { AreMarks (plan_of plan.now) marks.now }
    requires before { Before (plan_of plan.now) (event_of x) (event_of y) }
    ensures { IfOk result (λ chain. IsShownChain (plan_of plan.now) (event_of x) (event_of y) (map event_of chain.items)) }
{
    let mut chain = Vec::new(alloc);
    let mut event = y;
    'walk: while !is_same(x, event) {
        chain.push(event)?;
        event = step_back(marks, plan, x, event);
    }
    chain.push(event)?;
    chain.reverse();
    Ok(chain)
}
