//! What positions show: for each process the number of its events that are known to be done.

ghost use Rattle.std.specs.Prelude.{◌≡◌, ◌≢◌, ◌↔◌, ◌<◌, ◌≤◌, None, map, option_map, option_to_list, slice_index};
ghost use Rattle.std.specs.Prelude.{IfSome, MatchOption, slice_get, IsTrue};
ghost use Rattle.std.specs.List.{list_all};
ghost use Rattle.wire_runs.specs.Plan.{event_of, event_count};
ghost use Rattle.wire_scripts.specs.Planned.{plan_of};
ghost use Rattle.wire_plan.specs.Index.{source_list};
ghost use Rattle.wire_fates.specs.Fates.{IsFateOf};
ghost use Rattle.wire_board.specs.Cuts.{shows_event, skip_shown, ShowsSources};
ghost use Rattle.wire_board.specs.Positions.{hold, next_in, ShowsNextIn};

use wire_fates::{Fate, Settled};
use wire_plan::{Plan, Sources};
use wire_types::{Event, Proc};

/// Whether the positions show that an event is done.
pub(crate) fn shows_event(known: &[u64], event: Event) -> bool
    ensures { result ≡ shows_event known.now (event_of event) }
{
    match known.get(event.proc.index()) {
        Some(done) => (event.at as u64) < *done,
        None => false,
    }
}

/// The same of an event that needn't be there.
fn shows_awaited(known: &[u64], event: Option<Event>) -> bool
    ensures { result ≡ list_all (shows_event known.now) (option_to_list (option_map event_of event)) }
{
    match event {
        Some(event) => shows_event(known, event),
        None => true,
    }
}

/// These events from the first one on that the positions don't show to be done; none where they show each.
fn skip_shown_events<'a>(known: &[u64], events: &'a [Event]) -> &'a [Event]
    ensures { map event_of result.now ≡ skip_shown known.now (map event_of events.now) }
{
    for at in 0..events.len() {
        if !shows_event(known, events[at]) {
            return &events[at..];
        }
    }
    &[]
}

/// These sources from the first one on that the positions don't show to be done; none where they show each.
/// Each source is looked at once.
pub fn skip_shown<'a>(known: &[u64], sources: Sources<'a>) -> Sources<'a>
    ensures { source_list result.previous result.awaited result.arrivals.now
        ≡ skip_shown known.now (source_list sources.entry.previous sources.entry.awaited sources.entry.arrivals.now) }
{
    if !shows_awaited(known, sources.previous) {
        return sources;
    }
    if !shows_awaited(known, sources.awaited) {
        return Sources {
            previous: None,
            awaited: sources.awaited,
            arrivals: sources.arrivals,
        };
    }
    Sources {
        previous: None,
        awaited: None,
        arrivals: skip_shown_events(known, sources.arrivals),
    }
}

/// The first of these sources, if there is one.
pub fn first_source(sources: Sources<'_>) -> Option<Event>
    ensures { option_map event_of result ≡ slice_get (source_list sources.entry.previous sources.entry.awaited sources.entry.arrivals.now) 0 }
{
    if let Some(previous) = sources.previous {
        return Some(previous);
    }
    if let Some(awaited) = sources.awaited {
        return Some(awaited);
    }
    match sources.arrivals.get(0) {
        Some(arrival) => Some(*arrival),
        None => None,
    }
}

/// Whether the positions show all sources of an event of the plan.
fn shows_sources(known: &[u64], plan: &Plan, event: Event) -> bool
    requires { event.at < event_count (plan_of plan.now) event.proc.number }
    ensures { IsTrue result ↔ ShowsSources (plan_of plan.now) known.now (event_of event) }
{
    first_source(skip_shown(known, plan.sources(event))).is_none()
}

/// The next event of a rank, if there is one.
fn next_event(known: &[u64], plan: &Plan, rank: Proc) -> Option<Event>
    ensures { MatchOption result (event_count (plan_of plan.now) rank.number ≤ slice_index known.now rank.number)
        (λ event. (event_of event ≡ next_in (hold plan.now rank.number known.now)) × (event.at < event_count (plan_of plan.now) event.proc.number)) }
{
    let place = match known.get(rank.index()) {
        Some(place) => *place,
        None => 0,
    };
    if place >= plan.event_count(rank) as u64 {
        return None;
    }
    Some(Event {
        proc: rank,
        at: place as u32,
    })
}

/// The fate of the next event of a rank, where these positions show that it can happen: there is one, all
/// its sources are done, and its fate isn't `Waits`. Else `None`. It takes no memory, and looks at each
/// source once.
pub fn find_next_fate(settled: &Settled, known: &[u64], rank: Proc) -> Option<Fate>
    ensures ready { (result ≢ None) ↔ ShowsNextIn (plan_of settled.now) (hold settled.now rank.number known.now) }
    ensures fate { IfSome result (λ fate. IsFateOf (plan_of settled.now) (next_in (hold settled.now rank.number known.now)) fate × (fate ≢ Fate.Waits)) }
{
    let plan = settled.plan();
    let event = next_event(known, plan, rank)?;
    if !shows_sources(known, plan, event) {
        return None;
    }
    match settled.fate(event) {
        Fate::Waits => None,
        fate => Some(fate),
    }
}
