//! What an event waits for.

ghost use Rattle.std.specs.Prelude.{◌≡◌, option_map};
ghost use Rattle.wire_runs.specs.Plan.{event_of};
ghost use Rattle.wire_plan.specs.Index.{previous_of};

use wire_types::Event;

/// The sources of an event. Together they are exactly what it waits for: each happens before it in every
/// run in which it happens.
#[derive(Clone, Copy)]
pub struct Sources<'a> {
    /// The event before it in its process.
    pub previous: Option<Event>,
    /// The commit that stores the key for which a get waits, or the publish for which a lookup-wait waits.
    pub awaited: Option<Event>,
    /// The arrivals at the fence whose end it is, in process order.
    pub arrivals: &'a [Event],
}

/// The event before an event in its process.
pub(crate) fn previous_event(event: Event) -> Option<Event>
    ensures { option_map event_of result ≡ previous_of (event_of event) }
{
    if event.at == 0 {
        return None;
    }
    Some(Event {
        proc: event.proc,
        at: event.at - 1,
    })
}
