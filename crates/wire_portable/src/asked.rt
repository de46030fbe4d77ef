//! Which calls come to be made, and what has ended by then.

ghost use Rattle.std.specs.Prelude.{◌≡◌, ◌↔◌, IsTrue};
ghost use Rattle.wire_runs.specs.Plan.{event_of};
ghost use Rattle.wire_scripts.specs.Planned.{plan_of};
ghost use Rattle.wire_library_laws.specs.Portable.{IsAsked, EndsFirst};

use wire_happens_before::MarkedPlan;
use wire_types::Event;

/// Whether a call comes to be made, by its first event: the event before it is live.
pub(crate) fn is_asked(marked: &MarkedPlan<'_>, event: Event) -> bool
    ensures { IsTrue result ↔ IsAsked (plan_of marked.now) (event_of event) }
{
    if event.at == 0 {
        return true;
    }
    marked.live(Event {
        proc: event.proc,
        at: event.at - 1,
    })
}

/// Whether two events are one.
pub(crate) fn is_same(x: Event, y: Event) -> bool
    ensures { IsTrue result ↔ (event_of x ≡ event_of y) }
{
    x.proc.number == y.proc.number && x.at == y.at
}

/// Whether an event has ended when a call is made: it is the event right before the call in its process, or before that
/// one.
pub(crate) fn ends_first(marked: &MarkedPlan<'_>, event: Event, call: Event) -> bool
    ensures { IsTrue result ↔ EndsFirst (plan_of marked.now) (event_of event) (event_of call) }
{
    if call.at == 0 {
        return false;
    }
    let last = Event {
        proc: call.proc,
        at: call.at - 1,
    };
    if is_same(event, last) {
        return true;
    }
    let chained = marked.before(event, last);
    chained
}
