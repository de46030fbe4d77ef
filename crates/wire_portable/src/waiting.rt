//! Gets that wait: what may be answered too early.

ghost use Rattle.std.specs.Prelude.{◌≡◌, false, IsTrue};
ghost use Rattle.wire_runs.specs.Plan.{event_of};
ghost use Rattle.wire_scripts.specs.Planned.{plan_of};
ghost use Rattle.wire_portable.specs.declared.libraries.Library.{Library as L};
ghost use Rattle.wire_portable.specs.Libraries.{family_of, has};
ghost use Rattle.wire_library_laws.specs.Portable.{IsFor};
ghost use Rattle.wire_portable.specs.Judging.{NoRewrites, IsEndedNear, IsEndedFar, HasEnded};

use crate::asked::ends_first;
use crate::judge::{Judge, Key};
use crate::libraries::Libraries;
use wire_types::Event;

/// Whether what was found, if anything, has ended when a get is made.
fn has_ended(judge: &Judge<'_>, found: Option<Event>, get: Event) -> bool
    ensures { IsTrue result → HasEnded (plan_of judge.now) (event_of get) found }
{
    match found {
        Some(event) => ends_first(&judge.marked(), event, get),
        None => true,
    }
}

/// The libraries on which a get on the owner's node may fail: all, if a commit after which the key isn't there may come
/// once it is asked; 4.2, if the commit that brings the key may.
pub(crate) fn near_get(judge: &Judge<'_>, get: Event, asked: Key) -> Libraries
    ensures { (library : L) → has result library ≡ false →
        IsEndedNear (family_of library) (plan_of judge.now) asked.owner.number asked.key (event_of get) }
{
    if !has_ended(judge, judge.last_lacking(asked), get) {
        return Libraries::all();
    }
    if !has_ended(judge, judge.last_lacked(asked), get) {
        return Libraries::only_v4();
    }
    Libraries::none()
}

/// The libraries on which a get of another node may fail by its own request: 4.2, if some commit of the owner lacks the
/// key, and the key may come once the get is asked.
pub(crate) fn far_get(judge: &Judge<'_>, get: Event, asked: Key) -> Libraries
    ensures { (library : L) → has result library ≡ false →
        IsEndedFar (family_of library) (plan_of judge.now) asked.owner.number asked.key (event_of get) }
{
    if judge.is_there_first(asked, get) {
        return Libraries::none();
    }
    Libraries::only_v4()
}

/// The libraries on which a get fails because what comes under its key isn't for processes of the owner's node, or of
/// other nodes: all, or none.
pub(crate) fn outside(judge: &Judge<'_>, asked: Key, near: bool) -> Libraries
    ensures { (library : L) → has result library ≡ false → NoRewrites (plan_of judge.now) →
        IsFor (plan_of judge.now) asked.owner.number asked.key near }
{
    if judge.is_outside(asked, near) {
        return Libraries::all();
    }
    Libraries::none()
}
