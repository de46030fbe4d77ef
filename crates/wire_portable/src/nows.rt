//! Gets that are answered at once: what may bring a key to them.

ghost use Rattle.std.specs.Prelude.{◌≡◌, ◌<◌, ℕ, suc, Some, false, true, IsTrue, map};
ghost use Rattle.wire_runs.specs.Plan.{Get, GetNow, kind, event_of, event_count};
ghost use Rattle.wire_runs.specs.Races.{IsPutOnce};
ghost use Rattle.wire_scripts.specs.Planned.{plan_of};
ghost use Rattle.wire_library_laws.specs.Portable.{SeesNoRemote};
ghost use Rattle.wire_portable.specs.Judging.{NoRewrites};
ghost use Rattle.wire_portable.specs.Nows.{AreGetsOf, IsFoundAway, IsStoreOf, MayCarry, GetsComeLater, FencesComeLater, HasGot};

use crate::judge::{Judge, Key};
use wire_fates::{next_arrival, process_end};
use wire_plan::{Kind, Plan};
use wire_types::Event;

/// The event after one of the plan in its process: where that arrives at a fence, the end of the fence.
pub(crate) fn end_of(plan: &Plan, arrival: Event) -> Event
    requires { arrival.at < event_count (plan_of plan.now) arrival.proc.number }
    ensures proc { result.proc ≡ arrival.proc }
    ensures next { result.at ≡ suc arrival.at }
{
    // Scripts are sound, so the numbers of their events fit.
    let _ = plan.scripts();
    Event {
        proc: arrival.proc,
        at: arrival.at + 1,
    }
}

/// Whether a get-now on the owner's node may see a key that is for other nodes alone.
pub(crate) fn sees_remote(judge: &Judge<'_>, get: Event, asked: Key) -> bool
    ensures { result ≡ false → NoRewrites (plan_of judge.now) → SeesNoRemote (plan_of judge.now) asked.owner.number asked.key (event_of get) }
{
    let marked = judge.marked();
    let Some(store) = judge.live_store(asked) else {
        return false;
    };
    if judge.is_for(asked, true) {
        return false;
    }
    let chained = marked.before(get, store);
    !chained
}

/// Whether a fence with a member on a node may bring a key there, and not surely after a get-now. A get-now is before some
/// arrival at a fence where it is before the owner's end of it. If the first fence doesn't bring the key, no later one does.
pub(crate) fn fence_may_bring(judge: &Judge<'_>, get: Event, asked: Key, node: u32) -> bool
    requires once { IsPutOnce (plan_of judge.now) asked.owner.number asked.key }
    requires is { kind (plan_of judge.now) (event_of get) ≡ Some (GetNow asked.owner.number asked.key) }
    ensures { result ≡ false → FencesComeLater (plan_of judge.now) asked.owner.number asked.key node (event_of get) }
{
    let plan = judge.plan();
    let marked = judge.marked();
    let Some(first) = next_arrival(plan, asked.owner, asked.key, node, 0) else {
        return false;
    };
    let end = end_of(plan, first);
    if !marked.live(end) {
        return false;
    }
    let chained = marked.before(get, end);
    !chained
}

/// Whether a get may bring a key that this commit stores.
fn may_bring(judge: &Judge<'_>, asked: Key, store: Event, other: Event) -> bool
    requires is { (key : ℕ) × (kind (plan_of judge.now) (event_of other) ≡ Some (Get asked.owner.number key)) }
    requires store { IsStoreOf (plan_of judge.now) asked.owner asked.key store }
    ensures { result ≡ false → MayCarry (plan_of judge.now) asked.owner.number asked.key (event_of other) → ⊥ }
{
    let plan = judge.plan();
    let marked = judge.marked();
    let Kind::Get { key, .. } = plan.kind(other) else {
        return false;
    };
    if !marked.live(other) {
        return false;
    }
    if key == asked.key {
        return true;
    }
    let chained = marked.before(other, store);
    !chained
}

/// Whether one of these gets, in process order, may bring a key, and not surely after a get-now. If the get-now is before
/// one that may, it is before the later ones of that process.
pub(crate) fn gets_may_bring(
    judge: &Judge<'_>,
    gets: &[Event],
    get: Event,
    asked: Key,
    store: Event,
) -> bool
    requires gets { AreGetsOf (plan_of judge.now) asked.owner.number (map event_of gets.now) }
    requires store { IsStoreOf (plan_of judge.now) asked.owner asked.key store }
    ensures { result ≡ false → GetsComeLater (plan_of judge.now) asked.owner.number asked.key (event_of get) (map event_of gets.now) }
{
    let marked = judge.marked();
    let mut place = 0;
    'gets: while place < gets.len() {
        let other = gets[place];
        if may_bring(judge, asked, store, other) {
            let after = marked.before(get, other);
            if !after {
                return true;
            }
            place = process_end(gets, place);
        } else {
            place += 1;
        }
    }
    false
}

/// Whether a get of a key that comes no earlier than this commit is before a get-now.
pub(crate) fn has_got(judge: &Judge<'_>, get: Event, store: Event, other: Event) -> bool
    requires { other.at < event_count (plan_of judge.now) other.proc.number }
    ensures { IsTrue result → HasGot (plan_of judge.now) store.at (event_of get) (event_of other) }
{
    let plan = judge.plan();
    let marked = judge.marked();
    let Kind::Get { owner, key } = plan.kind(other) else {
        return false;
    };
    let Some(later) = plan.store_of(owner, key) else {
        return false;
    };
    if later.at < store.at {
        return false;
    }
    let chained = marked.before(other, get);
    chained
}

/// The commit that stores a key for other nodes, where it is put once and may come.
pub(crate) fn store_away(judge: &Judge<'_>, asked: Key) -> Option<Event>
    ensures { IsFoundAway (plan_of judge.now) asked.owner asked.key result }
{
    let plan = judge.plan();
    let count = plan.put_count(asked.owner, asked.key);
    if count != 1 {
        return None;
    }
    if !judge.is_for(asked, false) {
        return None;
    }
    judge.live_store(asked)
}
