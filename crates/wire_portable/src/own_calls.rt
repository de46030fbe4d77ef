//! Whether a get-now surely sees a key by its own process's calls, wherever processes are.

ghost use Rattle.std.specs.Prelude.{◌≡◌, ◌<◌, ℕ, Some, true, false, IsTrue, map};
ghost use Rattle.wire_runs.specs.Plan.{Get, kind, event_of, process_count};
ghost use Rattle.wire_runs.specs.Races.{IsPutOnce};
ghost use Rattle.wire_scripts.specs.Map.{job_at};
ghost use Rattle.wire_scripts.specs.Planned.{plan_of};
ghost use Rattle.wire_library_laws.specs.Library.{Words};
ghost use Rattle.wire_library_laws.specs.Anywhere.{IsPortableNowAnywhere};
ghost use Rattle.wire_portable.specs.Judging.{NoRewrites};
ghost use Rattle.wire_portable.specs.Libraries.{family_of, has};
ghost use Rattle.wire_portable.specs.Nows.{IsLiveNow, AreListedGets, AreForReaders, AreGetsOf, IsStoreAway, IsSureItself};
ghost use Rattle.wire_portable.specs.Nows.{HasLeftItself, HasBrought, HasKept, HasGotItself};
ghost use Rattle.wire_portable.specs.declared.libraries.Library.{Library as L};

use crate::jobs::job_of;
use crate::judge::{Judge, Key};
use crate::libraries::Libraries;
use crate::nows::{fence_may_bring, gets_may_bring, has_got, store_away};
use crate::sure::has_arrived;
use wire_fates::{all_arrivals, next_arrival};
use wire_plan::Kind;
use wire_types::{Event, Proc};

/// Whether a get-now's process has left, before it, a fence that brings the key away.
fn has_left(judge: &Judge<'_>, get: Event, asked: Key) -> bool
    requires get { IsLiveNow (plan_of judge.now) asked.owner.number asked.key (event_of get) }
    requires owner { asked.owner.number < process_count (plan_of judge.now) }
    requires once { IsPutOnce (plan_of judge.now) asked.owner.number asked.key }
    ensures { IsTrue result → HasLeftItself (plan_of judge.now) asked.owner.number asked.key (event_of get) }
{
    let plan = judge.plan();
    let marked = judge.marked();
    let node = plan.node_of(asked.owner);
    let count = plan.event_count(asked.owner);
    let mut from = 0;
    'deliveries: while from < count {
        let Some(arrival) = next_arrival(plan, asked.owner, asked.key, node, from) else {
            return false;
        };
        if !marked.before(arrival, get) {
            return false;
        }
        if has_arrived(all_arrivals(plan, arrival), get) {
            return true;
        }
        from = arrival.at + 1;
    }
    false
}

/// Where the gets of a process begin among gets in process order: the first place at which to look. What stands there is
/// looked at.
fn own_place(gets: &[Event], proc: Proc) -> usize {
    gets.partition_point(|other| other.proc.number < proc.number)
}

/// Whether a get-now's process has got, before it, a key that comes no earlier than this commit.
fn is_got(judge: &Judge<'_>, gets: &[Event], get: Event, store: Event) -> bool
    requires { (owner : ℕ) × AreGetsOf (plan_of judge.now) owner (map event_of gets.now) }
    ensures { IsTrue result → HasGotItself (plan_of judge.now) store.at (event_of get) (map event_of gets.now) }
{
    let mut place = own_place(gets, get.proc);
    'gets: while place < gets.len() {
        let other = gets[place];
        let own = other.proc.number == get.proc.number;
        if !own {
            return false;
        }
        if has_got(judge, get, store, other) {
            return true;
        }
        place += 1;
    }
    false
}

/// Whether an event is a get of this key before a get-now.
fn brings_it(judge: &Judge<'_>, get: Event, asked: Key, other: Event) -> bool
    requires { (key : ℕ) × (kind (plan_of judge.now) (event_of other) ≡ Some (Get asked.owner.number key)) }
    ensures { IsTrue result → HasBrought (plan_of judge.now) asked.owner.number asked.key (event_of get) (event_of other) }
{
    let plan = judge.plan();
    let marked = judge.marked();
    let Kind::Get { key, .. } = plan.kind(other) else {
        return false;
    };
    if key != asked.key {
        return false;
    }
    let chained = marked.before(other, get);
    chained
}

/// Whether a get-now's process has got the key before it, and keeps it.
fn is_kept(judge: &Judge<'_>, gets: &[Event], get: Event, asked: Key) -> bool
    requires { AreGetsOf (plan_of judge.now) asked.owner.number (map event_of gets.now) }
    ensures { IsTrue result → HasKept (plan_of judge.now) asked.owner.number asked.key (event_of get) (map event_of gets.now) }
{
    let plan = judge.plan();
    let scripts = plan.scripts();
    if !scripts.keeps() {
        return false;
    }
    let mut place = own_place(gets, get.proc);
    'gets: while place < gets.len() {
        let other = gets[place];
        let own = other.proc.number == get.proc.number;
        if !own {
            return false;
        }
        if brings_it(judge, get, asked, other) {
            return true;
        }
        place += 1;
    }
    false
}

/// The libraries that don't surely have a key by the own calls of a get-now's process, which has left a fence that brings
/// it.
fn unsure_left(judge: &Judge<'_>, gets: &[Event], get: Event, asked: Key, store: Event) -> Libraries
    requires get { IsLiveNow (plan_of judge.now) asked.owner.number asked.key (event_of get) }
    requires gets { AreListedGets true (plan_of judge.now) asked.owner.number (event_of get) (map event_of gets.now) }
    requires store { IsStoreAway (plan_of judge.now) asked.owner asked.key store }
    requires left { HasLeftItself (plan_of judge.now) asked.owner.number asked.key (event_of get) }
    ensures { (library : L) (words : Words) → words.job ≡ job_at judge.now.processes → has result library ≡ false → NoRewrites (plan_of judge.now) →
        IsSureItself (family_of library) words (plan_of judge.now) asked.owner.number asked.key (event_of get) }
{
    if is_got(judge, gets, get, store) {
        return Libraries::none();
    }
    let plan = judge.plan();
    let scripts = plan.scripts();
    let own = job_of(scripts, get.proc);
    let job = job_of(scripts, asked.owner);
    if own == job {
        return Libraries::only_v5();
    }
    Libraries::all()
}

/// The libraries that don't surely have a key by the own gets of a get-now's process.
fn unsure_got(judge: &Judge<'_>, gets: &[Event], get: Event, asked: Key, store: Event) -> Libraries
    requires get { IsLiveNow (plan_of judge.now) asked.owner.number asked.key (event_of get) }
    requires gets { AreListedGets true (plan_of judge.now) asked.owner.number (event_of get) (map event_of gets.now) }
    requires store { IsStoreAway (plan_of judge.now) asked.owner asked.key store }
    ensures { (library : L) (words : Words) → words.job ≡ job_at judge.now.processes → has result library ≡ false → NoRewrites (plan_of judge.now) →
        IsSureItself (family_of library) words (plan_of judge.now) asked.owner.number asked.key (event_of get) }
{
    let all = Libraries::all();
    if !is_kept(judge, gets, get, asked) {
        return all;
    }
    if !is_got(judge, gets, get, store) {
        return all;
    }
    Libraries::none()
}

/// The libraries that don't surely have a key by the own calls of a get-now's process.
fn unsure(judge: &Judge<'_>, gets: &[Event], get: Event, asked: Key, store: Event) -> Libraries
    requires get { IsLiveNow (plan_of judge.now) asked.owner.number asked.key (event_of get) }
    requires gets { AreListedGets true (plan_of judge.now) asked.owner.number (event_of get) (map event_of gets.now) }
    requires store { IsStoreAway (plan_of judge.now) asked.owner asked.key store }
    ensures { (library : L) (words : Words) → words.job ≡ job_at judge.now.processes → has result library ≡ false → NoRewrites (plan_of judge.now) →
        IsSureItself (family_of library) words (plan_of judge.now) asked.owner.number asked.key (event_of get) }
{
    if has_left(judge, get, asked) {
        unsure_left(judge, gets, get, asked, store)
    } else {
        unsure_got(judge, gets, get, asked, store)
    }
}

/// The libraries on which a get-now may see, on some placement, what it doesn't see by the rules, or the other way round;
/// given all gets of the owner's keys.
pub(crate) fn now_anywhere(judge: &Judge<'_>, gets: &[Event], get: Event, asked: Key) -> Libraries
    requires get { IsLiveNow (plan_of judge.now) asked.owner.number asked.key (event_of get) }
    requires gets { AreListedGets true (plan_of judge.now) asked.owner.number (event_of get) (map event_of gets.now) }
    ensures { (library : L) (words : Words) → words.job ≡ job_at judge.now.processes → has result library ≡ false → NoRewrites (plan_of judge.now) →
        AreForReaders (plan_of judge.now) asked.owner.number (map event_of gets.now) →
        IsPortableNowAnywhere (family_of library) words (plan_of judge.now) asked.owner.number asked.key (event_of get) }
{
    let plan = judge.plan();
    let Some(store) = store_away(judge, asked) else {
        return Libraries::none();
    };
    let node = plan.node_of(asked.owner);
    if fence_may_bring(judge, get, asked, node) {
        return unsure(judge, gets, get, asked, store);
    }
    if gets_may_bring(judge, gets, get, asked, store) {
        return unsure(judge, gets, get, asked, store);
    }
    Libraries::none()
}
