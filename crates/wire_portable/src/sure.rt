//! Whether a get-now of another node surely sees a key: by the rules, and in each library.

ghost use Rattle.std.specs.Prelude.{◌≡◌, ◌<◌, ℕ, false, IsTrue, MatchOption, map};
ghost use Rattle.wire_runs.specs.Plan.{event_of, node_of, process_count, same_node};
ghost use Rattle.wire_runs.specs.Races.{IsPutOnce};
ghost use Rattle.wire_scripts.specs.Map.{job_at};
ghost use Rattle.wire_scripts.specs.Planned.{plan_of};
ghost use Rattle.wire_fates.specs.Deliveries.{IsAmong};
ghost use Rattle.wire_library_laws.specs.Library.{Words};
ghost use Rattle.wire_library_laws.specs.Portable.{IsPortableNow};
ghost use Rattle.wire_portable.specs.Judging.{NoRewrites};
ghost use Rattle.wire_portable.specs.Libraries.{family_of, has};
ghost use Rattle.wire_portable.specs.Nows.{IsLiveNow, AreListedGets, AreForReaders, AreGetsOf, IsStoreAway, IsSureNow};
ghost use Rattle.wire_portable.specs.Nows.{IsGotAmong, AreOfFence, HasJobMember, HasLeft, HasArrived, IsLeftThere, IsLeft};
ghost use Rattle.wire_portable.specs.declared.libraries.Library.{Library as L};

use crate::gets::GetTable;
use crate::hearing::Hearing;
use crate::jobs::job_of;
use crate::judge::{Judge, Key};
use crate::libraries::Libraries;
use crate::nows::{end_of, fence_may_bring, gets_may_bring, has_got, store_away};
use wire_fates::{KeyRead, all_arrivals, comes_surely, next_arrival};
use wire_types::{Event, Proc};

/// The gets of an owner's keys that are made where a get-now is, in process order, with their table and what processes hear
/// of each other.
#[derive(Clone, Copy)]
pub(crate) struct Beside<'a> {
    pub gets: &'a [Event],
    pub table: Option<&'a GetTable<'a>>,
    pub hearing: &'a Hearing,
}

/// Whether one of these gets, from this place on, is of a key that comes no earlier than this commit, and before a
/// get-now.
fn is_got_from(judge: &Judge<'_>, gets: &[Event], get: Event, store: Event, from: usize) -> bool
    requires { (owner : ℕ) × AreGetsOf (plan_of judge.now) owner (map event_of gets.now) }
    ensures { IsTrue result → IsGotAmong (plan_of judge.now) store.at (event_of get) (map event_of gets.now) }
{
    for at in from..gets.len() {
        if has_got(judge, get, store, gets[at]) {
            return true;
        }
    }
    false
}

/// Whether one of these gets, in process order, that this process makes is of such a key, and before a get-now.
fn is_got_by(judge: &Judge<'_>, gets: &[Event], get: Event, store: Event, reader: Proc) -> bool
    requires { (owner : ℕ) × AreGetsOf (plan_of judge.now) owner (map event_of gets.now) }
    ensures { IsTrue result → IsGotAmong (plan_of judge.now) store.at (event_of get) (map event_of gets.now) }
{
    let mut place = gets.partition_point(|other| other.proc.number < reader.number);
    'gets: while place < gets.len() {
        let other = gets[place];
        if other.proc.number != reader.number {
            return false;
        }
        if has_got(judge, get, store, other) {
            return true;
        }
        place += 1;
    }
    false
}

/// The process of a get of an earlier phase that may have brought the key: it is before the get-now.
fn earlier_reader(judge: &Judge<'_>, beside: Beside<'_>, get: Event, store: Event) -> Option<Proc>
    requires { get.proc.number < process_count (plan_of judge.now) }
{
    match beside.table {
        Some(table) => table.earlier_reader(&judge.marked(), get, store),
        None => None,
    }
}

/// Whether a get of its phase that another process makes may be before a get-now.
fn has_heard(beside: Beside<'_>, get: Event) -> bool {
    match beside.table {
        Some(table) => table.has_heard(beside.hearing, get),
        None => true,
    }
}

/// Whether one of these gets, in process order, is of a key that comes no earlier than this commit, and before a get-now:
/// one of the get-now's own process, or of an earlier phase; or any of them, where its process has heard of another one in
/// its phase.
fn is_got(judge: &Judge<'_>, beside: Beside<'_>, get: Event, store: Event) -> bool
    requires there { get.proc.number < process_count (plan_of judge.now) }
    requires gets { (owner : ℕ) × AreGetsOf (plan_of judge.now) owner (map event_of beside.gets.now) }
    ensures { IsTrue result → IsGotAmong (plan_of judge.now) store.at (event_of get) (map event_of beside.entry.gets.now) }
{
    let gets = beside.gets;
    if is_got_by(judge, gets, get, store, get.proc) {
        return true;
    }
    if let Some(reader) = earlier_reader(judge, beside, get, store) {
        if is_got_by(judge, gets, get, store, reader) {
            return true;
        }
    }
    if !has_heard(beside, get) {
        return false;
    }
    is_got_from(judge, gets, get, store, 0)
}

/// Whether a process on a get-now's node, one of those that arrive, is of the owner's job.
fn has_job_member(judge: &Judge<'_>, arrivals: &[Event], get: Event, owner: Proc) -> bool
    requires get { get.proc.number < process_count (plan_of judge.now) }
    requires fence { AreOfFence (plan_of judge.now) (map event_of arrivals.now) }
    ensures { IsTrue result → HasJobMember (plan_of judge.now) (job_at judge.now.processes) owner.number (node_of (plan_of judge.now) get.proc.number)
        (map event_of arrivals.now) }
{
    let plan = judge.plan();
    let scripts = plan.scripts();
    let node = plan.node_of(get.proc);
    let job = job_of(scripts, owner);
    for arrival in arrivals {
        let there = plan.node_of(arrival.proc);
        let its = job_of(scripts, arrival.proc);
        if there == node {
            if its == job {
                return true;
            }
        }
    }
    false
}

/// Whether a process on a get-now's node, one of those that arrive, has left the fence before it.
fn has_left(judge: &Judge<'_>, arrivals: &[Event], get: Event) -> bool
    requires get { get.proc.number < process_count (plan_of judge.now) }
    requires fence { AreOfFence (plan_of judge.now) (map event_of arrivals.now) }
    ensures { IsTrue result → HasLeft (plan_of judge.now) (node_of (plan_of judge.now) get.proc.number) (event_of get) (map event_of arrivals.now) }
{
    let plan = judge.plan();
    let marked = judge.marked();
    let node = plan.node_of(get.proc);
    for arrival in arrivals {
        let there = plan.node_of(arrival.proc);
        if there == node {
            let end = end_of(plan, *arrival);
            let chained = marked.before(end, get);
            if chained {
                return true;
            }
        }
    }
    false
}

/// The arrival of a process among these, which are in process order, by bisection.
fn arrival_between(arrivals: &[Event], proc: Proc) -> Option<Event>
    ensures { MatchOption result (Unit {0}) (λ x. IsAmong proc.number (event_of x) (map event_of arrivals.now)) }
{
    let place = arrivals.partition_point(|arrival| arrival.proc.number < proc.number);
    if place >= arrivals.len() {
        return None;
    }
    let arrival = arrivals[place];
    if arrival.proc.number == proc.number {
        Some(arrival)
    } else {
        None
    }
}

/// The arrival of a process among these, which are in process order. At a fence of all processes it stands at the number
/// of the process.
pub(crate) fn own_arrival(arrivals: &[Event], proc: Proc) -> Option<Event>
    ensures { MatchOption result (Unit {0}) (λ x. IsAmong proc.number (event_of x) (map event_of arrivals.now)) }
{
    match arrivals.get(proc.index()) {
        Some(arrival) if arrival.proc.number == proc.number => Some(*arrival),
        _ => arrival_between(arrivals, proc),
    }
}

/// Whether a get-now's own process is one of those that arrive, earlier.
pub(crate) fn has_arrived(arrivals: &[Event], get: Event) -> bool
    ensures { IsTrue result → HasArrived (event_of get) (map event_of arrivals.now) }
{
    match own_arrival(arrivals, get.proc) {
        Some(own) => own.at < get.at,
        None => false,
    }
}

/// Whether a get-now's own process has left the fence of these arrivals before it, and is of the owner's job: mostly so,
/// and then the others needn't be looked at.
fn is_left_itself(judge: &Judge<'_>, arrivals: &[Event], get: Event, asked: Key) -> bool
    requires get { IsLiveNow (plan_of judge.now) asked.owner.number asked.key (event_of get) }
    requires fence { AreOfFence (plan_of judge.now) (map event_of arrivals.now) }
    ensures { IsTrue result → IsLeftThere (plan_of judge.now) (job_at judge.now.processes) asked.owner.number
        (node_of (plan_of judge.now) get.proc.number) (event_of get) (map event_of arrivals.now) }
{
    let plan = judge.plan();
    let scripts = plan.scripts();
    let own = job_of(scripts, get.proc);
    let job = job_of(scripts, asked.owner);
    if own == job {
        if has_arrived(arrivals, get) {
            return true;
        }
    }
    false
}

/// Whether some process on a get-now's node has left the fence of these arrivals before it, and some member there is of
/// the owner's job.
fn is_left_there(judge: &Judge<'_>, arrivals: &[Event], get: Event, asked: Key) -> bool
    requires get { IsLiveNow (plan_of judge.now) asked.owner.number asked.key (event_of get) }
    requires fence { AreOfFence (plan_of judge.now) (map event_of arrivals.now) }
    ensures { IsTrue result → IsLeftThere (plan_of judge.now) (job_at judge.now.processes) asked.owner.number
        (node_of (plan_of judge.now) get.proc.number) (event_of get) (map event_of arrivals.now) }
{
    if !has_job_member(judge, arrivals, get, asked.owner) {
        return false;
    }
    has_left(judge, arrivals, get)
}

/// Whether the last fence with data that a get-now's own process has left before it brings the key, and the process is of
/// the owner's job: mostly so, and then no fence needs to be looked for.
fn is_left_last(judge: &Judge<'_>, get: Event, asked: Key) -> bool
    requires get { IsLiveNow (plan_of judge.now) asked.owner.number asked.key (event_of get) }
    requires once { IsPutOnce (plan_of judge.now) asked.owner.number asked.key }
    ensures { IsTrue result → IsLeft (plan_of judge.now) (job_at judge.now.processes) asked.owner.number asked.key
        (node_of (plan_of judge.now) get.proc.number) (event_of get) }
{
    let plan = judge.plan();
    let scripts = plan.scripts();
    let Some(own) = plan.last_bringing_arrival(get) else {
        return false;
    };
    let Some(arrival) = own_arrival(all_arrivals(plan, own), asked.owner) else {
        return false;
    };
    let its = job_of(scripts, get.proc);
    let job = job_of(scripts, asked.owner);
    if its == job {
        plan.is_sent(asked.owner, asked.key, arrival.at)
    } else {
        false
    }
}

/// Whether a library in which fences bring surely has the key by a fence that a process of the node has left.
fn is_left(judge: &Judge<'_>, get: Event, asked: Key) -> bool
    requires get { IsLiveNow (plan_of judge.now) asked.owner.number asked.key (event_of get) }
    requires once { IsPutOnce (plan_of judge.now) asked.owner.number asked.key }
    ensures { IsTrue result → IsLeft (plan_of judge.now) (job_at judge.now.processes) asked.owner.number asked.key
        (node_of (plan_of judge.now) get.proc.number) (event_of get) }
{
    if is_left_last(judge, get, asked) {
        return true;
    }
    let plan = judge.plan();
    let marked = judge.marked();
    let node = plan.node_of(get.proc);
    let count = plan.event_count(asked.owner);
    let mut from = 0;
    'deliveries: while from < count {
        let Some(arrival) = next_arrival(plan, asked.owner, asked.key, node, from) else {
            return false;
        };
        let arrivals = all_arrivals(plan, arrival);
        if is_left_itself(judge, arrivals, get, asked) {
            return true;
        }
        if !marked.before(arrival, get) {
            return false;
        }
        if is_left_there(judge, arrivals, get, asked) {
            return true;
        }
        from = arrival.at + 1;
    }
    false
}

/// The libraries that don't surely have a key where a get-now is by a fence that a process of its node has left: those in
/// which fences don't bring.
fn left_alone(judge: &Judge<'_>, get: Event, asked: Key) -> Libraries
    requires { IsLeft (plan_of judge.now) (job_at judge.now.processes) asked.owner.number asked.key
        (node_of (plan_of judge.now) get.proc.number) (event_of get) }
    ensures { (library : L) (words : Words) → words.job ≡ job_at judge.now.processes → has result library ≡ false →
        IsSureNow (family_of library) words (plan_of judge.now) asked.owner.number asked.key (event_of get) }
{
    // Only the proof asks which plan, get and key it is.
    let _ = judge;
    let _ = get;
    let _ = asked;
    Libraries::only_v5()
}

/// The libraries that don't surely have a key where a get-now is, though a process of its node has left a fence that
/// brings it: those in which fences don't bring, where no get has brought it either.
fn unsure_left(
    judge: &Judge<'_>,
    beside: Beside<'_>,
    get: Event,
    asked: Key,
    store: Event,
) -> Libraries
    requires get { IsLiveNow (plan_of judge.now) asked.owner.number asked.key (event_of get) }
    requires gets { AreListedGets false (plan_of judge.now) asked.owner.number (event_of get) (map event_of beside.gets.now) }
    requires store { IsStoreAway (plan_of judge.now) asked.owner asked.key store }
    requires left { IsLeft (plan_of judge.now) (job_at judge.now.processes) asked.owner.number asked.key
        (node_of (plan_of judge.now) get.proc.number) (event_of get) }
    ensures { (library : L) (words : Words) → words.job ≡ job_at judge.now.processes → has result library ≡ false → NoRewrites (plan_of judge.now) →
        IsSureNow (family_of library) words (plan_of judge.now) asked.owner.number asked.key (event_of get) }
{
    if is_got(judge, beside, get, store) {
        return Libraries::none();
    }
    left_alone(judge, get, asked)
}

/// The libraries that don't surely have a key where a get-now is, though something may have brought it.
fn unsure(judge: &Judge<'_>, beside: Beside<'_>, get: Event, asked: Key, store: Event) -> Libraries
    requires get { IsLiveNow (plan_of judge.now) asked.owner.number asked.key (event_of get) }
    requires gets { AreListedGets false (plan_of judge.now) asked.owner.number (event_of get) (map event_of beside.gets.now) }
    requires store { IsStoreAway (plan_of judge.now) asked.owner asked.key store }
    ensures { (library : L) (words : Words) → words.job ≡ job_at judge.now.processes → has result library ≡ false → NoRewrites (plan_of judge.now) →
        IsSureNow (family_of library) words (plan_of judge.now) asked.owner.number asked.key (event_of get) }
{
    let read = KeyRead {
        get_now: get,
        owner: asked.owner,
        key: asked.key,
    };
    let plan = judge.plan();
    let marked = judge.marked();
    let node = plan.node_of(get.proc);
    let all = Libraries::all();
    if !is_got(judge, beside, get, store) {
        return all;
    }
    if comes_surely(&marked, read, node) {
        return Libraries::none();
    }
    all
}

/// Whether a get where a get-now is may have brought a key that this commit stores.
fn is_brought(judge: &Judge<'_>, table: Option<&GetTable<'_>>, get: Event, store: Event) -> bool
    requires { get.proc.number < process_count (plan_of judge.now) }
{
    match table {
        Some(table) => table.is_brought(&judge.marked(), get, store),
        None => true,
    }
}

/// The libraries on which a get-now of another node may see what it doesn't see by the rules, or the other way round;
/// given the gets of the owner's keys from its node, and their table.
pub(crate) fn far_now(judge: &Judge<'_>, beside: Beside<'_>, get: Event, asked: Key) -> Libraries
    requires get { IsLiveNow (plan_of judge.now) asked.owner.number asked.key (event_of get) }
    requires far { same_node (plan_of judge.now) asked.owner.number get.proc.number ≡ false }
    requires gets { AreListedGets false (plan_of judge.now) asked.owner.number (event_of get) (map event_of beside.gets.now) }
    ensures { (library : L) (words : Words) → words.job ≡ job_at judge.now.processes → has result library ≡ false → NoRewrites (plan_of judge.now) →
        AreForReaders (plan_of judge.now) asked.owner.number (map event_of beside.entry.gets.now) →
        IsPortableNow (family_of library) words (plan_of judge.now) asked.owner.number asked.key (event_of get) }
{
    let plan = judge.plan();
    let node = plan.node_of(get.proc);
    let Some(store) = store_away(judge, asked) else {
        return Libraries::none();
    };
    if is_left(judge, get, asked) {
        if !is_brought(judge, beside.table, get, store) {
            return left_alone(judge, get, asked);
        }
        return unsure_left(judge, beside, get, asked, store);
    }
    if fence_may_bring(judge, get, asked, node) {
        return unsure(judge, beside, get, asked, store);
    }
    if gets_may_bring(judge, beside.gets, get, asked, store) {
        return unsure(judge, beside, get, asked, store);
    }
    Libraries::none()
}
