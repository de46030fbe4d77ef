//! Gets that share a request.

ghost use Rattle.std.specs.Prelude.{◌≡◌, ◌<◌, ◌≤◌, ℕ, suc, Some, None, false, true, map, length, slice_get, IsTrue};
ghost use Rattle.wire_runs.specs.Plan.{Get, event_of, event_count, kind};
ghost use Rattle.wire_runs.specs.Puts.{stored};
ghost use Rattle.wire_runs.specs.Plan as runs;
ghost use Rattle.wire_scripts.specs.Planned.{plan_of};
ghost use Rattle.wire_library_laws.specs.Portable.{EndsFirst, IsAsked, Lacks};
ghost use Rattle.wire_portable.specs.declared.libraries.Library.{Library as L};
ghost use Rattle.wire_portable.specs.Commits.{IsLastOf};
ghost use Rattle.wire_portable.specs.Libraries.{family_of, has, only_v4};
ghost use Rattle.wire_portable.specs.Gets.{AreUnreadBeside};
ghost use Rattle.wire_portable.specs.Judging.{AreFineMates};
ghost use Rattle.wire_portable.specs.Sharing.{AreAskedGets, AreTurns, IsApart};

use crate::asked::ends_first;
use crate::gets::ReadWays;
use crate::judge::{Judge, Key};
use crate::libraries::Libraries;
use crate::phases::Phases;
use wire_fates::process_end;
use wire_plan::Kind;
use wire_types::{Event, Proc};

/// Whether a get can't share its request with another one that is asked before its key is there; nor, then, with a
/// later one of that process.
fn is_apart(judge: &Judge<'_>, get: Event, asked: Key, mate: Event) -> bool
    ensures { IsTrue result → IsApart (plan_of judge.now) asked.owner.number asked.key (event_of get) (event_of mate) }
{
    if mate.proc.number == get.proc.number {
        return true;
    }
    if ends_first(&judge.marked(), get, mate) {
        return true;
    }
    judge.is_there_first(asked, mate)
}

/// Whether the key of another get comes no later than this commit.
fn is_sooner(judge: &Judge<'_>, mate: Event, lacking: Event) -> bool
    requires { mate.at < event_count (plan_of judge.now) mate.proc.number }
    ensures { result ≡ false → (p key : ℕ) → kind (plan_of judge.now) (event_of mate) ≡ Some (Get p key) → lacking.proc.number ≡ p →
        stored (plan_of judge.now) p key (suc lacking.at) ≡ None }
{
    let Kind::Get { owner, key } = judge.plan().kind(mate) else {
        return false;
    };
    match judge.plan().store_of(owner, key) {
        Some(store) => store.at <= lacking.at,
        None => false,
    }
}

/// How many of a process's gets, in their order, have ended when a get is asked: those are the first ones. They are
/// looked for by bisection.
fn ended_count(judge: &Judge<'_>, gets: &[Event], get: Event) -> usize
    requires turns { (p : ℕ) × AreTurns (plan_of judge.now) p (map event_of gets.now) }
    requires asked { IsAsked (plan_of judge.now) (event_of get) }
    ensures within { result ≤ length gets.now }
    ensures ended { (k : ℕ) (h : runs.Event) → k < result → slice_get (map event_of gets.now) k ≡ Some h →
        EndsFirst (plan_of judge.now) h (event_of get) }
{
    let mut low = 0;
    let mut high = gets.len();
    'bisection: while low < high {
        let middle = low + (high - low) / 2;
        if ends_first(&judge.marked(), gets[middle], get) {
            low = middle + 1;
        } else {
            high = middle;
        }
    }
    low
}

/// Whether the key of one of these gets of a process, in their order, comes no later than the last commit that lacks
/// the key of a get: of one with which that get can share its request.
fn some_sooner(judge: &Judge<'_>, gets: &[Event], get: Event, asked: Key, lacking: Event) -> bool
    requires turns { AreTurns (plan_of judge.now) asked.owner.number (map event_of gets.now) }
    requires lacking { IsLastOf (Lacks (plan_of judge.now) asked.owner.number asked.key) (Some lacking) }
    ensures { result ≡ false → (library : L) → has only_v4 library ≡ false →
        AreFineMates (family_of library) (plan_of judge.now) asked.owner.number asked.key (event_of get) (map event_of gets.now) }
{
    for at in 0..gets.len() {
        let mate = gets[at];
        if is_apart(judge, get, asked, mate) {
            return false;
        }
        if is_sooner(judge, mate, lacking) {
            return true;
        }
    }
    false
}

/// The libraries on which a get may get the answer of one of these of a process, in their order, which lacks its key,
/// given the last commit that lacks it. Those that end before the get is asked are the first of them, and those that
/// are asked once it has ended, or once its key is there, the last.
fn with_process(
    judge: &Judge<'_>,
    gets: &[Event],
    get: Event,
    asked: Key,
    lacking: Event,
) -> Libraries
    requires turns { AreTurns (plan_of judge.now) asked.owner.number (map event_of gets.now) }
    requires asked { IsAsked (plan_of judge.now) (event_of get) }
    requires lacking { IsLastOf (Lacks (plan_of judge.now) asked.owner.number asked.key) (Some lacking) }
    ensures { (library : L) → has result library ≡ false →
        AreFineMates (family_of library) (plan_of judge.now) asked.owner.number asked.key (event_of get) (map event_of gets.now) }
{
    let first = ended_count(judge, gets, get);
    if first >= gets.len() {
        return Libraries::none();
    }
    if is_apart(judge, get, asked, gets[first]) {
        return Libraries::none();
    }
    let rest = &gets[first..];
    if some_sooner(judge, rest, get, asked, lacking) {
        return Libraries::all();
    }
    Libraries::only_v4()
}

/// Whether 4.2 is among the libraries that are found, and no other can be: no key that is read is there at the last
/// commit that lacks a get's.
fn is_told(found: Libraries, lacking: Event, first: u32) -> bool
    ensures { IsTrue result → (found.v4 ≡ true) × (lacking.at < first) }
{
    found.v4 && lacking.at < first
}

/// The libraries on which a get may get the answer of one of these, in process order, which lacks its key. `first` says
/// up to which event of the owner none of the keys is there that those read which can be under way at once with the get: so
/// where the last commit that lacks the get's key is before it, 4.2 alone can be blamed, and the first such get tells it.
pub(crate) fn mates(
    judge: &Judge<'_>,
    gets: &[Event],
    first: u32,
    get: Event,
    asked: Key,
) -> Libraries
    requires gets { AreAskedGets (plan_of judge.now) asked.owner.number (map event_of gets.now) }
    requires first { AreUnreadBeside (plan_of judge.now) asked.owner.number first (event_of get) (map event_of gets.now) }
    requires asked { IsAsked (plan_of judge.now) (event_of get) }
    ensures { (library : L) → has result library ≡ false →
        AreFineMates (family_of library) (plan_of judge.now) asked.owner.number asked.key (event_of get) (map event_of gets.now) }
{
    let mut found = Libraries::none();
    let Some(lacking) = judge.last_lacking(asked) else {
        return found;
    };
    let mut place = 0;
    'processes: while place < gets.len() {
        let end = process_end(gets, place);
        let row = &gets[place..end];
        found = found.or(with_process(judge, row, get, asked, lacking));
        if found.is_all() {
            return found;
        }
        if is_told(found, lacking, first) {
            return found;
        }
        place = end;
    }
    found
}

/// Whether a get's key isn't stored by the owner's first commit.
fn is_late(judge: &Judge<'_>, asked: Key) -> bool {
    judge.last_lacking(asked).is_some()
}

/// Takes up an event among the reads of a plan.
fn take_read(judge: &Judge<'_>, event: Event, reads: ReadWays) -> ReadWays
    requires { event.at < event_count (plan_of judge.now) event.proc.number }
{
    match judge.plan().kind(event) {
        Kind::GetNow { owner, .. } => ReadWays {
            nows: reads.nows || owner.number != event.proc.number,
            ..reads
        },
        Kind::Get { owner, key } => {
            if owner.number == event.proc.number {
                return reads;
            }
            ReadWays {
                gets: true,
                late: reads.late || is_late(judge, Key { owner, key }),
                ..reads
            }
        }
        _ => reads,
    }
}

/// Takes up the events of a process.
fn take_all_reads(judge: &Judge<'_>, proc: Proc, before: ReadWays) -> ReadWays {
    let mut reads = before;
    for at in 0..judge.plan().event_count(proc) {
        reads = take_read(judge, Event { proc, at }, reads);
    }
    reads
}

/// How the processes of a plan read each other's keys.
pub(crate) fn reads_of(judge: &Judge<'_>) -> ReadWays {
    let mut reads = ReadWays {
        gets: false,
        late: false,
        nows: false,
    };
    for number in 0..judge.plan().process_count() {
        reads = take_all_reads(judge, Proc { number }, reads);
    }
    reads
}

/// Whether an event is a get that may share its request with one that is answered too early: of another process's key,
/// which isn't stored in an earlier phase, nor by the owner's first commit.
fn may_have_mates(judge: &Judge<'_>, phases: &Phases, event: Event) -> bool
    requires { event.at < event_count (plan_of judge.now) event.proc.number }
{
    match judge.plan().kind(event) {
        Kind::Get { owner, key } => {
            let asked = Key { owner, key };
            owner.number != event.proc.number
                && !phases.is_stored_earlier(judge.plan(), event, asked)
                && is_late(judge, asked)
        }
        _ => false,
    }
}

/// Whether some event of a process is.
fn some_have_mates(judge: &Judge<'_>, phases: &Phases, proc: Proc) -> bool {
    for at in 0..judge.plan().event_count(proc) {
        if may_have_mates(judge, phases, Event { proc, at }) {
            return true;
        }
    }
    false
}

/// Whether some event of a plan is.
fn any_has_mates(judge: &Judge<'_>, phases: &Phases) -> bool {
    for number in 0..judge.plan().process_count() {
        if some_have_mates(judge, phases, Proc { number }) {
            return true;
        }
    }
    false
}

/// The same, where what is stored in an earlier phase isn't late.
pub(crate) fn by_phases(judge: &Judge<'_>, phases: &Phases, reads: ReadWays) -> ReadWays {
    ReadWays {
        late: reads.late && any_has_mates(judge, phases),
        ..reads
    }
}
