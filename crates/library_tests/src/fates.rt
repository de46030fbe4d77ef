//! What the fate of an event is.

use crate::workers::settle;
use std::alloc::Global;
use std::test::Fail;
use std::thread::Threads;
use wire_races::Fate;
use wire_types::{Event, Fault, Proc, Reply, Status, Value};

/// A plan whose lookup waits for a name that was taken away.
const TAKEN_AWAY: &[u8] = b"\
rehearsal 1
node n0
node n1
job app
rank n0
publish x 7
unpublish x
fence all
rank n1
fence all
lookup-wait x
";

/// A plan whose fence collects nothing.
const NOT_COLLECTED: &[u8] = b"\
rehearsal 1
node n0
node n1
job app
rank n0
put global k v
commit
fence all
rank n1
fence all
get-now app:0 k
";

/// A plan whose ranks wait for each other.
const STUCK: &[u8] = b"\
rehearsal 1
node n0
node n1
job app
rank n0
get app:1 b
put global a 1
commit
rank n1
get app:0 a
put global b 2
commit
";

/// Events of these plans, by their process and their place in it, and their fates.
const FATES: [(&[u8], u32, u32, Fate); 11] = [
    // app:1 has the events arrive, leave, lookup-wait
    (TAKEN_AWAY, 1, 2, Fate::Waits),
    (TAKEN_AWAY, 1, 3, Fate::Waits),
    // app:0 has put, commit, arrive, leave; app:1 has arrive, leave, get-now
    (NOT_COLLECTED, 1, 2, Fate::Says(NOT_FOUND)),
    (NOT_COLLECTED, 0, 2, Fate::Silent),
    (NOT_COLLECTED, 1, 0, Fate::Silent),
    // Each has get, put, commit
    (STUCK, 0, 0, Fate::Waits),
    (STUCK, 0, 1, Fate::Waits),
    (STUCK, 0, 2, Fate::Waits),
    (STUCK, 1, 0, Fate::Waits),
    (STUCK, 1, 1, Fate::Waits),
    (STUCK, 1, 2, Fate::Waits),
];

/// The reply that nothing is found.
const NOT_FOUND: Reply = Reply {
    status: Status::NotFound,
    value: Value::Nothing,
};

/// The fate of an event of a file, which is a settled plan.
fn fate_in<R: Threads + Sync>(
    rt: &R,
    alloc: Global,
    file: &[u8],
    proc: u32,
    at: u32,
) -> Result<Fate, Fault> {
    let settled = settle(rt, alloc, file)?;
    let fate = settled.fate(Event {
        proc: Proc::new(proc),
        at,
    });
    drop(settled);
    Ok(fate)
}

/// A lookup that waits for an absent name waits; a get that is answered at once says that nothing is found;
/// an arrival is silent; an event that isn't live waits, and so does one that isn't of the plan.
#[test]
fn fates(rt: HostRuntime) -> Result<(), Fail> {
    let alloc = rt.alloc();
    for (file, proc, at, fate) in FATES {
        assert_eq!(rt; fate_in(&rt, alloc, file, proc, at)?, fate);
    }
    Ok(())
}
