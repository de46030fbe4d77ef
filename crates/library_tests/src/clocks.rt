//! What the clock of an event tells.

use crate::workers::plan_of_file;
use std::alloc::Global;
use std::test::Fail;
use wire_happens_before::HappensBefore;
use wire_types::{Event, Fault, Proc};

/// A plan whose ranks meet between two publishes of one name.
const FENCED: &[u8] = b"\
rehearsal 1
node n0
node n1
job app
rank n0
publish x 1
fence all
rank n1
fence all
publish x 2
";

/// A plan whose ranks wait for each other.
const STUCK: &[u8] = b"\
rehearsal 1
node n0
node n1
job app
rank n0
get app:1 b
put global a 1
commit
rank n1
get app:0 a
put global b 2
commit
";

/// Events of these plans, by their process and their place in it, and their clocks.
const CLOCKS: [(&[u8], u32, u32, (u32, u32)); 7] = [
    (FENCED, 1, 2, (2, 3)),
    (STUCK, 0, 0, (0, 0)),
    (STUCK, 0, 1, (0, 0)),
    (STUCK, 0, 2, (0, 0)),
    (STUCK, 1, 0, (0, 0)),
    (STUCK, 1, 1, (0, 0)),
    (STUCK, 1, 2, (0, 0)),
];

/// The marks of a file's plan.
fn marks_of_file(alloc: Global, file: &[u8]) -> Result<HappensBefore, Fault> {
    let plan = plan_of_file(alloc, file)?;
    let marks = HappensBefore::of(alloc, &plan);
    drop(plan);
    marks
}

/// The clock of an event of a file: how many events of each of two processes are the event or before it.
fn clock_in(alloc: Global, file: &[u8], proc: u32, at: u32) -> Result<(u32, u32), Fault> {
    let marks = marks_of_file(alloc, file)?;
    let proc = Proc::new(proc);
    let event = Event { proc, at };
    let clock = (
        marks.clock(event, Proc::new(0)),
        marks.clock(event, Proc::new(1)),
    );
    drop(marks);
    Ok(clock)
}

/// A clock tells how many events of each process are an event or before it; of a call that is never reached
/// it is 0.
#[test]
fn clocks(rt: HostRuntime) -> Result<(), Fail> {
    let alloc = rt.alloc();
    for (file, proc, at, clock) in CLOCKS {
        assert_eq!(rt; clock_in(alloc, file, proc, at)?, clock);
    }
    Ok(())
}
