//! The order in which processes are looked at: each is followed by the one that it waits for. The marks are
//! the same in any order.

ghost use Rattle.std.specs.Prelude.{◌≡◌, ◌++◌, ◌∷◌, [], IfOk, IfSome};
ghost use Rattle.wire_runs.specs.Plan as runs;
ghost use Rattle.wire_runs.specs.Order.{Edge};
ghost use Rattle.wire_happens_before.specs.Marking.{next_of};
ghost use Rattle.wire_happens_before.specs.Meeting.{plan_in, IsGrowing};
ghost use Rattle.std.specs.Bool.{OnTrue, OnFalse};

use crate::joins::{Growth, find_ended_fence, missing_at};
use std::alloc::{AllocError, Global};
use wire_types::{Event, Proc};

/// Processes in the order in which they were looked at, each once.
#[derive(Drop)]
pub(crate) struct Way {
    pub procs: Vec<Proc>,
    seen: Vec<bool>,
}

impl Way {
    /// No process, of so many.
    pub(crate) fn new(alloc: Global, count: usize) -> Result<Way, AllocError>
        ensures { IfOk result (λ way. way.procs.items ≡ []) }
    {
        let procs = Vec::with_capacity(alloc, count)?;
        let seen = vec![in alloc; false; count]?;
        Ok(Way { procs, seen })
    }

    /// Adds a process, unless it is there. Whether it was added.
    pub(crate) fn take(&mut self, proc: Proc) -> Result<bool, AllocError>
        ensures added { IfOk result (λ b. OnTrue b (self.new.procs.items ≡ self.old.procs.items ++ proc ∷ [])) }
        ensures same { IfOk result (λ b. OnFalse b (self.new.procs.items ≡ self.old.procs.items)) }
    {
        let index = proc.index();
        if index >= self.seen.len() || self.seen[index] {
            return Ok(false);
        }
        self.seen[index] = true;
        self.procs.push(proc)?;
        Ok(true)
    }
}

/// A process whose event the next event of a process waits for, if there is one: of the event that is awaited,
/// or of an arrival at the fence that it ends.
pub(crate) fn waits_for(growth: &Growth<'_>, proc: Proc) -> Option<Proc>
    requires { IsGrowing growth.now }
    ensures { IfSome result (λ q. (z : runs.Event) × Edge (plan_in growth.now) z (next_of growth.now.clocks proc.number) × (z.proc ≡ q.number)) }
{
    let plan = growth.plan;
    let at = growth.clocks.marked(proc);
    if at >= plan.event_count(proc) as usize {
        return None;
    }
    let event = Event {
        proc,
        at: at as u32,
    };
    let sources = plan.sources(event);
    if let Some(awaited) = sources.awaited {
        return Some(awaited.proc);
    }
    let Some(fence) = find_ended_fence(growth, event) else {
        return None;
    };
    missing_at(&growth.meetings, fence, sources.arrivals)
}
