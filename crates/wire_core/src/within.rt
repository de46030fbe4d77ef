//! Runs in which each process takes so many events and no more.

ghost use Rattle.std.specs.Prelude.{◌≡◌, ◌<◌, ℕ, IsTrue, ◌↔◌, MatchOption};
ghost use Rattle.wire_runs.specs.Plan.{event_of, process_count};
ghost use Rattle.wire_runs.specs.State.{IsDone};
ghost use Rattle.wire_scripts.specs.Planned.{plan_of};
ghost use Rattle.wire_core.specs.Course.{plan_in, state_of};
ghost use Rattle.wire_core.specs.Within as spec;
ghost use Rattle.wire_core.specs.Within.{MayGo, RunsWithin};

use crate::running::Core;
use wire_types::{Event, Proc};

/// How many events a process may take by these limits: none where it has no limit.
fn limit_at(limits: &[u32], proc: Proc) -> u32
    ensures { result ≡ spec.limit_at limits.now proc.number }
{
    match limits.get(proc.index()) {
        Some(limit) => *limit,
        None => 0,
    }
}

impl<'a> Core<'a> {
    /// Whether an event has happened.
    pub fn is_done(&self, event: Event) -> bool
        ensures { IsTrue result ↔ IsDone (state_of self.now) (event_of event) }
    {
        event.at < self.done(event.proc)
    }

    /// Whether a process is ready and has taken fewer events than its limit. Notes what it waits for, where it
    /// isn't ready.
    fn may_go(&mut self, proc: Proc, limits: &[u32]) -> bool
        requires { proc.number < process_count (plan_of self.old.scripts) }
        ensures goes { IsTrue result ↔ MayGo (plan_in self.old) limits.now (state_of self.old) proc.number }
        ensures same { self.new ≡ self.old }
    {
        if limit_at(limits, proc) <= self.done(proc) {
            return false;
        }
        if self.ready(proc) {
            return true;
        }
        self.note(proc);
        false
    }

    /// The lowest process that is ready and has taken fewer events than its limit.
    fn next_within(&mut self, limits: &[u32]) -> Option<Proc>
        ensures next { MatchOption result ((p : ℕ) → MayGo (plan_in self.old) limits.now (state_of self.old) p → ⊥)
            (λ p. MayGo (plan_in self.old) limits.now (state_of self.old) p.number) }
        ensures same { self.new ≡ self.old }
    {
        for number in self.waits.lowest()..self.plan.process_count() {
            let proc = Proc::new(number);
            if self.may_go(proc, limits) {
                return Some(proc);
            }
        }
        None
    }

    /// Steps the lowest process that is ready and has taken fewer events than its limit, until there is none. The
    /// limits are those of the first processes, in process order. A process without a limit takes no step. No
    /// clause says which of the processes that may go takes the next step.
    pub fn run_within(&mut self, limits: &[u32])
        ensures { RunsWithin limits.now self.old self.new }
    {
        // The steps so far are an interleaving, which bounds those to come.
        let _ = self.history();
        'steps: while let Some(proc) = self.next_within(limits) {
            self.step(proc);
        }
    }
}
