//! The lowest process that is ready. What the processes below it wait for is noted.

ghost use Rattle.std.specs.Prelude.{◌≡◌, ◌<◌, false, option_map};
ghost use Rattle.wire_runs.specs.Plan.{process_count};
ghost use Rattle.wire_scripts.specs.Planned.{plan_of};
ghost use Rattle.wire_runs.specs.Step.{is_enabled};
ghost use Rattle.wire_runs.specs.PlainRun.{lowest};
ghost use Rattle.wire_core.specs.Course.{state_of};

use crate::running::Core;
use crate::waits::{Awaited, awaited_at};
use wire_types::Proc;

impl<'a> Core<'a> {
    /// Notes what a process that isn't ready waits for.
    pub(crate) fn note(&mut self, proc: Proc)
        requires within { proc.number < process_count (plan_of self.old.scripts) }
        requires waits { is_enabled (plan_of self.old.scripts) (state_of self.old) proc.number ≡ false }
        ensures { self.new ≡ self.old }
    {
        if self.waits.is_noted(proc) {
            return;
        }
        let awaited = match self.next_kind(proc) {
            Some(kind) => awaited_at(self.plan, self.fences, self.next_event(proc), kind),
            None => Awaited::Nothing,
        };
        self.waits.note(proc, awaited);
    }

    /// The lowest process that is ready. Notes what the processes below it wait for.
    pub(crate) fn next_lowest(&mut self) -> Option<Proc>
        ensures lowest { option_map (λ p. p.number) result
            ≡ lowest (plan_of self.old.scripts) (state_of self.old) (process_count (plan_of self.old.scripts)) }
        ensures same { self.new ≡ self.old }
    {
        for number in self.waits.lowest()..self.plan.process_count() {
            let proc = Proc::new(number);
            if self.ready(proc) {
                return Some(proc);
            }
            self.note(proc);
        }
        None
    }
}
