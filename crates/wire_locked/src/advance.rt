//! The steps of one process, as far as it can go.

ghost use Rattle.std.specs.Prelude.{◌≡◌, false, replicate};
ghost use Rattle.wire_runs.specs.Step.{is_enabled};
ghost use Rattle.wire_core.specs.Course.{plan_in, state_of};
ghost use Rattle.wire_core.specs.Following.{Follows};

use wire_core::Core;
use wire_types::Proc;

/// Steps a process until it isn't ready, and answers how many steps that were. A process that isn't of
/// the plan is never ready. It takes no memory and can't fail.
pub fn advance_far(core: &mut Core<'_>, proc: Proc) -> usize
    ensures steps { Follows core.old (replicate result proc.number) core.new }
    ensures waits { is_enabled (plan_in core.new) (state_of core.new) proc.number ≡ false }
{
    let before = core.history().len();
    'steps: while core.ready(proc) {
        core.step(proc);
    }
    core.history().len() - before
}
