//! Where a rank stands: its call, and in words what it waits for there.

ghost use Rattle.std.specs.Prelude.{◌≡◌, ◌<◌, ◌++◌, Some, option_map, IfOk, OnOk};
ghost use Rattle.wire_runs.specs.Plan.{event_of, event_count};
ghost use Rattle.wire_runs.specs.State.{next_event};
ghost use Rattle.wire_core.specs.Course.{plan_in, state_of};
ghost use Rattle.wire_explain.specs.Stops as spec;

use crate::wait_words::push_wait;
use std::alloc::{AllocError, Global};
use wire_core::Core;
use wire_scripts::Scripts;
use wire_types::{CallAt, Event, Proc};
use wire_words::{push_call, verb_at};

/// The call at which a rank stands, and in words, behind a space, what it waits for there.
#[derive(Drop)]
pub struct Standing {
    pub call: CallAt,
    pub wait: Vec<u8>,
}

/// Appends a call, and its verb.
pub fn push_said_call(out: &mut Vec<u8>, scripts: &Scripts, place: CallAt) -> Result<(), AllocError>
    ensures { OnOk result (out.new.items ≡ out.old.items ++ spec.said_call scripts.now place) }
{
    push_call(out, scripts, place)?;
    out.extend_from_slice(b" ")?;
    out.extend_from_slice(verb_at(scripts, place).as_bytes())
}

/// Where a rank stands that has a next event.
fn standing_at(alloc: Global, core: &Core<'_>, event: Event) -> Result<Standing, AllocError>
    requires next { event_of event ≡ next_event (state_of core.now) event.proc.number }
    requires there { event.at < event_count (plan_in core.now) event.proc.number }
    ensures { IfOk result (λ it. Some (it.call, it.wait.items) ≡ spec.standing core.now.scripts (state_of core.now) event.proc.number) }
{
    let plan = core.plan();
    let mut wait = Vec::new(alloc);
    push_wait(alloc, &mut wait, core, event.proc, plan.kind(event))?;
    let call = plan.call_of(event);
    Ok(Standing { call, wait })
}

/// Where a rank stands; nowhere, where it is at its end.
pub fn find_standing(
    alloc: Global,
    core: &Core<'_>,
    proc: Proc,
) -> Result<Option<Standing>, AllocError>
    ensures { IfOk result (λ standing. option_map (λ it. (it.call, it.wait.items)) standing
        ≡ spec.standing core.now.scripts (state_of core.now) proc.number) }
{
    let at = core.next_event(proc).at;
    let event = Event { proc, at };
    if event.at < core.plan().event_count(proc) {
        Ok(Some(standing_at(alloc, core, event)?))
    } else {
        Ok(None)
    }
}
