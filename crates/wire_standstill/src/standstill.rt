//! A deadlock where a run stands, and the ranks that wait for no rank.

ghost use Rattle.std.specs.Prelude.{◌≡◌, ◌&&◌, ◌==◌, nat_lt, length, IfOk};
ghost use Rattle.wire_runs.specs.Plan.{event_count};
ghost use Rattle.wire_core.specs.Course.{plan_in, state_of};
ghost use Rattle.wire_circles.specs.Circles.{waited_by};
ghost use Rattle.wire_standstill.specs.Standstill as spec;
ghost use Rattle.wire_standstill.specs.Standstill.{IsStandstill};

use crate::whom::waits_of;
use std::alloc::{AllocError, Global};
use wire_circles::find_circle;
use wire_core::Core;
use wire_types::Proc;

/// A circle of ranks of which each waits for the next, and the last for the first: empty where there is none. And the
/// ranks that have a call left and wait for no rank, in their order.
#[derive(Drop)]
pub(crate) struct Standstill {
    pub(crate) circle: Vec<u32>,
    pub(crate) never: Vec<u32>,
}

/// Whether a rank has a call left.
fn has_call_left(core: &Core<'_>, proc: Proc) -> bool
    ensures { result ≡ nat_lt ((state_of core.now).done proc.number) (event_count (plan_in core.now) proc.number) }
{
    let at = core.next_event(proc).at;
    at < core.plan().event_count(proc)
}

/// Whether a rank has a call left and waits for no rank.
fn is_root(core: &Core<'_>, waits: &[Vec<u32>], number: u32) -> bool
    ensures { result ≡ spec.is_root (plan_in core.now) (state_of core.now) waits.now number }
{
    let proc = Proc::new(number);
    has_call_left(core, proc) && waits_for_nobody(waits, number)
}

/// Whether one waits for nobody, by the table.
fn waits_for_nobody(waits: &[Vec<u32>], number: u32) -> bool
    ensures { result ≡ (length (waited_by waits.now number) == 0) }
{
    match waits.get(number as usize) {
        Some(list) => list.is_empty(),
        None => true,
    }
}

/// The ranks that have a call left and wait for no rank.
fn roots_of(alloc: Global, core: &Core<'_>, waits: &[Vec<u32>]) -> Result<Vec<u32>, AllocError>
    ensures { IfOk result (λ roots. roots.items ≡ spec.roots (plan_in core.now) (state_of core.now) waits.now) }
{
    let mut roots = Vec::new(alloc);
    for number in 0..core.plan().process_count() {
        if is_root(core, waits, number) {
            roots.push(number)?;
        }
    }
    Ok(roots)
}

/// The ranks of a circle; none where there is none.
fn ranks_in(alloc: Global, circle: Option<Vec<u32>>) -> Vec<u32>
    ensures { result.items ≡ spec.circle_in circle }
{
    match circle {
        Some(circle) => circle,
        None => Vec::new(alloc),
    }
}

/// A deadlock where a core stands, if there is one there, and the ranks that have a call left and wait for no rank. Which
/// of several circles it is isn't promised.
pub(crate) fn find_standstill(alloc: Global, core: &Core<'_>) -> Result<Standstill, AllocError>
    ensures { IfOk result (λ it. IsStandstill (plan_in core.now) (state_of core.now) it.circle.items it.never.items) }
{
    let waits = waits_of(alloc, core)?;
    let circle = find_circle(alloc, waits.as_slice())?;
    let circle = ranks_in(alloc, circle);
    let never = roots_of(alloc, core, waits.as_slice())?;
    Ok(Standstill { circle, never })
}
