//! Who hasn't arrived at a fence.

ghost use Rattle.std.specs.Prelude.{◌≡◌, ◌<◌, ◌≤◌, ◌∷◌, [], ◌++◌, ℕ, suc, length, filter, Some, OnOk, IfOk};
ghost use Rattle.std.specs.Prelude.{if◌then◌else◌};
ghost use Rattle.std.specs.Str.{bytes_eq as same_members};
ghost use Rattle.wire_runs.specs.Plan.{event_count, set_of};
ghost use Rattle.wire_runs.specs.Fences.{arrivals as arrivals_in, arrivals_with};
ghost use Rattle.wire_scripts.specs.Scripts.{numbers_of, set_at};
ghost use Rattle.wire_plan.specs.Kinds.{kind_of};
ghost use Rattle.wire_core.specs.Course.{plan_in, state_of};
ghost use Rattle.wire_explain.specs.Stops as spec;

use std::alloc::{AllocError, Global};
use wire_core::Core;
use wire_plan::{Kind, Plan};
use wire_types::{Event, Proc};

/// How many events of a rank are done.
pub(crate) fn done_of(core: &Core<'_>, proc: Proc) -> u32
    ensures done { result ≡ (state_of core.now).done proc.number }
    ensures within { result ≤ event_count (plan_in core.now) proc.number }
{
    // The steps so far are an interleaving, so that no more events are done than there are.
    let _ = core.history();
    let count = core.plan().event_count(proc);
    for at in 0..count {
        if !core.is_done(Event { proc, at }) {
            return at;
        }
    }
    count
}

/// Whether two numbers are those of the same set.
fn is_same_set(plan: &Plan, other: u32, set: u32) -> bool
    requires { set < length plan.now.sets }
    ensures { result ≡ same_members (set_of (set_at plan.now.sets other)) (set_of (set_at plan.now.sets set)) }
{
    let sets = plan.scripts().sets();
    if other < sets.len() {
        other == set
    } else {
        sets.members(set).is_empty()
    }
}

/// Whether an event of this kind is an arrival at a fence over a set.
fn is_arrival(plan: &Plan, kind: Kind, set: u32) -> bool
    requires { set < length plan.now.sets }
    ensures { (n : ℕ) → arrivals_with (set_of (set_at plan.now.sets set)) n (Some (kind_of plan.now.sets kind)) ≡ (if result then suc n else n) }
{
    match kind {
        Kind::Arrive { set: other, .. } => is_same_set(plan, other, set),
        _ => false,
    }
}

/// At how many fences over a set a rank has arrived.
fn arrivals(core: &Core<'_>, proc: Proc, set: u32) -> u32
    requires { set < length core.now.scripts.sets }
    ensures { result ≡ arrivals_in (plan_in core.now) proc.number (set_of (set_at core.now.scripts.sets set)) ((state_of core.now).done proc.number) }
{
    let plan = core.plan();
    let mut count = 0;
    for at in 0..done_of(core, proc) {
        if is_arrival(plan, plan.kind(Event { proc, at }), set) {
            count += 1;
        }
    }
    count
}

/// Adds a member that hasn't arrived at the fence of this number, from 1, over a set; none that has.
fn add_missing(
    missing: &mut Vec<Proc>,
    core: &Core<'_>,
    member: Proc,
    set: u32,
    number: u32,
) -> Result<(), AllocError>
    requires { set < length core.now.scripts.sets }
    ensures { OnOk result (numbers_of missing.new.items ≡ numbers_of missing.old.items
        ++ filter (spec.is_missing (plan_in core.now) (state_of core.now).done (set_of (set_at core.now.scripts.sets set)) number) (member.number ∷ [])) }
{
    if arrivals(core, member, set) < number {
        missing.push(member)?;
    }
    Ok(())
}

/// Those of these members that haven't arrived at the fence of this number, from 1, over a set.
fn missing_members(
    alloc: Global,
    core: &Core<'_>,
    members: &[Proc],
    set: u32,
    number: u32,
) -> Result<Vec<Proc>, AllocError>
    requires { set < length core.now.scripts.sets }
    ensures { IfOk result (λ missing. numbers_of missing.items
        ≡ filter (spec.is_missing (plan_in core.now) (state_of core.now).done (set_of (set_at core.now.scripts.sets set)) number) (numbers_of members.now)) }
{
    let mut missing = Vec::new(alloc);
    for member in members {
        add_missing(&mut missing, core, *member, set, number)?;
    }
    Ok(missing)
}

/// Those for whom a rank waits that has arrived at a fence over a set, and stands at its end.
pub(crate) fn missing_for(
    alloc: Global,
    core: &Core<'_>,
    proc: Proc,
    set: u32,
) -> Result<Vec<Proc>, AllocError>
    ensures { IfOk result (λ missing. numbers_of missing.items
        ≡ spec.missing_for (plan_in core.now) (state_of core.now) proc.number (set_of (set_at core.now.scripts.sets set))) }
{
    let sets = core.plan().scripts().sets();
    if set >= sets.len() {
        return Ok(Vec::new(alloc));
    }
    let number = arrivals(core, proc, set);
    missing_members(alloc, core, sets.members(set), set, number)
}
