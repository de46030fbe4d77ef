//! Runs of events that wait for nothing but the event before them: each has the base of that event.

ghost use Rattle.std.specs.Prelude.{◌≡◌, ◌<◌, ◌≤◌, ◌↔◌, ℕ, List, Some, IsTrue, IfOk, OnOk, slice_get};
ghost use Rattle.std.specs.Bool.{OnTrue, OnFalse};
ghost use Rattle.wire_plan.specs.Kinds.{kind_of};
ghost use Rattle.wire_plan.specs.declared.kind.Kind.{Kind as CodeKind};
ghost use Rattle.wire_happens_before.specs.Meeting.{left_in, IsGrowing};
ghost use Rattle.wire_happens_before.specs.Following.{OnlyFollows};

use crate::joins::Growth;
use std::alloc::AllocError;
use wire_plan::Kind;
use wire_types::Proc;

/// Whether an event of this kind waits for nothing but the event before it, is never ruled out, and changes no name:
/// in every plan, whatever set the kind's number stands for.
fn only_follows(kind: &Kind) -> bool
    ensures { IsTrue result ↔ ((sets : List (List ℕ)) → OnlyFollows (kind_of sets kind.now)) }
{
    match kind {
        Kind::Put { .. } => true,
        Kind::Commit => true,
        Kind::Arrive { .. } => true,
        Kind::Leave { .. } => false,
        Kind::Get { .. } => false,
        Kind::GetNow { .. } => true,
        Kind::Publish { .. } => false,
        Kind::Lookup { .. } => true,
        Kind::LookupWait { .. } => false,
        Kind::Unpublish { .. } => false,
        Kind::UnpublishAll => false,
        Kind::Fixed(_) => true,
    }
}

/// Whether there is a kind at this place, of events that only follow the one before them.
fn follows_at(kinds: &[Kind], at: usize) -> bool
    ensures { IsTrue result ↔ ((k : CodeKind) × (slice_get kinds.now at ≡ Some k) × ((sets : List (List ℕ)) → OnlyFollows (kind_of sets k))) }
{
    match kinds.get(at) {
        Some(kind) => only_follows(kind),
        None => false,
    }
}

/// Marks the next events of a process as long as each only follows the one before it. Whether any did.
pub(crate) fn mark_followers(growth: &mut Growth<'_>, proc: Proc) -> Result<bool, AllocError>
    requires { IsGrowing growth.old }
    ensures growing { OnOk result (IsGrowing growth.new) }
    ensures plan { growth.new.plan.now ≡ growth.old.plan.now }
    ensures not_more { OnOk result (left_in growth.new ≤ left_in growth.old) }
    ensures falls { IfOk result (λ b. OnTrue b (left_in growth.new < left_in growth.old)) }
    ensures same { IfOk result (λ b. OnFalse b (growth.new.clocks.roots.items ≡ growth.old.clocks.roots.items)) }
{
    let plan = growth.plan;
    let kinds = plan.events(proc);
    let root = growth.clocks.last_root(proc);
    let mut moved = false;
    'events: while follows_at(kinds, growth.clocks.marked(proc)) {
        growth.clocks.push(proc, root)?;
        moved = true;
    }
    Ok(moved)
}
