//! The joined clocks of the arrivals at each fence, kept by the fence's number: those of a fence are joined
//! once, into one base.

ghost use Rattle.std.specs.Prelude.{◌≡◌, ◌<◌, ◌≤◌, ℕ, Some, length, map, IfOk, IfSome, OnOk, MatchOption, slice_get};
ghost use Rattle.std.specs.Bool.{OnTrue, OnFalse};
ghost use Rattle.wire_runs.specs.Plan.{event_of, event_count};
ghost use Rattle.wire_runs.specs.Plan as runs;
ghost use Rattle.wire_happens_before.specs.Marking.{AreBased, IsGrown};
ghost use Rattle.wire_happens_before.specs.Meeting.{AreMarked, IsJoined, IsMeeting, IsMeetingAt, AreAdded, AreOthersKept};
ghost use Rattle.wire_happens_before.specs.Meeting.{IsEndOf};
ghost use Rattle.wire_happens_before.specs.Meeting.{plan_in, IsGrowing};

use crate::clocks::Clocks;
use std::alloc::AllocError;
use wire_fence::{FenceId, Fences};
use wire_plan::{Kind, Plan, fence_of};
use wire_types::{Event, Proc};

/// How many of the arrivals at a fence, from the first on, are marked; and once all are, the root of the base
/// that is the join of their clocks.
#[derive(Drop)]
pub(crate) struct Meeting {
    pub count: usize,
    pub base: Option<u32>,
}

/// The arrival of a number.
fn arrival_at(arrivals: &[Event], k: usize) -> Event
    requires { k < length arrivals.now }
    ensures { slice_get arrivals.now k ≡ Some result }
{
    arrivals[k]
}

/// What is marked so far of a plan with these fences: the clocks of the marked events, and which arrivals have
/// met at each fence.
#[derive(Drop)]
pub(crate) struct Growth<'a> {
    pub plan: &'a Plan,
    pub fences: &'a Fences,
    pub clocks: Clocks,
    pub meetings: Vec<Meeting>,
}

impl Meeting {
    /// Counts further arrivals, as far as they are marked. Whether all of them are.
    fn count_on(&mut self, clocks: &Clocks, arrivals: &[Event]) -> bool
        requires { IsMeeting clocks.now (map event_of arrivals.now) self.old }
        ensures kept { IsMeeting clocks.now (map event_of arrivals.now) self.new }
        ensures all { OnTrue result (AreMarked clocks.now (map event_of arrivals.now) (length arrivals.now)) }
        ensures missing { OnFalse result (AreMarked clocks.now (map event_of arrivals.now) (length arrivals.now) → ⊥) }
    {
        'met: while self.count < arrivals.len() {
            if !clocks.is_marked(arrival_at(arrivals, self.count)) {
                return false;
            }
            self.count += 1;
        }
        true
    }

    /// The root of the join of the clocks of the arrivals, all of them marked.
    fn join_arrivals(&mut self, clocks: &mut Clocks, arrivals: &[Event]) -> Result<u32, AllocError>
        requires based { AreBased clocks.old }
        requires kept { IsMeeting clocks.old (map event_of arrivals.now) self.old }
        requires marked { AreMarked clocks.old (map event_of arrivals.now) (length arrivals.now) }
        ensures based { OnOk result (AreBased clocks.new) }
        ensures grown { OnOk result (IsGrown clocks.old clocks.new) }
        ensures kept { OnOk result (IsMeeting clocks.new (map event_of arrivals.now) self.new) }
        ensures joined { IfOk result (λ n. IsJoined clocks.new (map event_of arrivals.now) n) }
    {
        if let Some(root) = self.base {
            return Ok(root);
        }
        let root = clocks.join(arrivals)?;
        self.base = Some(root);
        Ok(root)
    }

    /// Counts further arrivals. The root of the join of their clocks, once all of them are marked.
    fn meet(&mut self, clocks: &mut Clocks, arrivals: &[Event]) -> Result<Option<u32>, AllocError>
        requires based { AreBased clocks.old }
        requires kept { IsMeeting clocks.old (map event_of arrivals.now) self.old }
        ensures based { OnOk result (AreBased clocks.new) }
        ensures grown { OnOk result (IsGrown clocks.old clocks.new) }
        ensures kept { OnOk result (IsMeeting clocks.new (map event_of arrivals.now) self.new) }
        ensures met { IfOk result (λ o. MatchOption o (AreMarked clocks.old (map event_of arrivals.now) (length arrivals.now) → ⊥)
            (λ n. IsJoined clocks.new (map event_of arrivals.now) n)) }
    {
        if !self.count_on(clocks, arrivals) {
            return Ok(None);
        }
        let root = self.join_arrivals(clocks, arrivals)?;
        Ok(Some(root))
    }
}

/// Adds meetings up to the one of a fence, where it isn't there: nobody is met.
fn add_meetings(meetings: &mut Vec<Meeting>, fence: FenceId) -> Result<(), AllocError>
    ensures there { OnOk result (fence.number < length meetings.new.items) }
    ensures kept { OnOk result (AreAdded meetings.old.items meetings.new.items) }
{
    'adding: while meetings.len() <= fence.number as usize {
        meetings.push(Meeting {
            count: 0,
            base: None,
        })?;
    }
    Ok(())
}

/// The root of the join of the clocks of the arrivals at a fence, once all of them are marked.
pub(crate) fn meet(
    clocks: &mut Clocks,
    meetings: &mut Vec<Meeting>,
    fence: FenceId,
    arrivals: &[Event],
) -> Result<Option<u32>, AllocError>
    requires based { AreBased clocks.old }
    requires kept { IsMeetingAt clocks.old meetings.old.items fence.number (map event_of arrivals.now) }
    ensures based { OnOk result (AreBased clocks.new) }
    ensures grown { OnOk result (IsGrown clocks.old clocks.new) }
    ensures kept { OnOk result (IsMeetingAt clocks.new meetings.new.items fence.number (map event_of arrivals.now)) }
    ensures others { OnOk result (AreOthersKept meetings.old.items meetings.new.items fence.number) }
    ensures met { IfOk result (λ o. MatchOption o (AreMarked clocks.old (map event_of arrivals.now) (length arrivals.now) → ⊥)
        (λ n. IsJoined clocks.new (map event_of arrivals.now) n)) }
{
    add_meetings(meetings, fence)?;
    meetings[fence.number as usize].meet(clocks, arrivals)
}

/// The process of the first arrival at a fence that isn't met, if there is one.
pub(crate) fn missing_at(meetings: &[Meeting], fence: FenceId, arrivals: &[Event]) -> Option<Proc>
    ensures { IfSome result (λ p. (k : ℕ) × (z : runs.Event) × (slice_get (map event_of arrivals.now) k ≡ Some z) × (z.proc ≡ p.number)) }
{
    let Some(meeting) = meetings.get(fence.number as usize) else {
        return None;
    };
    if meeting.count >= arrivals.len() {
        return None;
    }
    Some(arrival_at(arrivals, meeting.count).proc)
}

/// The fence whose end an event is, if it is one.
pub(crate) fn find_ended_fence(growth: &Growth<'_>, event: Event) -> Option<FenceId>
    requires growing { IsGrowing growth.now }
    requires there { event.at < event_count (plan_in growth.now) event.proc.number }
    ensures { IsEndOf growth.now.plan.now growth.now.fences.now (event_of event) result }
{
    match growth.plan.kind(event) {
        Kind::Leave { .. } => Some(fence_of(growth.plan, growth.fences, event)),
        _ => None,
    }
}
