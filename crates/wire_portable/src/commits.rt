//! The commits of each process that come in some run.

ghost use Rattle.std.specs.Prelude.{◌≡◌, ◌<◌, ◌≤◌, ◌↔◌, ℕ, Some, [], map, length, nat_lt, IfOk, IsTrue, slice_get, slice_index_or};
ghost use Rattle.wire_runs.specs.Plan.{event_of, event_count};
ghost use Rattle.wire_runs.specs.Plan as runs;
ghost use Rattle.wire_scripts.specs.Planned.{plan_of};
ghost use Rattle.wire_portable.specs.Commits.{IsLiveCommit, AreCommitRows, AreCommitsOf, IsLastOf, IsCommitBelow, AreOfOneRising};

use std::alloc::{AllocError, Global};
use std::marker::Model;
use wire_happens_before::MarkedPlan;
use wire_plan::Kind;
use wire_types::{Event, Proc};

/// The live commits of each process, in their order.
pub(crate) struct LiveCommits {
    rows: Vec<Vec<Event>>,
}

// By hand and not derived: so dropping one is a call, and the proof of a function that drops one doesn't take it apart.
impl Drop for LiveCommits {
    fn drop(self) {
        let LiveCommits { rows: _ } = self;
    }
}

impl Model for LiveCommits {
    ghost use Rattle.std.specs.Prelude.{List, map};
    ghost use Rattle.wire_types.specs.declared.Event.{Event as CodeEvent};

    ghost Value = { List (List CodeEvent) };

    ghost view = { λ c. map (λ row. row.items) c.rows.items };
}

/// Whether an event of the plan is a live commit.
fn is_live_commit(marked: &MarkedPlan<'_>, event: Event) -> bool
    requires { event.at < event_count (plan_of marked.now) event.proc.number }
    ensures { IsTrue result ↔ IsLiveCommit (plan_of marked.now) event.proc.number (event_of event) }
{
    match marked.plan().kind(event) {
        Kind::Commit => marked.live(event),
        _ => false,
    }
}

/// The live commits of a process.
fn row_of(alloc: Global, marked: &MarkedPlan<'_>, proc: Proc) -> Result<Vec<Event>, AllocError>
    ensures { IfOk result (λ row. AreCommitsOf (plan_of marked.now) proc.number (map event_of row.items)) }
{
    let mut row = Vec::new(alloc);
    for at in 0..marked.plan().event_count(proc) {
        let event = Event { proc, at };
        if is_live_commit(marked, event) {
            row.push(event)?;
        }
    }
    Ok(row)
}

/// The rows of all processes.
fn all_rows(alloc: Global, marked: &MarkedPlan<'_>) -> Result<Vec<Vec<Event>>, AllocError>
    ensures { IfOk result (λ rows. AreCommitRows (plan_of marked.now) (map (λ row. row.items) rows.items)) }
{
    let mut rows = Vec::new(alloc);
    for number in 0..marked.plan().process_count() {
        let row = row_of(alloc, marked, Proc { number })?;
        rows.push(row)?;
    }
    Ok(rows)
}

impl LiveCommits {
    /// Those of a plan.
    pub(crate) fn of(alloc: Global, marked: &MarkedPlan<'_>) -> Result<LiveCommits, AllocError>
        ensures { IfOk result (λ table. AreCommitRows (plan_of marked.now) table) }
    {
        let rows = all_rows(alloc, marked)?;
        Ok(LiveCommits { rows })
    }

    /// Those of a process.
    fn row(&self, proc: Proc) -> &[Event]
        ensures { result.now ≡ slice_index_or self.now proc.number [] }
    {
        match self.rows.get(proc.index()) {
            Some(row) => row.as_slice(),
            None => &[],
        }
    }

    /// The last of a process's live commits before its event of this number.
    pub(crate) fn last_below(&self, proc: Proc, end: u32) -> Option<Event>
        ensures { (plan : runs.Plan) → AreCommitRows plan self.now → IsLastOf (IsCommitBelow plan proc.number end) result }
    {
        last_in(self.row(proc), end)
    }
}

/// How many of a process's events, in their order, stand before its event of this number.
fn count_below(row: &[Event], end: u32) -> usize
    ensures within { result ≤ length row.now }
    ensures exactly { (p : ℕ) → AreOfOneRising p (map event_of row.now) → (k : ℕ) (x : runs.Event) → slice_get (map event_of row.now) k ≡ Some x →
        nat_lt x.at end ≡ nat_lt k result }
{
    row.partition_point(|x| x.at < end)
}

/// The last of a process's live commits, in their order, before its event of this number.
fn last_in(row: &[Event], end: u32) -> Option<Event>
    ensures { (plan : runs.Plan) (p : ℕ) → AreCommitsOf plan p (map event_of row.now) → IsLastOf (IsCommitBelow plan p end) result }
{
    let count = count_below(row, end);
    if count == 0 {
        return None;
    }
    Some(row[count - 1])
}
