//! A plan with what the rules ask of it again and again.

ghost use Rattle.std.specs.Prelude.{◌≡◌, ℕ, false, IfOk, IsTrue};
ghost use Rattle.wire_runs.specs.Plan.{event_of};
ghost use Rattle.wire_runs.specs.Plan as runs;
ghost use Rattle.wire_runs.specs.Puts.{scope_of as scope_in};
ghost use Rattle.wire_plan.specs.Index.{IsFirstPut};
ghost use Rattle.wire_scripts.specs.Planned.{plan_of};
ghost use Rattle.wire_library_laws.specs.Portable.{Lacks, Lacked, IsThereFirst, IsFor};
ghost use Rattle.wire_portable.specs.Commits.{IsLastOf};
ghost use Rattle.wire_portable.specs.Judging.{NoRewrites, IsLiveStore, AreFor};

use crate::asked::ends_first;
use crate::commits::LiveCommits;
use std::alloc::{AllocError, Global};
use std::marker::Model;
use wire_happens_before::{HappensBefore, MarkedPlan};
use wire_plan::{Kind, Plan};
use wire_types::{Event, Proc, Scope};

/// A key that a call reads: its owner, and its number.
#[derive(Clone, Copy)]
pub(crate) struct Key {
    pub owner: Proc,
    pub key: u32,
}

/// A plan with its marks, and its live commits. It is seen as the plan.
#[derive(Drop)]
pub(crate) struct Judge<'a> {
    plan: &'a Plan,
    marks: &'a HappensBefore,
    commits: LiveCommits,
}

impl<'a> Model for Judge<'a> {
    ghost use Rattle.wire_scripts.specs.Scripts as spec;
    ghost use Rattle.wire_scripts.specs.Planned.{plan_of};
    ghost use Rattle.wire_happens_before.specs.Clocks.{AreMarks};
    ghost use Rattle.wire_portable.specs.Commits.{AreCommitRows};

    ghost Value = { spec.Scripts };

    ghost view = { λ j. j.plan.now };

    ghost invariant = { λ j. AreMarks (plan_of j.plan.now) j.marks.now × AreCommitRows (plan_of j.plan.now) j.commits };
}

/// Whether a put of this scope is for processes of the owner's node, or of other nodes.
fn admits(scope: Scope, near: bool) -> bool
    ensures { result ≡ runs.admits scope near }
{
    match scope {
        Scope::Global => true,
        Scope::Local => near,
        Scope::Remote => !near,
    }
}

/// The scope of a put.
fn scope_of(plan: &Plan, put: Event) -> Scope
    requires { (key : ℕ) × IsFirstPut (plan_of plan.now) (event_of put) key }
    ensures { result ≡ scope_in (plan_of plan.now) put.proc.number put.at }
{
    match plan.kind(put) {
        Kind::Put { scope, .. } => scope,
        _ => Scope::Global,
    }
}

impl<'a> Judge<'a> {
    /// Of a plan with its marks.
    pub(crate) fn of(alloc: Global, marked: &MarkedPlan<'a>) -> Result<Judge<'a>, AllocError>
        ensures { IfOk result (λ judge. judge ≡ marked.now) }
    {
        let commits = LiveCommits::of(alloc, marked)?;
        Ok(Judge {
            plan: marked.plan(),
            marks: marked.marks(),
            commits,
        })
    }

    /// The plan.
    pub(crate) fn plan(&self) -> &'a Plan
        ensures { result.now ≡ self.now }
    {
        self.plan
    }

    /// The plan with its marks.
    pub(crate) fn marked(&self) -> MarkedPlan<'a>
        ensures { result ≡ self.now }
    {
        self.marks.with(self.plan)
    }

    /// The last live commit of a key's owner after which the key isn't there.
    pub(crate) fn last_lacking(&self, asked: Key) -> Option<Event>
        ensures { IsLastOf (Lacks (plan_of self.now) asked.owner.number asked.key) result }
    {
        match self.plan.store_of(asked.owner, asked.key) {
            Some(store) => self.commits.last_below(asked.owner, store.at),
            None => self
                .commits
                .last_below(asked.owner, self.plan.event_count(asked.owner)),
        }
    }

    /// The live commit that stores a key.
    pub(crate) fn live_store(&self, asked: Key) -> Option<Event>
        ensures { IsLiveStore (plan_of self.now) asked.owner asked.key result }
    {
        let Some(store) = self.plan.store_of(asked.owner, asked.key) else {
            return None;
        };
        if self.marks.live(store) {
            Some(store)
        } else {
            None
        }
    }

    /// The last live commit of a key's owner before which the key isn't there: the one that stores the key, if it is
    /// live.
    pub(crate) fn last_lacked(&self, asked: Key) -> Option<Event>
        ensures { IsLastOf (Lacked (plan_of self.now) asked.owner.number asked.key) result }
    {
        match self.live_store(asked) {
            Some(store) => Some(store),
            None => self.last_lacking(asked),
        }
    }

    /// Whether a key is there when a call is made.
    pub(crate) fn is_there_first(&self, asked: Key, call: Event) -> bool
        ensures { IsTrue result → IsThereFirst (plan_of self.now) asked.owner.number asked.key (event_of call) }
    {
        let Some(store) = self.plan.store_of(asked.owner, asked.key) else {
            return false;
        };
        ends_first(&self.marked(), store, call)
    }

    /// Whether what the owner puts under a key is for processes of its node, or of other nodes.
    pub(crate) fn is_for(&self, asked: Key, near: bool) -> bool
        ensures { NoRewrites (plan_of self.now) → AreFor (plan_of self.now) asked.owner.number asked.key near result }
    {
        let Some(put) = self.plan.first_put(asked.owner, asked.key) else {
            return true;
        };
        admits(scope_of(self.plan, put), near)
    }

    /// Whether what comes under a key isn't for processes of the owner's node, or of other nodes.
    pub(crate) fn is_outside(&self, asked: Key, near: bool) -> bool
        ensures { result ≡ false → NoRewrites (plan_of self.now) → IsFor (plan_of self.now) asked.owner.number asked.key near }
    {
        if self.is_for(asked, near) {
            return false;
        }
        match self.live_store(asked) {
            Some(_) => true,
            None => false,
        }
    }
}
