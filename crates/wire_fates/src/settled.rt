//! Plans in which nothing is found.

ghost use Rattle.std.specs.Prelude.{◌≡◌, ◌≢◌, ◌↔◌, ◌<◌, ℕ, List, [], true, IfOk, IfErr, IsOk, IsTrue};
ghost use Rattle.wire_runs.specs.Plan as runs;
ghost use Rattle.wire_scripts.specs.Planned.{plan_of};
ghost use Rattle.wire_runs.specs.State.{State, start};
ghost use Rattle.wire_runs.specs.Step.{is_enabled, IsInterleaving, run, IsEnd, IsReachable};
ghost use Rattle.wire_runs.specs.Fate as runs_fate;
ghost use Rattle.wire_runs.specs.Fate.{HasFate, IsSoundCut};
ghost use Rattle.wire_runs.specs.Plan.{event_of, event_count};
ghost use Rattle.wire_runs.specs.Laws.{Commute, FatesHold, HasOneEnd};
ghost use Rattle.wire_runs.specs.Races.{IsSettled};
ghost use Rattle.wire_happens_before.specs.Clocks.{AreMarks};
ghost use Rattle.wire_findings.specs.Findings.{AreFindings};
ghost use Rattle.wire_fates.specs.Fates.{IsFateOf, TellsReply, TellsEnabled};
ghost use Rattle.wire_fates.specs.Waiting.{LiveAreDone, NoneWaitsForEver};

use crate::fate::{Fate, fate_of};
use crate::waiting::none_waits_for_ever;
use std::marker::Model;
use wire_findings::Finding;
use wire_happens_before::HappensBefore;
use wire_plan::Plan;
use wire_types::Event;

/// A plan in which nothing is found, with its marks.
pub struct Settled {
    plan: Plan,
    marks: HappensBefore,
}

// By hand and not derived: so dropping one is a call, and the proof of a function that drops one doesn't take it apart.
impl Drop for Settled {
    fn drop(self) {
        let Settled { plan: _, marks: _ } = self;
    }
}

impl Model for Settled {
    ghost use Rattle.wire_scripts.specs.Scripts as spec;
    ghost use Rattle.wire_scripts.specs.Planned.{plan_of};
    ghost use Rattle.wire_runs.specs.Races.{IsSettled};
    ghost use Rattle.wire_happens_before.specs.Clocks.{AreMarks};

    ghost Value = { spec.Scripts };

    ghost view = { λ s. s.plan };

    ghost invariant = { λ s. IsSettled (plan_of s.plan) × AreMarks (plan_of s.plan) s.marks };
}

/// A plan in which something is found, with its marks and what is found: all that was handed in.
#[derive(Drop)]
pub struct Unsettled {
    pub plan: Plan,
    pub marks: HappensBefore,
    pub findings: Vec<Finding>,
}

impl Settled {
    /// The plan as a settled one, where the list of its findings is empty; else all is given back.
    pub fn try_new(
        plan: Plan,
        marks: HappensBefore,
        findings: Vec<Finding>,
    ) -> Result<Settled, Unsettled>
        requires marks { AreMarks (plan_of plan) marks }
        requires findings { AreFindings plan findings.items }
        ensures variant { IsOk result ↔ (findings.items ≡ []) }
        ensures settled { IsOk result ↔ IsSettled (plan_of plan) }
        ensures kept { IfOk result (λ s. s ≡ plan) }
        ensures given_back { IfErr result (λ u. (u.plan ≡ plan) × (u.marks ≡ marks) × (u.findings ≡ findings)) }
    {
        if !findings.is_empty() {
            return Err(Unsettled {
                plan,
                marks,
                findings,
            });
        }
        Ok(Settled { plan, marks })
    }

    /// The plan that was handed in.
    pub fn plan(&self) -> &Plan
        ensures same { result.now ≡ self.now }
        ensures settled { IsSettled (plan_of result.now) }
    {
        &self.plan
    }

    /// The fate of an event: what it does once its sources are done. It is `Waits` for an
    /// event that isn't live, or isn't of the plan, and for a `lookup-wait` whose name is absent after
    /// the calls before it; `Silent` for the arrival at a fence; else the reply that its call gets. In a
    /// state that a run can reach, each reply is the fate of its event, and a process is enabled exactly
    /// where the sources of its next event are done and the fate of that event isn't `Waits`. Takes no
    /// memory, and can't fail.
    pub fn fate(&self, event: Event) -> Fate
        ensures fate { IsFateOf (plan_of self.now) (event_of event) result }
        ensures waits { (result ≡ Fate.Waits) ↔ HasFate (plan_of self.now) (event_of event) runs_fate.Waits }
        ensures there { result ≢ Fate.Waits → event.at < event_count (plan_of self.now) event.proc.number }
        ensures reply { TellsReply (plan_of self.now) (event_of event) result }
        ensures enabled { TellsEnabled (plan_of self.now) (event_of event) result }
    {
        fate_of(&self.marks.with(&self.plan), event)
    }

    /// Whether no live event waits for ever. Only a `lookup-wait` whose name is absent after the calls before it does.
    /// Where none does, `live_are_done` says what every run comes to.
    pub fn none_waits_for_ever(&self) -> bool
        ensures { IsTrue result ↔ NoneWaitsForEver (plan_of self.now) }
    {
        none_waits_for_ever(&self.marks.with(&self.plan))
    }
}

/// The laws of a settled plan. Each is the contract of a function that does nothing: its body only
/// names the field whose facts the law rests on.
impl Settled {
    /// Two processes that are both enabled in a state that a run can reach don't disturb each other: each
    /// stays enabled after the other's step, and both orders lead to the same state.
    pub fn enabled_commute(&self)
        ensures { let plan = plan_of self.now in (s : State) (p q : ℕ) → IsReachable plan s → p ≢ q →
            is_enabled plan s p ≡ true → is_enabled plan s q ≡ true →
            Commute plan s p q }
    {
        let _ = &self.plan;
    }

    /// Every interleaving that can't go on ends in one state, with the same replies, the same names and
    /// the same processes waiting: that of the plain run.
    pub fn one_end(&self)
        ensures one { let plan = plan_of self.now in (v w : List ℕ) → IsInterleaving plan start v →
            IsInterleaving plan start w → IsEnd plan (run plan v) → IsEnd plan (run plan w) → run plan v ≡ run plan w }
        ensures plain { HasOneEnd (plan_of self.now) }
    {
        let _ = &self.plan;
    }

    /// Each event has exactly one fate: its reply, or that it waits.
    pub fn has_fates(&self)
        ensures some { (y : runs.Event) → (fate : runs_fate.Fate) × HasFate (plan_of self.now) y fate }
        ensures one { let plan = plan_of self.now in (y : runs.Event) (a b : runs_fate.Fate) → HasFate plan y a → HasFate plan y b → a ≡ b }
    {
        let _ = &self.plan;
    }

    /// In a state that a run can reach, each reply is the fate of its event, and fates tell who is
    /// enabled.
    pub fn fates_tell(&self)
        ensures { let plan = plan_of self.now in (s : State) → IsReachable plan s → FatesHold plan s }
    {
        let _ = &self.plan;
    }

    /// The cut of a state that a run can reach is sound: it has the sources of each of its events, and none
    /// of them waits. And a run can reach each sound cut.
    pub fn sound_is_reached(&self)
        ensures sound { let plan = plan_of self.now in (s : State) → IsReachable plan s → IsSoundCut plan s.done }
        ensures reached { let plan = plan_of self.now in (cut : ℕ → ℕ) → IsSoundCut plan cut →
            (s : State) × IsReachable plan s × ((p : ℕ) → s.done p ≡ cut p) }
    {
        let _ = &self.plan;
    }

    /// Where no live event waits for ever, every interleaving that can't go on has done the live events, and no
    /// others.
    pub fn live_are_done(&self)
        ensures { NoneWaitsForEver (plan_of self.now) → LiveAreDone (plan_of self.now) }
    {
        let _ = &self.plan;
    }
}
