//! What gets have brought to nodes, where the plan keeps it.

ghost use Rattle.std.specs.Prelude.{◌≡◌, ◌+◌, ◌<◌, ◌≤◌, ℕ, true, Some, None, IfOk, IfErr, IfSome};
ghost use Rattle.std.specs.HashMap.{spare};
ghost use Rattle.wire_runs.specs.Plan.{event_total};
ghost use Rattle.wire_scripts.specs.Planned.{plan_of};
ghost use Rattle.wire_plan.specs.Kinds.{kind_of};
ghost use Rattle.wire_runs.specs.State.{next_kind};
ghost use Rattle.wire_runs.specs.Plan as runs;
ghost use Rattle.wire_core.specs.Course.{state_of, plan_in};
ghost use Rattle.wire_core.specs.Keeping.{count_in, count_after, IsGain};

use crate::running::Core;
use std::alloc::Global;
use std::collections::HashMap;
use wire_plan::{Kind, Plan};
use wire_store::Seen;
use wire_types::{Fault, Proc};

/// What a get brings to a node: a key of its owner, so many of whose events are done.
#[derive(Clone, Copy)]
pub(crate) struct Gain {
    pub owner: Proc,
    pub key: u32,
    pub node: u32,
    pub done: u32,
}

/// For each owner, key and node: how many events of the owner were done when a get last brought the key
/// to the node.
pub(crate) struct Keeping {
    counts: HashMap<(u32, u32, u32), u32>,
}

// By hand and not derived: so dropping one is a call, and the proof of a function that drops one doesn't take it apart.
impl Drop for Keeping {
    fn drop(self) {
        let Keeping { counts: _ } = self;
    }
}

/// How many events may bring something that is kept: none where the plan doesn't keep it.
fn kept_events(plan: &Plan) -> usize
    ensures { plan.now.keeps ≡ true → result ≡ event_total (plan_of plan.now) }
{
    if plan.scripts().keeps() {
        plan.event_total()
    } else {
        0
    }
}

impl Keeping {
    /// Nothing was brought yet. There is room for all that the events of a plan bring.
    pub fn new(alloc: Global, plan: &Plan) -> Result<Keeping, Fault>
        ensures none { IfOk result (λ keeping. (p key node : ℕ) → count_in keeping p key node ≡ None) }
        ensures room { IfOk result (λ keeping. plan.now.keeps ≡ true → event_total (plan_of plan.now) ≤ spare keeping.counts) }
        ensures err { IfErr result (λ e. e ≡ Fault.Memory) }
    {
        Ok(Keeping {
            counts: HashMap::with_capacity(alloc, kept_events(plan))?,
        })
    }

    /// Notes what a get has brought, if it has brought something. It takes no memory.
    pub fn note(&mut self, gain: Option<Gain>)
        requires { IfSome gain (λ _. 0 < spare self.old.counts) }
        ensures counts { (p key node : ℕ) → count_in self.new p key node ≡ count_after gain p key node (count_in self.old p key node) }
        ensures room { spare self.old.counts ≤ spare self.new.counts + 1 }
    {
        if let Some(gain) = gain {
            let asked = (gain.owner.number, gain.key, gain.node);
            let inserted: Result<_, _> = self.counts.insert(asked, gain.done);
            inserted.unwrap();
        }
    }

    /// How many events of the owner were done when a get last brought its key to a node, if one has.
    pub fn count(&self, owner: Proc, key: u32, node: u32) -> Option<u32>
        ensures { result ≡ count_in self.now owner.number key node }
    {
        self.counts.get(&(owner.number, key, node)).copied()
    }
}

impl<'a> Core<'a> {
    /// What the next event of a process brings to its node, where it is a get of this key.
    fn find_gain(&self, proc: Proc, owner: Proc, key: u32) -> Option<Gain>
        requires keeps { self.now.scripts.keeps ≡ true }
        requires is { next_kind (plan_in self.now) (state_of self.now) proc.number ≡ Some (runs.Get owner.number key) }
        ensures { IsGain (plan_in self.now) (state_of self.now) proc.number result }
    {
        match self.see_key(proc, owner, key) {
            Seen::Value(_) => Some(Gain {
                owner,
                key,
                node: self.plan.node_of(proc),
                done: self.done(owner),
            }),
            Seen::Outside | Seen::Nothing => None,
        }
    }

    /// What the next event of a process, which is of this kind, brings to its node, where the plan keeps it.
    pub(crate) fn gain_of(&self, proc: Proc, kind: Kind) -> Option<Gain>
        requires { next_kind (plan_in self.now) (state_of self.now) proc.number ≡ Some (kind_of self.now.scripts.sets kind) }
        ensures { IsGain (plan_in self.now) (state_of self.now) proc.number result }
    {
        if !self.plan.scripts().keeps() {
            return None;
        }
        match kind {
            Kind::Get { owner, key } => self.find_gain(proc, owner, key),
            _ => None,
        }
    }
}
