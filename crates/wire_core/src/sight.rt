//! What gets see.

ghost use Rattle.std.specs.Prelude.{◌≡◌, ◌≢◌, ◌<◌, ◌≤◌, IfSome};
ghost use Rattle.wire_runs.specs.Plan.{process_count, node_of, same_node};
ghost use Rattle.wire_runs.specs.Puts.{own, stored};
ghost use Rattle.wire_scripts.specs.Planned.{plan_of};
ghost use Rattle.wire_runs.specs.Sight.{held, served, get_sees, for_others, get_now_sees, brought};
ghost use Rattle.wire_core.specs.Course.{plan_in, state_of};
ghost use Rattle.wire_core.specs.Seeing.{seen_as};
ghost use Rattle.wire_core.specs.Met.{stored_at};
ghost use Rattle.wire_core.specs.Keeping.{is_later as stands_later};

use crate::replies::{brought_of, is_shown};
use crate::running::Core;
use wire_store::Seen;
use wire_types::Proc;

/// Whether an arrival, where there is one, stands after so many events.
fn is_later(arrival: Option<u32>, count: Option<u32>) -> bool
    ensures { result ≡ stands_later arrival count }
{
    match (arrival, count) {
        (Some(at), Some(count)) => count < at,
        (Some(_), None) => true,
        (None, _) => false,
    }
}

impl<'a> Core<'a> {
    /// What a process sees of its own key.
    fn see_own(&self, proc: Proc, key: u32) -> Seen
        ensures { result ≡ seen_as (plan_of self.now.scripts) proc.number
            (held (own (plan_of self.now.scripts) proc.number key ((state_of self.now).done proc.number))) }
    {
        match self.ranks.get(proc.index()) {
            None => Seen::Nothing,
            Some(rank) => match rank.store.own(key) {
                Some(call) => Seen::Value(call),
                None => Seen::Nothing,
            },
        }
    }

    /// What a process sees of another's key.
    fn see_other(&self, reader: Proc, owner: Proc, key: u32) -> Seen
        requires { reader.number < process_count (plan_of self.now.scripts) }
        ensures { result ≡ seen_as (plan_of self.now.scripts) owner.number
            (served (plan_of self.now.scripts) owner.number (same_node (plan_of self.now.scripts) owner.number reader.number)
            (stored (plan_of self.now.scripts) owner.number key ((state_of self.now).done owner.number))) }
    {
        match self.ranks.get(owner.index()) {
            None => Seen::Nothing,
            Some(rank) => {
                let same_node = self.plan.node_of(owner) == self.plan.node_of(reader);
                rank.store.seen_from(key, same_node)
            }
        }
    }

    /// What the next event of a process sees of a key, as a get that waits.
    pub(crate) fn see_key(&self, reader: Proc, owner: Proc, key: u32) -> Seen
        requires { reader.number < process_count (plan_of self.now.scripts) }
        ensures { result ≡ seen_as (plan_of self.now.scripts) owner.number
            (get_sees (plan_of self.now.scripts) (state_of self.now).done reader.number ((state_of self.now).done reader.number) owner.number key) }
    {
        if reader == owner {
            return self.see_own(owner, key);
        }
        self.see_other(reader, owner, key)
    }

    /// What the next event of a process sees of a key, as a get that is answered at once.
    pub(crate) fn see_key_now(&self, reader: Proc, owner: Proc, key: u32) -> Seen
        requires { reader.number < process_count (plan_in self.now) }
        ensures { result ≡ seen_as (plan_in self.now) owner.number
            (get_now_sees (plan_in self.now) (state_of self.now) reader.number ((state_of self.now).done reader.number) owner.number key) }
    {
        if reader == owner {
            return self.see_own(owner, key);
        }
        if owner.index() >= self.ranks.len() {
            return Seen::Nothing;
        }
        if self.plan.node_of(owner) == self.plan.node_of(reader) {
            return self.see_other(reader, owner, key);
        }
        self.see_brought(owner, key, self.plan.node_of(reader))
    }

    /// What another node is shown of what an owner had stored under a key before an event of it.
    fn show_at(&self, owner: Proc, key: u32, at: Option<u32>) -> Seen
        requires there { owner.number < process_count (plan_in self.now) }
        requires done { IfSome at (λ n. n ≤ (state_of self.now).done owner.number) }
        ensures { result ≡ seen_as (plan_in self.now) owner.number
            (held (for_others (plan_in self.now) owner.number (stored_at (plan_in self.now) owner.number key at))) }
    {
        match at {
            None => Seen::Nothing,
            Some(at) => brought_of(self.ranks[owner.index()].store.as_of(key, at)),
        }
    }

    /// What has come of a process's key to another node: what fences have brought, or what gets have, where
    /// the plan keeps that and it is newer.
    fn see_brought(&self, owner: Proc, key: u32, node: u32) -> Seen
        requires there { owner.number < process_count (plan_in self.now) }
        requires away { node_of (plan_in self.now) owner.number ≢ node }
        ensures { result ≡ seen_as (plan_in self.now) owner.number (held (brought (plan_in self.now) (state_of self.now) owner.number key node)) }
    {
        let arrival = self.last_bringing(owner, node, self.done(owner));
        let count = self.keeping.count(owner, key, node);
        let by_fence = self.show_at(owner, key, arrival);
        if is_shown(by_fence) && is_later(arrival, count) {
            by_fence
        } else {
            self.show_at(owner, key, count)
        }
    }
}
