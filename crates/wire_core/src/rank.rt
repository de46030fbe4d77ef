//! What one process has done.

ghost use Rattle.std.specs.Prelude.{◌≡◌, ◌+◌, ◌<◌, ◌^◌, ◌++◌, [], ℕ, List, Some, true, length, map, count_by, vec_len};
ghost use Rattle.std.specs.Prelude.{vec_capacity, IfOk, IfErr};
ghost use Rattle.std.specs.Prelude.{if◌then◌else◌};
ghost use Rattle.wire_store.specs.Kept.{kept_with};
ghost use Rattle.wire_plan.specs.Kinds.{kind_of};
ghost use Rattle.wire_core.specs.Puts.{is_put as is_put_event};
ghost use Rattle.wire_core.specs.Seeing.{replies_in};

use std::alloc::Global;
use wire_plan::Kind;
use wire_store::RankStore;
use wire_types::{CallAt, Fault, Reply};

/// What one process has done: how many events, what it has put and committed, and the replies to its calls.
pub(crate) struct Rank {
    pub done: u32,
    pub store: RankStore,
    pub replies: Vec<Reply>,
}

// By hand and not derived: so dropping one is a call, and the proof of a function that drops one doesn't take it apart.
impl Drop for Rank {
    fn drop(self) {
        let Rank {
            done: _,
            store: _,
            replies: _,
        } = self;
    }
}

/// Whether an event is a put.
fn is_put(kind: Kind) -> bool
    ensures { (sets : List (List ℕ)) → result ≡ is_put_event (kind_of sets kind) }
{
    matches!(kind, Kind::Put { .. })
}

/// How many of these events are puts.
fn put_total(kinds: &[Kind]) -> usize
    ensures { (sets : List (List ℕ)) → result ≡ count_by is_put_event (map (kind_of sets) kinds.now) }
{
    kinds.iter().filter(|kind| is_put(**kind)).count()
}

impl Rank {
    /// A process that hasn't begun, with room for all its puts and replies.
    pub fn new(alloc: Global, kinds: &[Kind]) -> Result<Rank, Fault>
        ensures done { IfOk result (λ rank. rank.done ≡ 0) }
        ensures puts { IfOk result (λ rank. rank.store.puts ≡ []) }
        ensures room { (sets : List (List ℕ)) → IfOk result (λ rank. rank.store.room ≡ count_by is_put_event (map (kind_of sets) kinds.now)) }
        ensures replies { IfOk result (λ rank. rank.replies.items ≡ []) }
        ensures space { IfOk result (λ rank. vec_capacity rank.replies ≡ length kinds.now) }
        ensures err { IfErr result (λ e. e ≡ Fault.Memory) }
    {
        Ok(Rank {
            done: 0,
            store: RankStore::new(alloc, put_total(kinds))?,
            replies: Vec::with_capacity(alloc, kinds.len())?,
        })
    }

    /// Takes one event, of this call, with the reply to it, if it gives one.
    pub fn advance(&mut self, kind: Kind, call: CallAt, reply: Option<Reply>)
        requires number { self.old.done + 1 < 2 ^ 32 }
        requires room { (sets : List (List ℕ)) → is_put_event (kind_of sets kind) ≡ true → 0 < self.old.store.room }
        requires space { vec_len self.old.replies < vec_capacity self.old.replies }
        ensures done { self.new.done ≡ self.old.done + 1 }
        ensures puts { (sets : List (List ℕ)) → self.new.store.puts ≡ kept_with self.old.done call self.old.store.puts (Some (kind_of sets kind)) }
        ensures room { (sets : List (List ℕ)) → self.new.store.room + (if is_put_event (kind_of sets kind) then 1 else 0) ≡ self.old.store.room }
        ensures replies { self.new.replies.items ≡ self.old.replies.items ++ replies_in reply }
        ensures space { vec_capacity self.new.replies ≡ vec_capacity self.old.replies }
    {
        match kind {
            Kind::Put { scope, key } => self.store.put(self.done, scope, key, call),
            Kind::Commit => self.store.commit(self.done),
            _ => {}
        }
        if let Some(reply) = reply {
            self.replies.push_reserved(reply);
        }
        self.done += 1;
    }
}
