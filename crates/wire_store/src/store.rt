//! The store of one process.

ghost use Rattle.std.specs.Prelude.{◌≡◌, ℕ, suc, ◌+◌, ◌<◌, ◌≤◌, [], ◌∷◌, ◌++◌, Option, Some, false, map, option_map};
ghost use Rattle.std.specs.Prelude.{IfOk, IsOkUnless};
ghost use Rattle.wire_types.specs.declared.CallAt.{CallAt as TheCall};
ghost use Rattle.wire_runs.specs.Plan as runs;
ghost use Rattle.wire_runs.specs.Puts.{own_put, stored_put};
ghost use Rattle.wire_store.specs.Kept.{store_by, last_put, last_stored, last_stored_before, seen};
ghost use Rattle.wire_store.specs.Told.{IsToldOf, seen_put};

use crate::chain::{Slot, last_before, last_stored, show_slot, store_all};
use crate::seen::Seen;
use std::alloc::Global;
use std::collections::HashMap;
use std::marker::Model;
use wire_types::{CallAt, Fault, Scope};

/// What one process has put and committed, for a fixed number of puts.
pub struct RankStore {
    slots: Vec<Slot>,
    committed: usize,
    newest: HashMap<u32, usize>,
    room: usize,
}

// By hand and not derived: so dropping one is a call, and the proof of a function that drops one doesn't take it apart.
impl Drop for RankStore {
    fn drop(self) {
        let RankStore {
            slots: _,
            committed: _,
            newest: _,
            room: _,
        } = self;
    }
}

impl Model for RankStore {
    ghost use Rattle.std.specs.Prelude.{ℕ, ◌+◌, ◌≤◌, map, nat_eq, vec_len, vec_capacity};
    ghost use Rattle.std.specs.HashMap.{get, spare};
    ghost use Rattle.wire_store.specs.Kept.{Kept};
    ghost use Rattle.wire_store.specs.Slots.{put_in, IsSlotIndex};

    ghost Value = { Kept };

    ghost view = { λ s. record { puts = map put_in s.slots.items; room = s.room } };

    ghost invariant = { λ s. IsSlotIndex s.slots.items s.committed (get nat_eq s.newest) × (vec_len s.slots + s.room ≤ vec_capacity s.slots)
        × (s.room ≤ spare s.newest) };
}

impl RankStore {
    /// An empty store with room for so many puts. The only error is `Fault::Memory`.
    pub fn new(alloc: Global, puts: usize) -> Result<RankStore, Fault>
        ensures ok { IfOk result (λ store. store ≡ record { puts = []; room = puts }) }
        ensures told { IfOk result (λ store. (kind_of : ℕ → Option runs.Kind) (call_of : ℕ → TheCall) → IsToldOf store kind_of call_of 0) }
        ensures memory { IsOkUnless result Fault.Memory }
    {
        Ok(RankStore {
            slots: Vec::with_capacity(alloc, puts)?,
            committed: 0,
            newest: HashMap::with_capacity(alloc, puts)?,
            room: puts,
        })
    }

    /// Takes a put: the number of its event among the owner's, its scope, its key and its call. It is
    /// held until the next commit. It takes no memory.
    pub fn put(&mut self, at: u32, scope: Scope, key: u32, call: CallAt)
        requires { 0 < self.old.room }
        ensures puts { self.new.puts ≡ self.old.puts ++ record { at = at; key = key; scope = scope; call = call; stored_by = None } ∷ [] }
        ensures told { (kind_of : ℕ → Option runs.Kind) (call_of : ℕ → TheCall) → kind_of at ≡ Some (runs.Put key scope) → call_of at ≡ call
            → IsToldOf self.old kind_of call_of at → IsToldOf self.new kind_of call_of (suc at) }
        ensures room { self.new.room + 1 ≡ self.old.room }
    {
        let newest = self.newest.get(&key).copied();
        let stored_before = last_stored(&self.slots, newest, self.committed);
        let number = self.slots.len();
        let slot = Slot {
            at,
            key,
            scope,
            call,
            stored_by: None,
            stored_before,
        };
        let pushed: Result<_, _> = self.slots.push(slot);
        pushed.unwrap();
        let inserted: Result<_, _> = self.newest.insert(key, number);
        inserted.unwrap();
        self.room -= 1;
    }

    /// Takes a commit, by the number of its event among the owner's: it stores all puts that no commit
    /// has stored before.
    pub fn commit(&mut self, at: u32)
        ensures puts { self.new.puts ≡ map (store_by at) self.old.puts }
        ensures told { (kind_of : ℕ → Option runs.Kind) (call_of : ℕ → TheCall) → kind_of at ≡ Some runs.Commit
            → IsToldOf self.old kind_of call_of at → IsToldOf self.new kind_of call_of (suc at) }
        ensures room { self.new.room ≡ self.old.room }
    {
        store_all(&mut self.slots[self.committed..], at);
        self.committed = self.slots.len();
    }

    /// What the owner itself sees under a key: its last put of it, committed or not.
    pub fn own(&self, key: u32) -> Option<CallAt>
        ensures told { (kind_of : ℕ → Option runs.Kind) (call_of : ℕ → TheCall) (n : ℕ) → IsToldOf self.now kind_of call_of n
            → result ≡ option_map call_of (own_put kind_of key n) }
        ensures kept { result ≡ option_map (λ put. put.call) (last_put key self.now.puts) }
    {
        match self.newest.get(&key) {
            Some(i) => Some(self.slots[*i].call),
            None => None,
        }
    }

    /// What a process that is, or isn't, on the owner's node sees under a key: the last put of it that a
    /// commit has stored.
    pub fn seen_from(&self, key: u32, same_node: bool) -> Seen
        ensures told { (kind_of : ℕ → Option runs.Kind) (call_of : ℕ → TheCall) (n : ℕ) → IsToldOf self.now kind_of call_of n
            → result ≡ seen_put kind_of call_of same_node (stored_put kind_of key n) }
        ensures kept { result ≡ seen same_node (last_stored key self.now.puts) }
    {
        let newest = self.newest.get(&key).copied();
        let last = last_stored(&self.slots, newest, self.committed);
        show_slot(&self.slots, last, same_node)
    }

    /// What a process of another node saw under a key before this event of the owner: the last put of it
    /// that a commit before the event has stored.
    pub fn as_of(&self, key: u32, event: u32) -> Seen
        ensures told { (kind_of : ℕ → Option runs.Kind) (call_of : ℕ → TheCall) (n : ℕ) → event ≤ n → IsToldOf self.now kind_of call_of n
            → result ≡ seen_put kind_of call_of false (stored_put kind_of key event) }
        ensures kept { result ≡ seen false (last_stored_before key event self.now.puts) }
    {
        let newest = self.newest.get(&key).copied();
        let stored = last_stored(&self.slots, newest, self.committed);
        let last = last_before(&self.slots, stored, event);
        show_slot(&self.slots, last, false)
    }
}
