//! What the script of a process says of the keys that it puts.

ghost use Rattle.std.specs.BTreeMap.{get};
ghost use Rattle.std.specs.Ordering.{nat_cmp};
ghost use Rattle.std.specs.Prelude.{◌≡◌, ◌↔◌, ◌||◌, ◌+◌, ◌<◌, ◌^◌, ℕ, List, Option, Some, suc, false, is_some, nat_le};
ghost use Rattle.std.specs.Prelude.{IfOk, OnOk, IsTrue, MatchOption};
ghost use Rattle.wire_runs.specs.Plan.{Plan, event_of, kind_at, event_count, admits};
ghost use Rattle.wire_runs.specs.Plan as runs;
ghost use Rattle.wire_runs.specs.Puts.{own, stored, put_count};
ghost use Rattle.wire_scripts.specs.Planned.{plan_of};
ghost use Rattle.wire_plan.specs.Kinds.{kind_of};
ghost use Rattle.wire_runs.specs.Order.{Stores};
ghost use Rattle.wire_runs.specs.Races.{IsPutOnce};
ghost use Rattle.wire_plan.specs.Index.{IsFirstPut, IsSent};
ghost use Rattle.wire_plan.specs.Keys.{puts_in, row_in, row_at, AreRowsFrom, IsKeyRow, IsStore, AreKeysOf};
ghost use Rattle.wire_plan.specs.Bringing.{IsSentAfter};

use crate::events::Events;
use crate::key_rows::{KeyRow, KeyRows};
use crate::kind::Kind;
use std::alloc::{AllocError, Global};
use std::collections::BTreeMap;
use wire_types::{Event, Proc, Scope};

/// What the events of a process from some number on say of each key, and the first commit among
/// them.
#[derive(Drop)]
struct Scan {
    rows: BTreeMap<u32, KeyRow>,
    commit: Option<u32>,
}

/// The row of a key that is put at an event before all that its row tells of.
fn row_before(row: Option<KeyRow>, first: u32, scope: Scope, store: Option<u32>) -> KeyRow
    requires { puts_in row + 1 < 2 ^ 32 }
    ensures { result ≡ record { puts = puts_in row + 1; first = first; scope = scope; store = store } }
{
    let later = match row {
        Some(row) => row.puts,
        None => 0,
    };
    KeyRow {
        puts: later + 1,
        first,
        scope,
        store,
    }
}

impl Scan {
    /// Takes the event before those that were taken.
    fn take(&mut self, kind: Kind, at: u32) -> Result<(), AllocError>
        requires { (key : ℕ) → puts_in (get nat_cmp self.old.rows key) + 1 < 2 ^ 32 }
        ensures { OnOk result ((events : ℕ → Option runs.Kind) (sets : List (List ℕ)) (end : ℕ) →
            events at ≡ Some (kind_of sets kind) → at < end →
            AreRowsFrom events (suc at) end (get nat_cmp self.old.rows) self.old.commit →
            AreRowsFrom events at end (get nat_cmp self.new.rows) self.new.commit) }
    {
        match kind {
            Kind::Put { scope, key } => {
                let row = row_before(self.rows.get(&key).copied(), at, scope, self.commit);
                self.rows.insert(key, row)?;
            }
            Kind::Commit => self.commit = Some(at),
            _ => {}
        }
        Ok(())
    }
}

/// What the events of a process say of each key that it puts.
fn rows_of(alloc: Global, events: &Events, proc: Proc) -> Result<KeyRows, AllocError>
    ensures { IfOk result (λ rows. (key : ℕ) → IsKeyRow (plan_of events.now) proc.number key (row_in (Some rows) key)) }
{
    let mut scan = Scan {
        rows: BTreeMap::new(alloc),
        commit: None,
    };
    for at in (0..events.event_count(proc)).rev() {
        scan.take(events.kind(Event { proc, at }), at)?;
    }
    KeyRows::of(alloc, &scan.rows)
}

/// What each process's script says of the keys that it puts.
pub(crate) struct KeyTable {
    rows: Vec<KeyRows>,
}

// By hand and not derived: so dropping one is a call, and the proof of a function that drops one doesn't take it apart.
impl Drop for KeyTable {
    fn drop(self) {
        let KeyTable { rows: _ } = self;
    }
}

/// Whether a put of this scope is for processes of other nodes (PMIx Standard 5.0, the scope of put
/// data).
fn is_for_others(scope: Scope) -> bool
    ensures { result ≡ admits scope false }
{
    match scope {
        Scope::Local => false,
        Scope::Remote | Scope::Global => true,
    }
}

impl KeyTable {
    /// The table of these events. The one error is that memory ran out.
    pub(crate) fn of(alloc: Global, events: &Events) -> Result<KeyTable, AllocError>
        ensures { IfOk result (λ table. AreKeysOf (plan_of events.now) table) }
    {
        let mut rows = Vec::with_capacity(alloc, events.process_count() as usize)?;
        for number in 0..events.process_count() {
            rows.push(rows_of(alloc, events, Proc { number })?)?;
        }
        Ok(KeyTable { rows })
    }

    /// What a process's script says of a key; `None` where it never puts the key, or isn't of the
    /// plan.
    pub(crate) fn row(&self, owner: Proc, key: u32) -> Option<KeyRow>
        ensures at { result ≡ row_at self.now owner.number key }
        ensures is { (plan : Plan) → AreKeysOf plan self.now → IsKeyRow plan owner.number key result }
    {
        match self.rows.get(owner.index()) {
            Some(rows) => rows.row(key),
            None => None,
        }
    }

    /// How often a process puts a key.
    pub(crate) fn put_count(&self, owner: Proc, key: u32) -> u32
        ensures { (plan : Plan) → AreKeysOf plan self.now → result ≡ put_count plan owner.number key (event_count plan owner.number) }
    {
        match self.row(owner, key) {
            Some(row) => row.puts,
            None => 0,
        }
    }

    /// The first put of a key by a process; `None` where it never puts the key.
    pub(crate) fn first_put(&self, owner: Proc, key: u32) -> Option<Event>
        ensures { (plan : Plan) → AreKeysOf plan self.now →
            MatchOption result (put_count plan owner.number key (event_count plan owner.number) ≡ 0)
            (λ x. (x.proc ≡ owner) × IsFirstPut plan (event_of x) key) }
    {
        match self.row(owner, key) {
            Some(row) => Some(Event {
                proc: owner,
                at: row.first,
            }),
            None => None,
        }
    }

    /// The number of the commit that first stores a key of a process.
    fn store(&self, owner: Proc, key: u32) -> Option<u32>
        ensures { (plan : Plan) → AreKeysOf plan self.now → IsStore plan owner.number key result }
    {
        match self.row(owner, key) {
            Some(row) => row.store,
            None => None,
        }
    }

    /// The commit that first stores a key of a process, which is the first one after the first put;
    /// `None` where none does (PMIx Standard 5.0, Posting Key-Value Pairs).
    pub(crate) fn store_of(&self, owner: Proc, key: u32) -> Option<Event>
        ensures { (plan : Plan) → AreKeysOf plan self.now →
            MatchOption result ((x : runs.Event) → x.proc ≡ owner.number → Stores plan x key → ⊥)
            (λ x. (x.proc ≡ owner) × Stores plan (event_of x) key) }
    {
        match self.store(owner, key) {
            Some(at) => Some(Event { proc: owner, at }),
            None => None,
        }
    }

    /// Whether a process puts a key before its event of this number.
    pub(crate) fn is_put_before(&self, owner: Proc, key: u32, at: u32) -> bool
        ensures { (plan : Plan) → AreKeysOf plan self.now → result ≡ is_some (own plan owner.number key at) }
    {
        match self.row(owner, key) {
            Some(row) => row.first < at,
            None => false,
        }
    }

    /// Whether a get of another process's key isn't ruled out by the owner's script: the owner stores
    /// the key, or puts it more than once.
    pub(crate) fn may_get(&self, owner: Proc, key: u32) -> bool
        ensures { (plan : Plan) → AreKeysOf plan self.now →
            result ≡ (is_some (stored plan owner.number key (event_count plan owner.number))
            || nat_le 2 (put_count plan owner.number key (event_count plan owner.number))) }
    {
        self.store(owner, key).is_some() || self.put_count(owner, key) >= 2
    }

    /// The commit that a get of another process's key waits for: the one that first stores it, where
    /// the key is put once.
    pub(crate) fn feeding_commit(&self, owner: Proc, key: u32) -> Option<Event>
        ensures { (plan : Plan) → AreKeysOf plan self.now →
            MatchOption result ((x : runs.Event) → x.proc ≡ owner.number → IsPutOnce plan owner.number key → Stores plan x key → ⊥)
            (λ x. (x.proc ≡ owner) × IsPutOnce plan owner.number key × Stores plan (event_of x) key) }
    {
        if self.put_count(owner, key) == 1 {
            self.store_of(owner, key)
        } else {
            None
        }
    }

    /// The number of the commit after which what a process has stored under a key is for processes of
    /// other nodes, where the key is put once; `None` where it never is.
    pub(crate) fn sending_commit(&self, owner: Proc, key: u32) -> Option<u32>
        ensures { (plan : Plan) → AreKeysOf plan self.now → IsPutOnce plan owner.number key → IsSentAfter plan owner.number key result }
    {
        match self.row(owner, key) {
            Some(row) => {
                if is_for_others(row.scope) {
                    row.store
                } else {
                    None
                }
            }
            None => None,
        }
    }

    /// Whether what a process has stored under a key before its event of this number is for processes of
    /// other nodes, where the key is put once.
    pub(crate) fn is_sent(&self, owner: Proc, key: u32, at: u32) -> bool
        ensures { (plan : Plan) → AreKeysOf plan self.now → IsPutOnce plan owner.number key → (IsTrue result ↔ IsSent plan owner.number key at) }
    {
        match self.sending_commit(owner, key) {
            Some(commit) => commit < at,
            None => false,
        }
    }
}
