//! Sets of processes that are given numbers while a file is read.

ghost use Rattle.std.specs.Prelude.{◌≡◌, ◌+◌, ◌<◌, ◌^◌, ◌∷◌, ◌++◌, [], false, length, IfOk, OnOk, OnErr};
ghost use Rattle.std.specs.List.{list_any, position_or_len};
ghost use Rattle.std.specs.Str.{bytes_eq as same_set};
ghost use Rattle.wire_scripts.specs.Scripts.{numbers_of};

use indexmap::IndexSet;
use std::alloc::{AllocError, Global};
use std::marker::Model;
use wire_scripts::Sets;
use wire_types::Proc;

/// Sets of processes, each set once, with its place as its number, from 0, in the order in which they were added.
pub struct NumberedSets {
    table: IndexSet<Vec<Proc>>,
}

// By hand and not derived: so dropping one is a call, and the proof of a function that drops one doesn't take it apart.
impl Drop for NumberedSets {
    fn drop(self) {
        let NumberedSets { table: _ } = self;
    }
}

impl Model for NumberedSets {
    ghost use Rattle.std.specs.Prelude.{List, ℕ, map, length, ◌<◌, ◌^◌};
    ghost use Rattle.wire_scripts.specs.Scripts.{numbers_of};

    ghost Value = { List (List ℕ) };

    ghost view = { λ s. map (λ v. numbers_of v.items) s.table.keys };

    ghost invariant = { λ s. length s.table.keys < 2 ^ 32 };
}

impl NumberedSets {
    /// No sets. Takes no memory.
    pub fn new(alloc: Global) -> NumberedSets
        ensures { result ≡ [] }
    {
        NumberedSets {
            table: IndexSet::new(alloc),
        }
    }

    /// How many sets there are.
    pub fn len(&self) -> u32
        ensures { result ≡ length self.now }
    {
        self.table.len() as u32
    }

    /// The number of a set, or that of all sets where it isn't there.
    pub fn number_or_count(&self, set: &[Proc]) -> u32
        ensures { result ≡ position_or_len (same_set (numbers_of set.now)) self.now }
    {
        match self.table.get_index_of(set) {
            Some(number) => number as u32,
            None => self.len(),
        }
    }

    /// Adds a set that isn't there.
    pub fn add(&mut self, set: Vec<Proc>) -> Result<(), AllocError>
        requires new { list_any (same_set (numbers_of set.items)) self.old ≡ false }
        requires room { length self.old + 1 < 2 ^ 32 }
        ensures ok { OnOk result (self.new ≡ self.old ++ numbers_of set.items ∷ []) }
        ensures err { OnErr result (self.new ≡ self.old) }
    {
        self.table.insert_full(set)?;
        Ok(())
    }

    /// The same sets, with the same numbers, as scripts hold them.
    pub fn into_sets(self, alloc: Global) -> Result<Sets, AllocError>
        ensures { IfOk result (λ sets. sets ≡ self) }
    {
        let NumberedSets { table } = self;
        let list: Vec<Vec<Proc>> = table.into_iter().collect(alloc)?;
        Ok(Sets::new(list))
    }
}
