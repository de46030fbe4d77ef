//! What a process's script says of the keys that it puts, listed in the order of the keys.

ghost use Rattle.std.specs.BTreeMap.{is_at};
ghost use Rattle.std.specs.Map.{lookup};
ghost use Rattle.std.specs.Ordering.{nat_cmp};
ghost use Rattle.std.specs.Prelude.{◌≡◌, IfOk};

use std::alloc::{AllocError, Global};
use std::collections::BTreeMap;
use std::marker::Model;
use wire_types::Scope;

/// What a process's script says of a key that it puts. Events go by their numbers in the process.
#[derive(Clone, Copy)]
pub(crate) struct KeyRow {
    /// How often it puts the key.
    pub puts: u32,
    /// The event that puts it first.
    pub first: u32,
    /// Whom that put is for.
    pub scope: Scope,
    /// The commit that stores that put: the first one after it.
    pub store: Option<u32>,
}

/// The rows of a process, each with its key. A list takes less memory than a map, and stays as it is.
pub(crate) struct KeyRows {
    rows: Vec<(u32, KeyRow)>,
}

// By hand and not derived: so dropping one is a call, and the proof of a function that drops one doesn't take it apart.
impl Drop for KeyRows {
    fn drop(self) {
        let KeyRows { rows: _ } = self;
    }
}

impl Model for KeyRows {
    ghost use Rattle.std.specs.Prelude.{List, ℕ};
    ghost use Rattle.std.specs.List.Sorted.{IsStrictlySortedBy};
    ghost use Rattle.std.specs.Map.{keys_of};
    ghost use Rattle.std.specs.Ordering.{nat_cmp};
    ghost use Rattle.wire_plan.specs.declared.key_rows.KeyRow.{KeyRow as Row};

    ghost Value = { List (ℕ × Row) };

    ghost view = { λ r. r.rows.items };

    ghost invariant = { λ r. IsStrictlySortedBy nat_cmp (keys_of r.rows.items) };
}

impl KeyRows {
    /// The rows of a map.
    pub(crate) fn of(alloc: Global, map: &BTreeMap<u32, KeyRow>) -> Result<KeyRows, AllocError>
        ensures { IfOk result (λ rows. rows ≡ map.now.entries) }
    {
        let mut rows = Vec::with_capacity(alloc, map.len())?;
        for (key, row) in map {
            rows.push((*key, *row))?;
        }
        Ok(KeyRows { rows })
    }

    /// The row of a key, by bisection; `None` where there is none.
    pub(crate) fn row(&self, key: u32) -> Option<KeyRow>
        ensures { result ≡ lookup (is_at (nat_cmp key)) self.now }
    {
        match self.rows.binary_search_by_key(&key, |row| row.0) {
            Ok(place) => Some(self.rows[place].1),
            Err(_) => None,
        }
    }
}
