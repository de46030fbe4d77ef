//! What was named before, with the numbers of the sets.

ghost use Rattle.std.specs.Prelude.{◌≡◌, ◌≢◌, ◌∷◌, ◌++◌, [], OnOk, IfSome, IfNone};
ghost use Rattle.std.specs.List.{All, Contains};

use crate::members::Target;
use indexmap::IndexMap;
use std::alloc::{AllocError, Global};
use std::marker::Model;

/// What was named, as it was said, each with the number of the set. So a set that is said again is neither
/// listed nor compared again.
pub struct Noted {
    table: IndexMap<Vec<Target>, u32>,
}

// By hand and not derived: so dropping one is a call, and the proof of a function that drops one doesn't take it apart.
impl Drop for Noted {
    fn drop(self) {
        let Noted { table: _ } = self;
    }
}

impl Model for Noted {
    ghost use Rattle.std.specs.Prelude.{List, map};
    ghost use Rattle.wire_reader.specs.Targets.{Note};

    ghost Value = { List Note };

    ghost view = { λ n. map (λ e. (e.0.items, e.1)) n.table.entries };
}

impl Noted {
    /// Nothing noted. Takes no memory.
    pub fn new(alloc: Global) -> Noted
        ensures { result ≡ [] }
    {
        Noted {
            table: IndexMap::new(alloc),
        }
    }

    /// The number that was noted, or nothing where none was.
    pub fn number_of(&self, targets: &[Target]) -> Option<u32>
        ensures found { IfSome result (λ n. Contains self.now (targets.now, n)) }
        ensures none { IfNone result (All (λ e. e.0 ≢ targets.now) self.now) }
    {
        match self.table.get(targets) {
            Some(number) => Some(*number),
            None => None,
        }
    }

    /// Notes the number of what wasn't named before.
    pub fn note(&mut self, alloc: Global, targets: &[Target], number: u32) -> Result<(), AllocError>
        requires { All (λ e. e.0 ≢ targets.now) self.old }
        ensures { OnOk result (self.new ≡ self.old ++ (targets.now, number) ∷ []) }
    {
        let owned = Vec::from_slice(alloc, targets)?;
        self.table.insert(owned, number)?;
        Ok(())
    }
}
