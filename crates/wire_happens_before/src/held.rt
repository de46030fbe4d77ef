//! The names under which publishes of each process may stand.

ghost use Rattle.std.specs.Prelude.{◌≡◌, ◌≢◌, ◌<◌, ◌++◌, ◌∷◌, [], ℕ, length, OnOk, OnErr};
ghost use Rattle.wire_happens_before.specs.Updates.{names_at};

use std::alloc::{AllocError, Global};
use std::marker::Model;
use wire_types::Proc;

/// For each process names, by their numbers, in the order in which they were added.
#[derive(Drop)]
pub(crate) struct Held {
    by_proc: Vec<Vec<u32>>,
}

impl Model for Held {
    ghost use Rattle.std.specs.Prelude.{List, ℕ, map};

    ghost Value = { List (List ℕ) };

    ghost view = { λ t. map (λ v. v.items) t.by_proc.items };
}

impl Held {
    /// None of any process.
    pub(crate) fn empty(alloc: Global) -> Held
        ensures { result ≡ [] }
    {
        Held {
            by_proc: Vec::new(alloc),
        }
    }

    /// Those of a process.
    pub(crate) fn list(&self, proc: Proc) -> &[u32]
        ensures { result.now ≡ names_at self.now proc.number }
    {
        match self.by_proc.get(proc.number as usize) {
            Some(list) => list.as_slice(),
            None => &[],
        }
    }

    /// Gives each process up to this one a list, at first an empty one.
    fn reach(&mut self, alloc: Global, proc: Proc) -> Result<(), AllocError>
        ensures same { (p : ℕ) → names_at self.new p ≡ names_at self.old p }
        ensures there { OnOk result (proc.number < length self.new) }
    {
        for _ in self.by_proc.len()..proc.number as usize + 1 {
            self.by_proc.push(Vec::new(alloc))?;
        }
        Ok(())
    }

    /// Adds a name to those of a process.
    pub(crate) fn add(&mut self, alloc: Global, proc: Proc, name: u32) -> Result<(), AllocError>
        ensures here { OnOk result (names_at self.new proc.number ≡ names_at self.old proc.number ++ name ∷ []) }
        ensures others { OnOk result ((p : ℕ) → p ≢ proc.number → names_at self.new p ≡ names_at self.old p) }
        ensures err { OnErr result ((p : ℕ) → names_at self.new p ≡ names_at self.old p) }
    {
        self.reach(alloc, proc)?;
        self.by_proc[proc.number as usize].push(name)?;
        Ok(())
    }

    /// Takes away those of a process.
    pub(crate) fn clear(&mut self, proc: Proc)
        ensures { (p : ℕ) → p ≢ proc.number → names_at self.new p ≡ names_at self.old p }
    {
        let is_there = (proc.number as usize) < self.by_proc.len();
        if is_there {
            self.by_proc[proc.number as usize].clear();
        }
    }
}
