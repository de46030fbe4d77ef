//! Sets of processes by number.

ghost use Rattle.std.specs.Prelude.{◌≡◌, ◌==◌, ◌<◌, ◌^◌, [], length, map, slice_index_or};
ghost use Rattle.wire_scripts.specs.Scripts.{numbers_of};

use std::marker::Model;
use wire_types::Proc;

/// Sets of processes, with their places as their numbers, from 0.
pub struct Sets {
    list: Vec<Vec<Proc>>,
}

// By hand and not derived: so dropping one is a call, and the proof of a function that drops one doesn't take it apart.
impl Drop for Sets {
    fn drop(self) {
        let Sets { list: _ } = self;
    }
}

impl Model for Sets {
    ghost use Rattle.std.specs.Prelude.{List, ℕ, map, length, ◌<◌, ◌^◌};
    ghost use Rattle.wire_scripts.specs.Scripts.{numbers_of};

    ghost Value = { List (List ℕ) };

    ghost view = { λ s. map (λ v. numbers_of v.items) s.list.items };

    ghost invariant = { λ s. length s.list.items < 2 ^ 32 };
}

impl Sets {
    /// These sets, numbered in their order.
    pub fn new(list: Vec<Vec<Proc>>) -> Sets
        requires { length list.items < 2 ^ 32 }
        ensures { result ≡ map (λ v. numbers_of v.items) list.items }
    {
        Sets { list }
    }

    /// How many sets there are.
    pub fn len(&self) -> u32
        ensures { result ≡ length self.now }
    {
        self.list.len() as u32
    }

    /// Whether there is no set.
    pub fn is_empty(&self) -> bool
        ensures { result ≡ (length self.now == 0) }
    {
        self.list.is_empty()
    }

    /// The processes of the set of a number, none where the number has no set.
    pub fn members(&self, number: u32) -> &[Proc]
        ensures { numbers_of result.now ≡ slice_index_or self.now number [] }
    {
        match self.list.get(number as usize) {
            Some(set) => set.as_slice(),
            None => &[],
        }
    }
}

impl PartialEq for Sets {
    ghost use Rattle.wire_scripts.specs.Same.{same_texts, texts_alike};

    ghost eq = { same_texts };

    ghost laws = { texts_alike };

    fn eq(&self, other: &Sets) -> bool {
        self.list.as_slice() == other.list.as_slice()
    }
}
