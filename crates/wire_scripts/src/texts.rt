//! Texts by number.

ghost use Rattle.std.specs.Prelude.{◌≡◌, ◌==◌, ◌<◌, ◌^◌, [], length, slice_index_or};
ghost use Rattle.wire_types.specs.Texts.{lists_of};
ghost use Rattle.wire_scripts.specs.Apart.{AreDistinct};
ghost use Rattle.wire_scripts.specs.Placed.{another_name, with_second};
ghost use Rattle.std.specs.Prelude.{IfOk, ◌++◌, ◌∷◌, OnOk};

use std::alloc::{AllocError, Global};
use std::marker::Model;

/// Texts, each once, with its place as its number, from 0.
pub struct Texts {
    list: Vec<Vec<u8>>,
}

// By hand and not derived: so dropping one is a call, and the proof of a function that drops one doesn't take it apart.
impl Drop for Texts {
    fn drop(self) {
        let Texts { list: _ } = self;
    }
}

impl Model for Texts {
    ghost use Rattle.std.specs.Prelude.{List, ℕ, length, ◌<◌, ◌^◌};
    ghost use Rattle.wire_types.specs.Texts.{lists_of};
    ghost use Rattle.wire_scripts.specs.Apart.{AreDistinct};

    ghost Value = { List (List ℕ) };

    ghost view = { λ t. lists_of t.list.items };

    ghost invariant = { λ t. (length t.list.items < 2 ^ 32) × AreDistinct (lists_of t.list.items) };
}

impl Texts {
    /// These texts, each of which is there once, numbered in their order.
    pub fn new(list: Vec<Vec<u8>>) -> Texts
        requires few { length list.items < 2 ^ 32 }
        requires apart { AreDistinct (lists_of list.items) }
        ensures { result ≡ lists_of list.items }
    {
        Texts { list }
    }

    /// How many texts there are.
    pub fn len(&self) -> u32
        ensures { result ≡ length self.now }
    {
        self.list.len() as u32
    }

    /// Whether there is no text.
    pub fn is_empty(&self) -> bool
        ensures { result ≡ (length self.now == 0) }
    {
        self.list.is_empty()
    }

    /// The text of a number, empty where the number has none.
    pub fn text(&self, number: u32) -> &[u8]
        ensures { result.now ≡ slice_index_or self.now number [] }
    {
        match self.list.get(number as usize) {
            Some(text) => text.as_slice(),
            None => b"".as_slice(),
        }
    }

    /// The same texts, with a second one where there is only one.
    pub(crate) fn into_two(self, alloc: Global) -> Result<Texts, AllocError>
        ensures { IfOk result (λ texts. texts ≡ with_second self) }
    {
        let Texts { mut list } = self;
        if let [only] = list.as_slice() {
            let second = other_name(alloc, only.as_slice())?;
            list.push(second)?;
        }
        Ok(Texts { list })
    }

    /// No text is there twice.
    pub fn are_apart(&self)
        ensures { AreDistinct self.now }
    {
        let _ = &self.list;
    }
}

/// A name of a node that this isn't.
fn other_name(alloc: Global, name: &[u8]) -> Result<Vec<u8>, AllocError>
    ensures { IfOk result (λ other. other.items ≡ another_name name.now) }
{
    if name == b"n1".as_slice() {
        Vec::from_slice(alloc, b"n2".as_slice())
    } else {
        Vec::from_slice(alloc, b"n1".as_slice())
    }
}

impl PartialEq for Texts {
    ghost use Rattle.wire_scripts.specs.Same.{same_texts, texts_alike};

    ghost eq = { same_texts };

    ghost laws = { texts_alike };

    fn eq(&self, other: &Texts) -> bool {
        self.list.as_slice() == other.list.as_slice()
    }
}
