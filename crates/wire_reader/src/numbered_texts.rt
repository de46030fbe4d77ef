//! Texts that are given numbers while a file is read.

ghost use Rattle.std.specs.Prelude.{◌≡◌, ◌≢◌, ◌==◌, ◌+◌, ◌<◌, ◌^◌, ◌∷◌, ◌++◌};
ghost use Rattle.std.specs.Prelude.{[], Some, true, false, length, position, IfOk, OnOk};
ghost use Rattle.std.specs.Prelude.{OnErr};
ghost use Rattle.std.specs.List.{list_any, position_or_len};
ghost use Rattle.std.specs.Str.{bytes_eq};

use indexmap::IndexSet;
use std::alloc::{AllocError, Global};
use std::marker::Model;
use wire_scripts::Texts;

/// Texts, each once, with its place as its number, from 0, in the order in which they were added.
pub struct NumberedTexts {
    set: IndexSet<Vec<u8>>,
}

// By hand and not derived: so dropping one is a call, and the proof of a function that drops one doesn't take it apart.
impl Drop for NumberedTexts {
    fn drop(self) {
        let NumberedTexts { set: _ } = self;
    }
}

impl Model for NumberedTexts {
    ghost use Rattle.std.specs.Prelude.{List, ℕ, length, ◌<◌, ◌^◌};
    ghost use Rattle.wire_types.specs.Texts.{lists_of};

    ghost Value = { List (List ℕ) };

    ghost view = { λ t. lists_of t.set.keys };

    ghost invariant = { λ t. length t.set.keys < 2 ^ 32 };
}

impl NumberedTexts {
    /// No texts. Takes no memory.
    pub fn new(alloc: Global) -> NumberedTexts
        ensures { result ≡ [] }
    {
        NumberedTexts {
            set: IndexSet::new(alloc),
        }
    }

    /// How many texts there are.
    pub fn len(&self) -> u32
        ensures { result ≡ length self.now }
    {
        self.set.len() as u32
    }

    /// Whether there is no text.
    pub fn is_empty(&self) -> bool
        ensures { result ≡ (length self.now == 0) }
    {
        self.set.is_empty()
    }

    /// Whether a text is the first.
    fn is_first(&self, text: &[u8]) -> bool
        ensures first { result ≡ true → position (bytes_eq text.now) self.now ≡ Some 0 }
        ensures other { result ≡ false → position (bytes_eq text.now) self.now ≢ Some 0 }
    {
        match self.set.first() {
            Some(first) => text == first.as_slice(),
            None => false,
        }
    }

    /// The number of a text, or nothing where it isn't there. The first is compared before anything is hashed:
    /// most plans have one job, and one key that most calls name.
    fn number_of(&self, text: &[u8]) -> Option<u32>
        ensures { result ≡ position (bytes_eq text.now) self.now }
    {
        if self.is_first(text) {
            return Some(0);
        }
        match self.set.get_index_of(text) {
            Some(number) => Some(number as u32),
            None => None,
        }
    }

    /// Whether this text is among them.
    pub fn contains(&self, text: &[u8]) -> bool
        ensures { result ≡ list_any (bytes_eq text.now) self.now }
    {
        self.set.contains(text)
    }

    /// The number of a text, or that of all texts where it isn't there.
    pub fn number_or_count(&self, text: &[u8]) -> u32
        ensures { result ≡ position_or_len (bytes_eq text.now) self.now }
    {
        match self.number_of(text) {
            Some(number) => number,
            None => self.len(),
        }
    }

    /// Adds a text that isn't there.
    pub fn add(&mut self, alloc: Global, text: &[u8]) -> Result<(), AllocError>
        requires new { list_any (bytes_eq text.now) self.old ≡ false }
        requires room { length self.old + 1 < 2 ^ 32 }
        ensures ok { OnOk result (self.new ≡ self.old ++ text.now ∷ []) }
        ensures err { OnErr result (self.new ≡ self.old) }
    {
        let owned = Vec::from_slice(alloc, text)?;
        self.set.insert_full(owned)?;
        Ok(())
    }

    /// The same texts, with the same numbers, as scripts hold them.
    pub fn into_texts(self, alloc: Global) -> Result<Texts, AllocError>
        ensures { IfOk result (λ texts. texts ≡ self) }
    {
        let NumberedTexts { set } = self;
        let list: Vec<Vec<u8>> = set.into_iter().collect(alloc)?;
        Ok(Texts::new(list))
    }
}
