//! The sets of a job that were spelt before: most calls spell a set as an earlier one did, and then it isn't cut into
//! items again.

ghost use Rattle.std.specs.Prelude.{◌≡◌, Some, None, List, ℕ, OnOk, if◌then◌else◌};
ghost use Rattle.std.specs.Str.{bytes_eq};
ghost use Rattle.wire_spelling.specs.Known.{AreKnown, known_of};

use crate::spelled::is_word;
use crate::spelling::Spelt;
use std::alloc::{AllocError, Global};
use std::collections::HashMap;

/// How sets of a job are spelt, by what calls write for them.
pub(crate) struct KnownSets<'a> {
    pub job: &'a [u8],
    pub sets: HashMap<Vec<u8>, Spelt>,
}

// By hand and not derived: so dropping one is a call, and the proof of a function that drops one doesn't take it apart.
impl Drop for KnownSets<'_> {
    fn drop(self) {
        let KnownSets { job: _, sets: _ } = self;
    }
}

impl<'a> KnownSets<'a> {
    /// Nothing of a job.
    pub(crate) fn of_job(alloc: Global, job: &'a [u8]) -> KnownSets<'a>
        ensures job { result.job ≡ job.entry }
        ensures none { (text : List ℕ) → known_of result text ≡ None }
    {
        KnownSets {
            job,
            sets: HashMap::new(alloc),
        }
    }

    /// Whether what is known is of a job.
    fn is_of(&self, job: &[u8]) -> bool
        ensures { result ≡ bytes_eq self.now.job.now job.now }
    {
        is_word(self.job, job)
    }

    /// Forgets all that isn't of a job.
    pub(crate) fn turn_to(&mut self, alloc: Global, job: &'a [u8])
        ensures job { self.new.job.now ≡ job.now }
        ensures known { (table : List (List (List ℕ))) → AreKnown table self.old → AreKnown table self.new }
    {
        if !self.is_of(job) {
            *self = KnownSets::of_job(alloc, job);
        }
    }

    /// How a set is spelt, if it is known.
    pub(crate) fn find(&self, set: &[u8]) -> Option<Spelt>
        ensures { result ≡ known_of self.now set.now }
    {
        self.sets.get(set).copied()
    }

    /// Takes up how a set is spelt.
    pub(crate) fn add(&mut self, alloc: Global, set: &[u8], spelt: Spelt) -> Result<(), AllocError>
        ensures job { OnOk result (self.new.job ≡ self.old.job) }
        ensures sets { OnOk result ((text : List ℕ) → known_of self.new text ≡ (if bytes_eq text set.now then Some spelt else known_of self.old text)) }
    {
        let word = Vec::from_slice(alloc, set)?;
        self.sets.insert(word, spelt)?;
        Ok(())
    }
}
