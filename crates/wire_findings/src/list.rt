//! The list of a plan's findings, in few bytes.

ghost use Rattle.std.specs.Prelude.{◌≡◌, ◌==◌, IfOk, length, slice_get};
ghost use Rattle.wire_findings.specs.Packing.{all_told_by};

use crate::finding::Finding;
use crate::packed::{Packed, Subject, unpack, unpack_all};
use std::alloc::{AllocError, Global};
use std::marker::Model;

/// A list of findings that takes 20 bytes for each, and 12 more each time the key or the name that they race
/// on changes from one to the next. A `Finding` by itself takes 28.
pub struct FindingList {
    entries: Vec<Packed>,
    subjects: Vec<Subject>,
}

// By hand and not derived: so dropping one is a call, and the proof of a function that drops one doesn't take it apart.
impl Drop for FindingList {
    fn drop(self) {
        let FindingList {
            entries: _,
            subjects: _,
        } = self;
    }
}

impl Model for FindingList {
    ghost use Rattle.std.specs.Prelude.{List};
    ghost use Rattle.wire_findings.specs.declared.finding.Finding.{Finding as Told};
    ghost use Rattle.wire_findings.specs.Packing.{all_told_by};

    ghost Value = { List Told };

    ghost view = { λ f. all_told_by f.subjects.items f.entries.items };
}

impl FindingList {
    /// The findings that these entries stand for.
    pub(crate) fn new(entries: Vec<Packed>, subjects: Vec<Subject>) -> FindingList
        ensures { result ≡ all_told_by subjects.items entries.items }
    {
        FindingList { entries, subjects }
    }

    /// How many findings there are.
    pub fn len(&self) -> usize
        ensures { result ≡ length self.now }
    {
        self.entries.len()
    }

    /// Whether there is no finding.
    pub fn is_empty(&self) -> bool
        ensures { result ≡ (length self.now == 0) }
    {
        self.entries.is_empty()
    }

    /// The finding of this number, from 0, if there is one. It takes no memory.
    pub fn get(&self, index: usize) -> Option<Finding>
        ensures { result ≡ slice_get self.now index }
    {
        match self.entries.get(index) {
            Some(entry) => Some(unpack(self.subjects.as_slice(), *entry)),
            None => None,
        }
    }

    /// The same findings, one by one in a `Vec`. The one error is that memory ran out.
    pub fn to_vec(&self, alloc: Global) -> Result<Vec<Finding>, AllocError>
        ensures { IfOk result (λ findings. findings.items ≡ self.now) }
    {
        unpack_all(alloc, self.subjects.as_slice(), self.entries.as_slice())
    }
}
