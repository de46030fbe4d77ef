//! Findings in few bytes.

ghost use Rattle.std.specs.Prelude.{◌≡◌, ◌≤◌, IsTrue, IfOk, length};
ghost use Rattle.wire_findings.specs.Packing.{told_by, all_told_by, HasMore, IsLastSubject, IsNumberOf};

use crate::finding::Finding;
use std::alloc::{AllocError, Global};
use wire_types::{CallAt, Proc};

/// What a race is on.
#[derive(Clone, Copy, PartialEq, Eq)]
pub(crate) enum Subject {
    /// The owner of a key, and the key by its number.
    Key(Proc, u32),
    /// A name by its number.
    Name(u32),
}

/// A finding in 20 bytes, beside a table of subjects. Findings that are met one after another and race on the
/// same key or name share its entry there.
#[derive(Clone, Copy)]
pub(crate) struct Packed {
    /// The later put of a rewrite, or the lower call of a race.
    pub by: CallAt,
    /// The first put of a rewrite, or the higher call of a race.
    pub then: CallAt,
    /// 0 for a rewrite. For a race, the place of its subject in the table, counted from 1.
    pub subject: u32,
}

/// Whether this is the last subject of the table.
fn is_last(subjects: &[Subject], subject: Subject) -> bool
    ensures { IsTrue result → IsLastSubject subjects.now subject }
{
    match subjects.last() {
        Some(last) => *last == subject,
        None => false,
    }
}

/// How many subjects there are. More than 2^32 - 1 of them would take 48 GiB; they count as memory that ran out.
fn count_of(subjects: &[Subject]) -> Result<u32, AllocError>
    ensures { IfOk result (λ count. count ≡ length subjects.now) }
{
    match u32::try_from(subjects.len()) {
        Ok(count) => Ok(count),
        Err(_) => Err(AllocError),
    }
}

/// The number of a subject in the table, to which it is added where it isn't the last one.
fn number_of(subjects: &mut Vec<Subject>, subject: Subject) -> Result<u32, AllocError>
    ensures more { HasMore subjects.old.items subjects.new.items }
    ensures number { IfOk result (IsNumberOf subjects.new.items subject) }
{
    if !is_last(subjects.as_slice(), subject) {
        subjects.push(subject)?;
    }
    count_of(subjects.as_slice())
}

/// A finding in few bytes. Its subject is added to the table where it isn't the last one there.
pub(crate) fn pack(subjects: &mut Vec<Subject>, finding: Finding) -> Result<Packed, AllocError>
    ensures more { HasMore subjects.old.items subjects.new.items }
    ensures within { IfOk result (λ entry. entry.subject ≤ length subjects.new.items) }
    ensures told { IfOk result (λ entry. told_by subjects.new.items entry ≡ finding) }
{
    match finding {
        Finding::Rewrite(first, later) => Ok(Packed {
            by: later,
            then: first,
            subject: 0,
        }),
        Finding::KeyRace(lower, higher, owner, key) => Ok(Packed {
            by: lower,
            then: higher,
            subject: number_of(subjects, Subject::Key(owner, key))?,
        }),
        Finding::NameRace(lower, higher, name) => Ok(Packed {
            by: lower,
            then: higher,
            subject: number_of(subjects, Subject::Name(name))?,
        }),
    }
}

/// The finding that an entry stands for.
pub(crate) fn unpack(subjects: &[Subject], entry: Packed) -> Finding
    ensures { result ≡ told_by subjects.now entry }
{
    if entry.subject == 0 {
        return Finding::Rewrite(entry.then, entry.by);
    }
    match subjects.get(entry.subject as usize - 1) {
        Some(Subject::Key(owner, key)) => Finding::KeyRace(entry.by, entry.then, *owner, *key),
        Some(Subject::Name(name)) => Finding::NameRace(entry.by, entry.then, *name),
        // Not met: each number is that of a subject of the table.
        None => Finding::NameRace(entry.by, entry.then, 0),
    }
}

/// The findings that these entries stand for.
pub(crate) fn unpack_all(
    alloc: Global,
    subjects: &[Subject],
    entries: &[Packed],
) -> Result<Vec<Finding>, AllocError>
    ensures { IfOk result (λ findings. findings.items ≡ all_told_by subjects.now entries.now) }
{
    let mut findings = Vec::with_capacity(alloc, entries.len())?;
    for entry in entries {
        findings.push(unpack(subjects, *entry))?;
    }
    Ok(findings)
}
