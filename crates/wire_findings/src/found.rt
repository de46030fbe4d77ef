//! The findings so far, and the list that they come to.

ghost use Rattle.std.specs.Prelude.{◌≡◌, ◌↔◌, ◌++◌, ◌∷◌, [], IsTrue, OnOk};
ghost use Rattle.std.specs.Ordering.{is_eq, is_lt};
ghost use Rattle.wire_runs.specs.Plan as runs;
ghost use Rattle.wire_runs.specs.Findings as told;
ghost use Rattle.wire_runs.specs.Findings.{IsSorted};
ghost use Rattle.wire_findings.specs.Findings.{shown, all_shown, lower_name};
ghost use Rattle.wire_findings.specs.Collected.{TellsFinding, AreFound, IsFindingAdded};
ghost use Rattle.wire_findings.specs.Packing.{told_by, all_told_by};
ghost use Rattle.wire_findings.specs.Standings.{standing, race_name, told_cmp, entry_cmp, AreInOrder, AreNamesOf};

use crate::finding::Finding;
use crate::list::FindingList;
use crate::packed::{Packed, Subject, pack, unpack};
use std::alloc::{AllocError, Global};
use std::cmp::Ordering;
use std::marker::Model;
use wire_scripts::Texts;
use wire_types::CallAt;

/// Where a finding stands in the list: a rewrite by the later put, and behind all of them a race by its
/// calls, the lower first. Two calls can race on several names; these findings have one standing, and
/// stand by the bytes of the names.
#[derive(Clone, Copy, PartialEq, Eq, PartialOrd, Ord)]
struct Standing {
    is_race: bool,
    by: CallAt,
    then: CallAt,
}

/// The standing of the finding that an entry stands for.
fn standing_of(subjects: &[Subject], entry: &Packed) -> Standing
    ensures { result ≡ standing (told_by subjects.now entry.now) }
{
    let _ = subjects;
    Standing {
        is_race: entry.subject != 0,
        by: entry.by,
        then: entry.then,
    }
}

/// The bytes of the name of a race on a name, none for other findings.
fn name_in(names: &Texts, finding: Finding) -> &[u8]
    ensures { result.now ≡ race_name names.now finding }
{
    match finding {
        Finding::NameRace(_, _, name) => names.text(name),
        _ => b"".as_slice(),
    }
}

/// The same of the finding that an entry stands for.
fn name_of<'a>(names: &'a Texts, subjects: &[Subject], entry: &Packed) -> &'a [u8]
    ensures { result.now ≡ race_name names.now (told_by subjects.now entry.now) }
{
    name_in(names, unpack(subjects, *entry))
}

/// The standing of a finding.
fn standing_in(finding: Finding) -> Standing
    ensures { result ≡ standing finding }
{
    let (is_race, by, then) = match finding {
        Finding::Rewrite(first, later) => (false, later, first),
        Finding::KeyRace(lower, higher, _, _) => (true, lower, higher),
        Finding::NameRace(lower, higher, _) => (true, lower, higher),
    };
    Standing { is_race, by, then }
}

/// How two findings stand in the list: rewrites by the later put, then races by their calls, the lower first, and those
/// of one pair by the bytes of their names. Names are looked at only where all else is the same.
pub fn compare_findings(names: &Texts, x: Finding, y: Finding) -> Ordering
    ensures { result ≡ told_cmp names.now x y }
{
    match standing_in(x).cmp(&standing_in(y)) {
        Ordering::Equal => name_in(names, x).cmp(name_in(names, y)),
        apart => apart,
    }
}

/// How the findings of two entries stand in the list. Names are looked at only where all else is the same.
fn compare(names: &Texts, subjects: &[Subject], x: &Packed, y: &Packed) -> Ordering
    ensures { result ≡ entry_cmp names.now subjects.now x.now y.now }
{
    match standing_of(subjects, x).cmp(&standing_of(subjects, y)) {
        Ordering::Equal => name_of(names, subjects, x).cmp(name_of(names, subjects, y)),
        apart => apart,
    }
}

/// Whether two entries stand for one finding.
fn is_same(names: &Texts, subjects: &[Subject], x: &Packed, y: &Packed) -> bool
    ensures { result ≡ is_eq (entry_cmp names.now subjects.now x.now y.now) }
{
    compare(names, subjects, x, y) == Ordering::Equal
}

/// Whether the finding of one entry stands before that of another.
fn stands_before(names: &Texts, subjects: &[Subject], x: &Packed, y: &Packed) -> bool
    ensures { result ≡ is_lt (entry_cmp names.now subjects.now x.now y.now) }
{
    compare(names, subjects, x, y).is_lt()
}

/// Whether each entry's finding stands before that of the next, so that none is there twice.
fn are_in_order(names: &Texts, subjects: &[Subject], entries: &[Packed]) -> bool
    ensures { IsTrue result → AreInOrder names.now subjects.now entries.now }
{
    entries.is_sorted_by(|x, y| stands_before(names, subjects, x, y))
}

/// Findings as they are met, in any order, in few bytes. One that is met twice stands there twice.
pub struct FindingsBuilder {
    entries: Vec<Packed>,
    subjects: Vec<Subject>,
}

// By hand and not derived: so dropping one is a call, and the proof of a function that drops one doesn't take it apart.
impl Drop for FindingsBuilder {
    fn drop(self) {
        let FindingsBuilder {
            entries: _,
            subjects: _,
        } = self;
    }
}

impl Model for FindingsBuilder {
    ghost use Rattle.std.specs.Prelude.{List};
    ghost use Rattle.wire_findings.specs.declared.finding.Finding.{Finding as Told};
    ghost use Rattle.wire_findings.specs.Packing.{all_told_by, AreWithin};

    ghost Value = { List Told };

    ghost view = { λ f. all_told_by f.subjects.items f.entries.items };

    ghost invariant = { λ f. AreWithin f.subjects.items f.entries.items };
}

impl FindingsBuilder {
    /// Nothing yet.
    pub fn new(alloc: Global) -> FindingsBuilder
        ensures { result ≡ [] }
    {
        FindingsBuilder {
            entries: Vec::new(alloc),
            subjects: Vec::new(alloc),
        }
    }

    /// Puts a finding behind the others.
    fn push(&mut self, finding: Finding) -> Result<(), AllocError>
        ensures { OnOk result (self.new ≡ self.old ++ finding ∷ []) }
    {
        let entry = pack(&mut self.subjects, finding)?;
        self.entries.push(entry)?;
        Ok(())
    }

    /// Adds a finding, behind the others. The one error is that memory ran out: nothing is said of what is there
    /// then, and a caller drops it.
    pub fn add(&mut self, finding: Finding) -> Result<(), AllocError>
        ensures added { OnOk result ((plan : runs.Plan) → IsFindingAdded plan self.old self.new (shown plan finding)) }
        ensures behind { OnOk result (self.new ≡ self.old ++ finding ∷ []) }
    {
        self.push(finding)
    }

    /// Puts the findings that these entries stand for behind the others, one by one.
    fn push_all(&mut self, subjects: &[Subject], entries: &[Packed]) -> Result<(), AllocError>
        ensures { OnOk result (self.new ≡ self.old ++ all_told_by subjects.now entries.now) }
    {
        for entry in entries {
            self.push(unpack(subjects, *entry))?;
        }
        Ok(())
    }

    /// Adds the findings of a piece, behind the others. Where nothing is there yet, they needn't be moved. The one
    /// error is that memory ran out: a part of the piece may be there then, and a caller drops it.
    pub fn append(&mut self, piece: FindingsBuilder) -> Result<(), AllocError>
        ensures { OnOk result (self.new ≡ self.old ++ piece) }
    {
        if self.entries.is_empty() {
            *self = piece;
            return Ok(());
        }
        self.push_all(piece.subjects.as_slice(), piece.entries.as_slice())
    }

    /// The findings as they were met.
    pub fn as_met(self) -> FindingList
        ensures { result ≡ self }
    {
        let FindingsBuilder { entries, subjects } = self;
        FindingList::new(entries, subjects)
    }

    /// The findings of a plan with these names, each once, in their order. Where they were met so, nothing is
    /// moved.
    pub fn into_list(self, names: &Texts) -> FindingList
        ensures those { (plan : runs.Plan) → AreNamesOf plan names.now → AreFound plan self → (f : told.Finding) →
            TellsFinding plan result f ↔ TellsFinding plan self f }
        ensures sorted { (plan : runs.Plan) → AreNamesOf plan names.now → AreFound plan self → IsSorted (lower_name names.now) (all_shown plan result) }
    {
        let FindingsBuilder {
            mut entries,
            subjects,
        } = self;
        if are_in_order(names, subjects.as_slice(), entries.as_slice()) {
            return FindingList::new(entries, subjects);
        }
        entries.sort_unstable_by(|x, y| compare(names, subjects.as_slice(), x, y));
        entries.dedup_by(|x, y| is_same(names, subjects.as_slice(), x, y));
        FindingList::new(entries, subjects)
    }
}
