//! A finding with the placement that has it, and the list of these.

ghost use Rattle.std.specs.Prelude.{◌≡◌, ◌==◌, ◌++◌, ◌∷◌, ◌↔◌, [], IsTrue, OnOk, length, slice_get};
ghost use Rattle.std.specs.Ordering.{is_eq};
ghost use Rattle.wire_runs.specs.Plan as runs;
ghost use Rattle.wire_runs.specs.FindingsAnywhere.{PlacementFinding, IsPlacedSorted};
ghost use Rattle.wire_findings.specs.Findings.{lower_name};
ghost use Rattle.wire_findings.specs.Standings.{AreNamesOf};
ghost use Rattle.wire_anywhere.specs.Anywhere.{all_placed};
ghost use Rattle.wire_anywhere.specs.Adding.{TellsPlacementFinding, AreSomewhere};
ghost use Rattle.wire_anywhere.specs.Order.{placed_cmp};

use std::alloc::{AllocError, Global};
use std::cmp::Ordering;
use std::marker::Model;
use wire_findings::{Finding, compare_findings};
use wire_scripts::Texts;
use wire_types::Proc;

/// Two ranks that have a node of their own, all others elsewhere; the lower first.
#[derive(Clone, Copy)]
pub struct Pair {
    pub lower: Proc,
    pub higher: Proc,
}

/// A finding: of every placement, or of that which gives this pair a node of its own.
#[derive(Clone, Copy)]
pub struct PlacedFinding {
    pub finding: Finding,
    pub on: Option<Pair>,
}

/// How two findings stand in the list: as in that of `check`, whatever their pairs.
fn compare(names: &Texts, x: &PlacedFinding, y: &PlacedFinding) -> Ordering
    ensures { result ≡ placed_cmp names.now x.now y.now }
{
    compare_findings(names, x.finding, y.finding)
}

/// Whether two findings have one place in the list.
fn is_same(names: &Texts, x: &PlacedFinding, y: &PlacedFinding) -> bool
    ensures { result ≡ is_eq (placed_cmp names.now x.now y.now) }
{
    compare(names, x, y) == Ordering::Equal
}

/// The list of the findings of all placements. While they are looked for they stand as they are met, in any order, and
/// maybe twice.
pub struct PlacedList {
    entries: Vec<PlacedFinding>,
}

// By hand and not derived: so dropping one is a call, and the proof of a function that drops one doesn't take it apart.
impl Drop for PlacedList {
    fn drop(self) {
        let PlacedList { entries: _ } = self;
    }
}

impl Model for PlacedList {
    ghost use Rattle.std.specs.Prelude.{List};
    ghost use Rattle.wire_anywhere.specs.declared.placed.PlacedFinding.{PlacedFinding as Told};

    ghost Value = { List Told };

    ghost view = { λ f. f.entries.items };
}

impl PlacedList {
    /// Nothing yet.
    pub(crate) fn empty(alloc: Global) -> PlacedList
        ensures { result ≡ [] }
    {
        PlacedList {
            entries: Vec::new(alloc),
        }
    }

    /// Puts a finding behind the others.
    pub(crate) fn push(&mut self, finding: PlacedFinding) -> Result<(), AllocError>
        ensures { OnOk result (self.new ≡ self.old ++ finding ∷ []) }
    {
        self.entries.push(finding)?;
        Ok(())
    }

    /// Puts these findings behind the others, one by one.
    fn push_all(&mut self, findings: &[PlacedFinding]) -> Result<(), AllocError>
        ensures { OnOk result (self.new ≡ self.old ++ findings.now) }
    {
        for finding in findings {
            self.push(*finding)?;
        }
        Ok(())
    }

    /// Puts the findings of a piece behind the others. Where nothing is there yet, they needn't be moved.
    pub(crate) fn append(&mut self, piece: PlacedList) -> Result<(), AllocError>
        ensures { OnOk result (self.new ≡ self.old ++ piece) }
    {
        if self.entries.is_empty() {
            *self = piece;
            return Ok(());
        }
        self.push_all(piece.entries.as_slice())
    }

    /// The findings of a plan with these names, each once, in their order.
    pub(crate) fn in_order(self, names: &Texts) -> PlacedList
        ensures those { (plan : runs.Plan) → AreNamesOf plan names.now → AreSomewhere plan self
            → (f : PlacementFinding) → TellsPlacementFinding plan result f ↔ TellsPlacementFinding plan self f }
        ensures sorted { (plan : runs.Plan) → AreNamesOf plan names.now → AreSomewhere plan self
            → IsPlacedSorted (lower_name names.now) (all_placed plan result) }
    {
        let PlacedList { mut entries } = self;
        entries.sort_unstable_by(|x, y| compare(names, x, y));
        entries.dedup_by(|x, y| is_same(names, x, y));
        PlacedList { entries }
    }

    /// How many findings there are.
    pub fn len(&self) -> usize
        ensures { result ≡ length self.now }
    {
        self.entries.len()
    }

    /// Whether there is no finding.
    pub fn is_empty(&self) -> bool
        ensures { result ≡ (length self.now == 0) }
    {
        self.entries.is_empty()
    }

    /// The finding of this number, from 0, if there is one.
    pub fn get(&self, index: usize) -> Option<PlacedFinding>
        ensures { result ≡ slice_get self.now index }
    {
        self.entries.get(index).copied()
    }
}
