//! The numbers of sets: the same for two that are spelt alike.

ghost use Rattle.std.specs.Prelude.{◌≡◌, ◌++◌, ◌∷◌, ◌==◌, [], Some, codes, slice_get, IfOk, OnOk, option_map};
ghost use Rattle.std.specs.List.{slice_split};
ghost use Rattle.wire_types.specs.Texts.{lists_of};
ghost use Rattle.wire_spelling.specs.Spelling.{items_of as items_in};
ghost use Rattle.wire_spelling.specs.Spelled.{set_by};
ghost use Rattle.wire_spelling.specs.Numbering.{AreSetsDistinct, IsCallTold, IsSetInOrder, IsSetNumbered, KeepsSets, has_neighbours};
ghost use Rattle.wire_spelling.specs.Numbering as spec;
ghost use Rattle.wire_spelling.specs.Known.{AreKnown};

use crate::known::KnownSets;
use crate::spelled::{SpelledSet, is_word};
use crate::spelling::Spelt;
use indexmap::IndexSet;
use std::alloc::{AllocError, Global};
use std::marker::Model;
use wire_lines::cut_parts;

/// All processes of a job, as the one item of a set.
fn own_items(alloc: Global, job: &[u8]) -> Result<Vec<Vec<u8>>, AllocError>
    ensures { IfOk result (λ items. lists_of items.items ≡ (job.now ++ codes ":*") ∷ []) }
{
    let mut item = Vec::from_slice(alloc, job)?;
    item.extend_from_slice(b":*".as_slice())?;
    let mut items = Vec::new(alloc);
    items.push(item)?;
    Ok(items)
}

/// What stands between the commas of a set.
fn listed_items(alloc: Global, set: &[u8]) -> Result<Vec<Vec<u8>>, AllocError>
    ensures { IfOk result (λ items. lists_of items.items ≡ slice_split (λ b. b == 44) set.now) }
{
    let parts = cut_parts(alloc, set)?;
    let mut items = Vec::new(alloc);
    for part in &parts {
        let item = Vec::from_slice(alloc, *part)?;
        items.push(item)?;
    }
    Ok(items)
}

/// The items of a set; `all` is the job of the caller.
fn items_of(alloc: Global, spelled: SpelledSet<'_>) -> Result<Vec<Vec<u8>>, AllocError>
    ensures { IfOk result (λ items. lists_of items.items ≡ items_in (set_by spelled.entry)) }
{
    if spelled.set == b"all".as_slice() {
        own_items(alloc, spelled.job)
    } else {
        listed_items(alloc, spelled.set)
    }
}

/// The items of a set in ascending order.
fn ordered_items(alloc: Global, spelled: SpelledSet<'_>) -> Result<Vec<Vec<u8>>, AllocError>
    ensures { IfOk result (λ items. IsSetInOrder (set_by spelled.entry) (lists_of items.items)) }
{
    let mut items = items_of(alloc, spelled)?;
    items.sort_unstable();
    Ok(items)
}

/// Whether an item is all processes of a job, and the other one of that job.
fn holds(whole: &[u8], item: &[u8]) -> bool
    ensures { result ≡ spec.holds whole.now item.now }
{
    whole.ends_with(b":*".as_slice()) && item.starts_with(&whole[..whole.len() - 1])
}

/// Whether two items name a process or a job twice.
fn overlap(x: &[u8], y: &[u8]) -> bool
    ensures { result ≡ spec.overlap x.now y.now }
{
    is_word(x, y) || holds(x, y) || holds(y, x)
}

/// Whether an item and the first of these, or two neighbours of these, name a process or a job twice.
fn repeats_after<'a>(item: &'a [u8], items: &'a [Vec<u8>]) -> bool
    ensures { result ≡ spec.repeats_after item.now (lists_of items.now) }
{
    let mut last = item;
    for next in items {
        if overlap(last, next.as_slice()) {
            return true;
        }
        last = next.as_slice();
    }
    false
}

/// Whether two neighbours of these name a process or a job twice.
fn has_repeats(items: &[Vec<u8>]) -> bool
    ensures { result ≡ has_neighbours (lists_of items.now) }
{
    match items {
        [first, others @ ..] => repeats_after(first.as_slice(), others),
        [] => false,
    }
}

/// Lists of items, each once, with its place as its number.
pub(crate) struct Numbers {
    table: IndexSet<Vec<Vec<u8>>>,
}

// By hand and not derived: so dropping one is a call, and the proof of a function that drops one doesn't take it apart.
impl Drop for Numbers {
    fn drop(self) {
        let Numbers { table: _ } = self;
    }
}

impl Model for Numbers {
    ghost use Rattle.std.specs.Prelude.{List, ℕ, map};
    ghost use Rattle.wire_types.specs.Texts.{lists_of};
    ghost use Rattle.wire_spelling.specs.Numbering.{AreSetsDistinct};

    ghost Value = { List (List (List ℕ)) };

    ghost view = { λ n. map (λ v. lists_of v.items) n.table.keys };

    ghost invariant = { λ n. AreSetsDistinct (map (λ v. lists_of v.items) n.table.keys) };
}

impl Numbers {
    /// No lists.
    pub(crate) fn none(alloc: Global) -> Numbers
        ensures { result ≡ [] }
    {
        Numbers {
            table: IndexSet::new(alloc),
        }
    }

    /// No list stands there twice.
    pub(crate) fn are_apart(&self)
        ensures { AreSetsDistinct self.now }
    {
        let _ = &self.table;
    }

    /// The number of a list, which is added if it isn't there.
    fn number(&mut self, items: Vec<Vec<u8>>) -> Result<usize, AllocError>
        ensures there { IfOk result (λ number. slice_get self.new number ≡ Some (lists_of items.items)) }
        ensures kept { OnOk result (KeepsSets self.old self.new) }
    {
        let added = self.table.insert_full(items)?;
        Ok(added.0)
    }

    /// How a call spells a set, by its items.
    fn spelt_by_items(
        &mut self,
        alloc: Global,
        spelled: SpelledSet<'_>,
    ) -> Result<Spelt, AllocError>
        ensures told { IfOk result (λ spelt. IsSetNumbered self.new (set_by spelled.entry) spelt) }
        ensures kept { OnOk result (KeepsSets self.old self.new) }
    {
        let items = ordered_items(alloc, spelled)?;
        let repeats = has_repeats(items.as_slice());
        let number = self.number(items)?;
        Ok(Spelt { number, repeats })
    }

    /// The same, given the sets that are known of its job.
    fn spelt_known(
        &mut self,
        alloc: Global,
        known: &mut KnownSets<'_>,
        spelled: SpelledSet<'_>,
    ) -> Result<Spelt, AllocError>
        requires known { AreKnown self.old known.old }
        requires job { known.old.job.now ≡ spelled.job.now }
        ensures told { IfOk result (λ spelt. IsSetNumbered self.new (set_by spelled.entry) spelt) }
        ensures kept { OnOk result (KeepsSets self.old self.new) }
        ensures known { OnOk result (AreKnown self.new known.new) }
    {
        if let Some(spelt) = known.find(spelled.set) {
            return Ok(spelt);
        }
        let spelt = self.spelt_by_items(alloc, spelled)?;
        known.add(alloc, spelled.set, spelt)?;
        Ok(spelt)
    }

    /// The same, given the sets that are known of some job.
    fn spelt<'a>(
        &mut self,
        alloc: Global,
        known: &mut KnownSets<'a>,
        spelled: SpelledSet<'a>,
    ) -> Result<Spelt, AllocError>
        requires { AreKnown self.old known.old }
        ensures told { IfOk result (λ spelt. IsSetNumbered self.new (set_by spelled.entry) spelt) }
        ensures kept { OnOk result (KeepsSets self.old self.new) }
        ensures known { OnOk result (AreKnown self.new known.new) }
    {
        known.turn_to(alloc, spelled.job);
        self.spelt_known(alloc, known, spelled)
    }

    /// The same of a call, if it is one of a fence.
    pub(crate) fn spelt_call<'a>(
        &mut self,
        alloc: Global,
        known: &mut KnownSets<'a>,
        call: Option<SpelledSet<'a>>,
    ) -> Result<Option<Spelt>, AllocError>
        requires { AreKnown self.old known.old }
        ensures told { IfOk result (λ spelt. IsCallTold self.new (option_map set_by call.entry) spelt) }
        ensures kept { OnOk result (KeepsSets self.old self.new) }
        ensures known { OnOk result (AreKnown self.new known.new) }
    {
        match call {
            Some(spelled) => {
                let spelt = self.spelt(alloc, known, spelled)?;
                Ok(Some(spelt))
            }
            None => Ok(None),
        }
    }
}
