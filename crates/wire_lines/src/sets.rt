//! The processes that a fence names.

ghost use Rattle.std.specs.Prelude.{◌≡◌, ◌≢◌, ◌==◌, List, map, [], ◌∷◌, IfOk, IfSome, IfNone};
ghost use Rattle.std.specs.List.{slice_split};
ghost use Rattle.wire_types.specs.Said as spec;
ghost use Rattle.wire_types.specs.Said.{spelled_item, spelled_set, IsLawfulItem, AreLawful, IsLawfulSet};
ghost use Rattle.wire_types.specs.Texts.{texts_of};
ghost use Rattle.wire_lines.specs.Views.{view_item, set_by};

use crate::word::{ProcName, cut_at_colon, is_name, is_text, number_of};
use std::alloc::{AllocError, Global};

/// An item of the set of a fence.
#[derive(Clone, Copy)]
pub enum Item<'a> {
    /// One process.
    One(ProcName<'a>),
    /// All processes of a job.
    Every(&'a [u8]),
}

/// The set of a fence.
pub enum Set<'a> {
    /// The processes of the caller's job.
    Own,
    /// Those of the items.
    Listed(Vec<Item<'a>>),
}

// By hand and not derived: so dropping one is a call, and the proof of a function that drops one doesn't take it apart.
impl Drop for Set<'_> {
    fn drop(self) {
        match self {
            Set::Own | Set::Listed(_) => {}
        }
    }
}

/// What an item names: a job and a rank, or a job and a star.
fn item_of(word: &[u8]) -> Option<Item<'_>>
    ensures found { IfSome result (λ i. (word.now ≡ spelled_item (view_item i)) × IsLawfulItem (view_item i)) }
    ensures none { IfNone result ((i : spec.Item) → IsLawfulItem i → word.now ≢ spelled_item i) }
{
    let Some((job, rank)) = cut_at_colon(word) else {
        return None;
    };
    if !is_name(job) {
        return None;
    }
    if is_text(rank, b"*") {
        return Some(Item::Every(job));
    }
    match number_of(rank) {
        Some(rank) => Some(Item::One(ProcName { job, rank })),
        None => None,
    }
}

/// The parts of a word between its commas.
pub fn cut_parts(alloc: Global, word: &[u8]) -> Result<Vec<&[u8]>, AllocError>
    ensures { IfOk result (λ v. texts_of v.items ≡ slice_split (λ b. b == 44) word.now) }
{
    word.split(
        |b| -> bool
            ensures { result ≡ (b.now == 44) }
        { *b == b',' },
    )
    .collect(alloc)
}

/// The items that the parts are, where each is one.
fn items_of<'a>(alloc: Global, parts: &[&'a [u8]]) -> Result<Option<Vec<Item<'a>>>, AllocError>
    ensures found { IfOk result (λ o. IfSome o (λ v. (map spelled_item (map view_item v.items)
        ≡ texts_of parts.now)
        × AreLawful (map view_item v.items))) }
    ensures none { IfOk result (λ o. IfNone o
        ((items : List spec.Item) → AreLawful items → texts_of parts.now ≢ map spelled_item items)) }
{
    let mut items = Vec::with_capacity(alloc, parts.len())?;
    for part in parts {
        let Some(item) = item_of(part) else {
            return Ok(None);
        };
        items.push(item)?;
    }
    Ok(Some(items))
}

/// The set that the word names.
pub fn set_of(alloc: Global, word: &[u8]) -> Result<Option<Set<'_>>, AllocError>
    ensures found { IfOk result (λ o. IfSome o
        (λ s. (word.now ≡ spelled_set (set_by s)) × IsLawfulSet (set_by s))) }
    ensures none { IfOk result (λ o. IfNone o ((s : spec.Set) → IsLawfulSet s → word.now ≢ spelled_set s)) }
{
    if is_text(word, b"all") {
        return Ok(Some(Set::Own));
    }
    let parts = cut_parts(alloc, word)?;
    match items_of(alloc, &parts)? {
        Some(items) => Ok(Some(Set::Listed(items))),
        None => Ok(None),
    }
}
