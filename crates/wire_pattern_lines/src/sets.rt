//! The processes that a fence names.

ghost use Rattle.std.specs.Prelude.{◌≡◌, ◌≢◌, ◌<◌, ◌++◌, List, ℕ, map, length, codes, true, IfOk, IfSome, IfNone};
ghost use Rattle.std.specs.List.{list_all};
ghost use Rattle.wire_types.specs.Texts.{texts_of};
ghost use Rattle.wire_pattern_lines.specs.Said as spec;
ghost use Rattle.wire_pattern_lines.specs.Said.{spelled_item, spelled_set, is_lawful_item, is_lawful_set};
ghost use Rattle.wire_pattern_lines.specs.Views.{view_item, set_by};

use crate::procs::{Proc, proc_of};
use crate::word::is_bare_name;
use std::alloc::{AllocError, Global};
use wire_lines::{cut_parts, is_text};

/// An item of the set of a fence.
#[derive(Clone, Copy)]
pub enum Item<'a> {
    /// One process, or all of a role.
    One(Proc<'a>),
    /// All processes of a job.
    Every(&'a [u8]),
}

/// The set of a fence.
pub enum Set<'a> {
    /// The processes of the caller's job.
    Own,
    /// Those of the items.
    Listed(Vec<Item<'a>>),
}

// By hand and not derived: so dropping one is a call, and the proof of a function that drops one doesn't take it apart.
impl Drop for Set<'_> {
    fn drop(self) {
        match self {
            Set::Own | Set::Listed(_) => {}
        }
    }
}

/// A word without the colon and the star at its end.
fn before_star(word: &[u8]) -> Option<&[u8]>
    ensures found { IfSome result (λ t. word.now ≡ t.now ++ codes ":*") }
    ensures none { IfNone result ((t : List ℕ) → word.now ≢ t ++ codes ":*") }
{
    let Some((star, front)) = word.split_last() else {
        return None;
    };
    let Some((colon, job)) = front.split_last() else {
        return None;
    };
    if *colon == b':' && *star == b'*' {
        Some(job)
    } else {
        None
    }
}

/// What an item names.
fn item_of(word: &[u8]) -> Option<Item<'_>>
    ensures found { IfSome result
        (λ i. (word.now ≡ spelled_item (view_item i)) × (is_lawful_item (view_item i) ≡ true)) }
    ensures none { IfNone result ((i : spec.Item) → is_lawful_item i ≡ true → word.now ≢ spelled_item i) }
{
    if let Some(proc) = proc_of(word) {
        return Some(Item::One(proc));
    }
    let Some(job) = before_star(word) else {
        return None;
    };
    if is_bare_name(job) {
        Some(Item::Every(job))
    } else {
        None
    }
}

/// The items that the parts are, where each is one.
fn items_of<'a>(alloc: Global, parts: &[&'a [u8]]) -> Result<Option<Vec<Item<'a>>>, AllocError>
    ensures found { IfOk result (λ o. IfSome o (λ v. (map spelled_item (map view_item v.items) ≡ texts_of parts.now)
        × (list_all is_lawful_item (map view_item v.items) ≡ true))) }
    ensures none { IfOk result (λ o. IfNone o ((items : List spec.Item) → list_all is_lawful_item items ≡ true
        → texts_of parts.now ≢ map spelled_item items)) }
{
    let mut items = Vec::with_capacity(alloc, parts.len())?;
    for part in parts {
        let Some(item) = item_of(part) else {
            return Ok(None);
        };
        items.push(item)?;
    }
    Ok(Some(items))
}

/// The set that the word names.
pub fn set_of(alloc: Global, word: &[u8]) -> Result<Option<Set<'_>>, AllocError>
    ensures found { IfOk result (λ o. IfSome o
        (λ s. (word.now ≡ spelled_set (set_by s)) × (is_lawful_set (set_by s) ≡ true))) }
    ensures none { IfOk result (λ o. IfNone o ((s : spec.Set) → is_lawful_set s ≡ true → word.now ≢ spelled_set s)) }
{
    if is_text(word, b"all") {
        return Ok(Some(Set::Own));
    }
    let parts = cut_parts(alloc, word)?;
    match items_of(alloc, &parts)? {
        Some(items) => Ok(Some(Set::Listed(items))),
        None => Ok(None),
    }
}
