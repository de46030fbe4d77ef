//! The processes that a word names.

ghost use Rattle.std.specs.Prelude.{◌≡◌, ◌≢◌, ◌<◌, List, map, length, true, IfOk, IfSome, IfNone};
ghost use Rattle.std.specs.List.{list_all, join_with_byte};
ghost use Rattle.wire_types.specs.Texts.{texts_of};
ghost use Rattle.wire_pattern_lines.specs.Said as spec;
ghost use Rattle.wire_pattern_lines.specs.Said.{spelled_proc, is_lawful_proc};
ghost use Rattle.wire_pattern_lines.specs.Views.{proc_by};

use crate::word::is_role_name;
use std::alloc::{AllocError, Global};
use wire_lines::{cut_parts, is_text};

/// A process as a word names it.
#[derive(Clone, Copy)]
pub enum Proc<'a> {
    /// `self`.
    Caller,
    /// `each`.
    Each,
    /// The process of a role, by its name.
    Named(&'a [u8]),
}

/// The process that the word names.
pub fn proc_of(word: &[u8]) -> Option<Proc<'_>>
    ensures found { IfSome result
        (λ p. (word.now ≡ spelled_proc (proc_by p)) × (is_lawful_proc (proc_by p) ≡ true)) }
    ensures none { IfNone result
        ((p : spec.Proc) → is_lawful_proc p ≡ true → word.now ≢ spelled_proc p) }
{
    if is_text(word, b"self") {
        Some(Proc::Caller)
    } else if is_text(word, b"each") {
        Some(Proc::Each)
    } else if is_role_name(word) {
        Some(Proc::Named(word))
    } else {
        None
    }
}

/// The processes that the parts are, where each is one.
fn procs_of<'a>(alloc: Global, parts: &[&'a [u8]]) -> Result<Option<Vec<Proc<'a>>>, AllocError>
    ensures found { IfOk result (λ o. IfSome o (λ v. (map spelled_proc (map proc_by v.items) ≡ texts_of parts.now)
        × (list_all is_lawful_proc (map proc_by v.items) ≡ true))) }
    ensures none { IfOk result (λ o. IfNone o ((procs : List spec.Proc) → list_all is_lawful_proc procs ≡ true
        → texts_of parts.now ≢ map spelled_proc procs)) }
{
    let mut procs = Vec::with_capacity(alloc, parts.len())?;
    for part in parts {
        let Some(proc) = proc_of(part) else {
            return Ok(None);
        };
        procs.push(proc)?;
    }
    Ok(Some(procs))
}

/// The processes that a text lists.
pub fn procs_in(alloc: Global, text: &[u8]) -> Result<Option<Vec<Proc<'_>>>, AllocError>
    ensures found { IfOk result (λ o. IfSome o (λ v. (text.now ≡ join_with_byte 44 (map spelled_proc (map proc_by v.items)))
        × (0 < length v.items) × (list_all is_lawful_proc (map proc_by v.items) ≡ true))) }
    ensures none { IfOk result (λ o. IfNone o ((procs : List spec.Proc) → 0 < length procs
        → list_all is_lawful_proc procs ≡ true → text.now ≢ join_with_byte 44 (map spelled_proc procs))) }
{
    let parts = cut_parts(alloc, text)?;
    procs_of(alloc, &parts)
}
