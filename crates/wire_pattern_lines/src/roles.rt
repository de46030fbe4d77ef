//! The roles that a loop lists.

ghost use Rattle.std.specs.Prelude.{◌≡◌, ◌≢◌, ℕ, List, true, IfOk, IfSome, IfNone};
ghost use Rattle.std.specs.List.{list_all, join_with_byte};
ghost use Rattle.wire_types.specs.Texts.{texts_of};
ghost use Rattle.wire_pattern_lines.specs.Said as spec;

use crate::word::is_role_name;
use std::alloc::{AllocError, Global};
use wire_lines::cut_parts;

/// Whether each of these may name a role.
fn may_name_roles(words: &[&[u8]]) -> bool
    ensures { result ≡ list_all (λ w. spec.is_role_name w.now) words.now }
{
    words.iter().all(|word| is_role_name(word))
}

/// The roles that a word lists.
pub fn roles_in(alloc: Global, word: &[u8]) -> Result<Option<Vec<&[u8]>>, AllocError>
    ensures found { IfOk result (λ o. IfSome o (λ v. (word.now ≡ join_with_byte 44 (texts_of v.items))
        × (spec.are_role_names (texts_of v.items) ≡ true))) }
    ensures none { IfOk result (λ o. IfNone o ((roles : List (List ℕ)) → spec.are_role_names roles ≡ true
        → word.now ≢ join_with_byte 44 roles)) }
{
    let parts = cut_parts(alloc, word)?;
    if may_name_roles(&parts) {
        Ok(Some(parts))
    } else {
        Ok(None)
    }
}
