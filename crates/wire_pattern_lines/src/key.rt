//! Keys and names: a base, and the processes that index it.

ghost use Rattle.std.specs.Prelude.{◌≡◌, ◌≢◌, ◌==◌, ◌++◌, ◌∷◌, [], List, ℕ, not, position, true, IfOk, IfSome, IfNone};
ghost use Rattle.std.specs.List.{list_all};
ghost use Rattle.wire_pattern_lines.specs.Said as spec;
ghost use Rattle.wire_pattern_lines.specs.Said.{spelled_key, is_lawful_key};
ghost use Rattle.wire_pattern_lines.specs.Views.{key_by};

use crate::procs::{Proc, procs_in};
use crate::word::is_base;
use std::alloc::{AllocError, Global};

/// A key or a name.
pub struct Key<'a> {
    pub base: &'a [u8],
    pub indices: Vec<Proc<'a>>,
}

// By hand and not derived: so dropping one is a call, and the proof of a function that drops one doesn't take it apart.
impl Drop for Key<'_> {
    fn drop(self) {
        let Key {
            base: _,
            indices: _,
        } = self;
    }
}

/// The place of the first opening bracket.
fn bracket(word: &[u8]) -> Option<usize>
    ensures { result ≡ position (λ b. b == 91) word.now }
{
    word.iter().position(|b| *b == b'[')
}

/// What stands before the first opening bracket and after it.
fn cut_at_bracket(word: &[u8]) -> Option<(&[u8], &[u8])>
    ensures found { IfSome result (λ p. word.now ≡ p.0.now ++ 91 ∷ p.1.now) }
    ensures first { IfSome result (λ p. list_all (λ b. not (b == 91)) p.0.now ≡ true) }
    ensures none { IfNone result ((a b : List ℕ) → word.now ≢ a ++ 91 ∷ b) }
{
    match bracket(word) {
        Some(at) => Some((&word[..at], &word[at + 1..])),
        None => None,
    }
}

/// A text without the closing bracket at its end.
fn before_closing(text: &[u8]) -> Option<&[u8]>
    ensures found { IfSome result (λ t. text.now ≡ t.now ++ 93 ∷ []) }
    ensures none { IfNone result ((t : List ℕ) → text.now ≢ t ++ 93 ∷ []) }
{
    match text.split_last() {
        Some((last, front)) if *last == b']' => Some(front),
        _ => None,
    }
}

/// The key that is the word, where nothing indexes it.
fn plain_key(alloc: Global, word: &[u8]) -> Option<Key<'_>>
    requires { (a b : List ℕ) → word.now ≢ a ++ 91 ∷ b }
    ensures found { IfSome result (λ k. (word.now ≡ spelled_key (key_by k)) × (is_lawful_key (key_by k) ≡ true)) }
    ensures none { IfNone result ((k : spec.Key) → is_lawful_key k ≡ true → word.now ≢ spelled_key k) }
{
    if is_base(word) {
        Some(Key {
            base: word,
            indices: Vec::new(alloc),
        })
    } else {
        None
    }
}

/// The key of this base, where this text follows its opening bracket.
fn indexed_key<'a>(
    alloc: Global,
    base: &'a [u8],
    text: &'a [u8],
) -> Result<Option<Key<'a>>, AllocError>
    requires { list_all (λ b. not (b == 91)) base.now ≡ true }
    ensures found { IfOk result (λ o. IfSome o (λ k. (base.now ++ 91 ∷ text.now ≡ spelled_key (key_by k))
        × (is_lawful_key (key_by k) ≡ true))) }
    ensures none { IfOk result (λ o. IfNone o ((k : spec.Key) → is_lawful_key k ≡ true
        → base.now ++ 91 ∷ text.now ≢ spelled_key k)) }
{
    if !is_base(base) {
        return Ok(None);
    }
    let Some(inner) = before_closing(text) else {
        return Ok(None);
    };
    match procs_in(alloc, inner)? {
        Some(indices) => Ok(Some(Key { base, indices })),
        None => Ok(None),
    }
}

/// The key that the word is.
pub fn key_of(alloc: Global, word: &[u8]) -> Result<Option<Key<'_>>, AllocError>
    ensures found { IfOk result (λ o. IfSome o
        (λ k. (word.now ≡ spelled_key (key_by k)) × (is_lawful_key (key_by k) ≡ true))) }
    ensures none { IfOk result (λ o. IfNone o
        ((k : spec.Key) → is_lawful_key k ≡ true → word.now ≢ spelled_key k)) }
{
    match cut_at_bracket(word) {
        Some((base, text)) => indexed_key(alloc, base, text),
        None => Ok(plain_key(alloc, word)),
    }
}
