//! What one call line says.

ghost use Rattle.std.specs.Prelude.{[], ◌≡◌, ◌≢◌, ℕ, ◌^◌, ◌<◌, ◌↔◌, List, ◌∷◌, Bool, IsTrue, codes, IfOk, IfSome};
ghost use Rattle.std.specs.Prelude.{IfNone};
ghost use Rattle.wire_types.specs.declared.Scope.{Scope};
ghost use Rattle.wire_types.specs.Said as spec;
ghost use Rattle.wire_types.specs.Said.{spelled_proc, spelled_scope, spelled_set, collect_words, IsLawfulSet};
ghost use Rattle.wire_types.specs.Said.{IsLawfulCall};
ghost use Rattle.wire_types.specs.Said.{first_of_call, others_of_call};
ghost use Rattle.wire_lines.specs.Views.{view_call};
ghost use Rattle.wire_types.specs.Verbs.{text_of_verb};
ghost use Rattle.wire_types.specs.declared.verb.Verb.{Verb};
ghost use Rattle.wire_types.specs.Texts.{texts_of};

use crate::sets::{Set, set_of};
use crate::word::{ProcName, is_key, is_text, is_word, proc_of, scope_of};
use std::alloc::{AllocError, Global};
use wire_types::{Scope, Verb};

/// A call line, with its parts as they stand in the text.
pub enum CallLine<'a> {
    Put {
        scope: Scope,
        key: &'a [u8],
        value: &'a [u8],
    },
    Commit,
    Fence {
        set: Set<'a>,
        collect: bool,
    },
    Get {
        owner: ProcName<'a>,
        key: &'a [u8],
    },
    GetNow {
        owner: ProcName<'a>,
        key: &'a [u8],
    },
    Publish {
        name: &'a [u8],
        value: &'a [u8],
    },
    Lookup {
        name: &'a [u8],
    },
    LookupWait {
        name: &'a [u8],
    },
    Unpublish {
        name: &'a [u8],
    },
    /// `unpublish *`: of all names that the caller has published.
    UnpublishAll,
}

// By hand and not derived: so dropping one is a call, and the proof of a function that drops one doesn't take it apart.
impl Drop for CallLine<'_> {
    fn drop(self) {
        match self {
            CallLine::Commit | CallLine::UnpublishAll => {}
            CallLine::Put {
                scope: _,
                key: _,
                value: _,
            } => {}
            CallLine::Fence { set: _, collect: _ } => {}
            CallLine::Get { owner: _, key: _ } | CallLine::GetNow { owner: _, key: _ } => {}
            CallLine::Publish { name: _, value: _ } => {}
            CallLine::Lookup { name: _ }
            | CallLine::LookupWait { name: _ }
            | CallLine::Unpublish { name: _ } => {}
        }
    }
}

/// The verb that the word is.
pub fn verb_of(word: &[u8]) -> Option<Verb>
    ensures found { IfSome result (λ v. word.now ≡ text_of_verb v) }
    ensures none { IfNone result ((v : Verb) → word.now ≢ text_of_verb v) }
{
    match word.len() {
        3 => {
            if is_text(word, b"get") {
                Some(Verb::Get)
            } else if is_text(word, b"put") {
                Some(Verb::Put)
            } else {
                None
            }
        }
        5 if is_text(word, b"fence") => Some(Verb::Fence),
        6 => {
            if is_text(word, b"commit") {
                Some(Verb::Commit)
            } else if is_text(word, b"lookup") {
                Some(Verb::Lookup)
            } else {
                None
            }
        }
        7 => {
            if is_text(word, b"get-now") {
                Some(Verb::GetNow)
            } else if is_text(word, b"publish") {
                Some(Verb::Publish)
            } else {
                None
            }
        }
        9 if is_text(word, b"unpublish") => Some(Verb::Unpublish),
        11 if is_text(word, b"lookup-wait") => Some(Verb::LookupWait),
        _ => None,
    }
}

/// A key that stands alone.
fn key_of<'a>(words: &[&'a [u8]]) -> Option<&'a [u8]>
    ensures found { IfSome result
        (λ k. (texts_of words.now ≡ k.now ∷ []) × IsTrue (spec.is_key k.now)) }
    ensures none { IfNone result
        ((key : List ℕ) → IsTrue (spec.is_key key) → texts_of words.now ≢ key ∷ []) }
{
    match words {
        [key] if is_key(key) => Some(key),
        _ => None,
    }
}

/// A key and a value.
fn pair_of<'a>(words: &[&'a [u8]]) -> Option<(&'a [u8], &'a [u8])>
    ensures found { IfSome result (λ p. (texts_of words.now ≡ p.0.now ∷ p.1.now ∷ [])
        × IsTrue (spec.is_key p.0.now) × IsTrue (spec.is_word p.1.now)) }
    ensures none { IfNone result ((key value : List ℕ) → IsTrue (spec.is_key key) → IsTrue (spec.is_word value)
        → texts_of words.now ≢ key ∷ value ∷ []) }
{
    let [key, value] = words else {
        return None;
    };
    if !is_key(key) {
        return None;
    }
    if is_word(value) {
        Some((key, value))
    } else {
        None
    }
}

/// The put, by the words after its verb.
fn put_of<'a>(words: &[&'a [u8]]) -> Option<CallLine<'a>>
    ensures found { IfSome result (λ c. (first_of_call (view_call c) ≡ codes "put")
        × (texts_of words.now ≡ others_of_call (view_call c)) × IsLawfulCall (view_call c)) }
    ensures none { IfNone result ((scope : Scope) (key value : List ℕ) → IsTrue (spec.is_key key)
        → IsTrue (spec.is_word value)
        → texts_of words.now ≢ spelled_scope scope ∷ key ∷ value ∷ []) }
{
    let [scope, others @ ..] = words else {
        return None;
    };
    let Some((key, value)) = pair_of(others) else {
        return None;
    };
    match scope_of(scope) {
        Some(scope) => Some(CallLine::Put { scope, key, value }),
        None => None,
    }
}

/// The owner and the key of a get, of either kind.
fn target_of<'a>(words: &[&'a [u8]]) -> Option<(ProcName<'a>, &'a [u8])>
    ensures found { IfSome result (λ g. (texts_of words.now
        ≡ spelled_proc g.0.job.now g.0.rank ∷ g.1.now ∷ [])
        × IsTrue (spec.is_name g.0.job.now) × (g.0.rank < 10 ^ 9) × IsTrue (spec.is_key g.1.now)) }
    ensures none { IfNone result ((job : List ℕ) (rank : ℕ) (key : List ℕ) → IsTrue (spec.is_name job)
        → rank < 10 ^ 9
        → IsTrue (spec.is_key key) → texts_of words.now ≢ spelled_proc job rank ∷ key ∷ []) }
{
    let [target, key] = words else {
        return None;
    };
    if !is_key(key) {
        return None;
    }
    match proc_of(target) {
        Some(owner) => Some((owner, key)),
        None => None,
    }
}

/// Whether a fence collects, by the words after its set.
pub fn collect_of(words: &[&[u8]]) -> Option<bool>
    ensures found { IfSome result (λ c. texts_of words.now ≡ collect_words c) }
    ensures none { IfNone result ((collect : Bool) → texts_of words.now ≢ collect_words collect) }
{
    match words {
        [] => Some(false),
        [word] if is_text(word, b"collect") => Some(true),
        _ => None,
    }
}

/// Whether the only word is a star.
pub fn is_star_alone(words: &[&[u8]]) -> bool
    ensures { IsTrue result ↔ (texts_of words.now ≡ codes "*" ∷ []) }
{
    match words {
        [word] => is_text(word, b"*"),
        _ => false,
    }
}

/// The fence, by the words after its verb.
fn fence_of<'a>(alloc: Global, words: &[&'a [u8]]) -> Result<Option<CallLine<'a>>, AllocError>
    ensures found { IfOk result (λ o. IfSome o (λ c. (first_of_call (view_call c) ≡ codes "fence")
        × (texts_of words.now ≡ others_of_call (view_call c)) × IsLawfulCall (view_call c))) }
    ensures none { IfOk result (λ o. IfNone o ((set : spec.Set) (collect : Bool) → IsLawfulSet set
        → texts_of words.now ≢ spelled_set set ∷ collect_words collect)) }
{
    let [set, others @ ..] = words else {
        return Ok(None);
    };
    let Some(collect) = collect_of(others) else {
        return Ok(None);
    };
    match set_of(alloc, set)? {
        Some(set) => Ok(Some(CallLine::Fence { set, collect })),
        None => Ok(None),
    }
}

/// The end of one publish, or of all, by the words after its verb.
fn unpublish_of<'a>(words: &[&'a [u8]]) -> Option<CallLine<'a>>
    ensures found { IfSome result (λ c. (first_of_call (view_call c) ≡ codes "unpublish")
        × (texts_of words.now ≡ others_of_call (view_call c)) × IsLawfulCall (view_call c)) }
    ensures none { IfNone result ((call : spec.Call) → first_of_call call ≡ codes "unpublish"
        → IsLawfulCall call → texts_of words.now ≢ others_of_call call) }
{
    if is_star_alone(words) {
        return Some(CallLine::UnpublishAll);
    }
    match key_of(words) {
        Some(name) => Some(CallLine::Unpublish { name }),
        None => None,
    }
}

/// The call of a verb, by the words after it.
pub fn call_of<'a>(
    alloc: Global,
    verb: Verb,
    words: &[&'a [u8]],
) -> Result<Option<CallLine<'a>>, AllocError>
    ensures found { IfOk result (λ o. IfSome o (λ c. (first_of_call (view_call c) ≡ text_of_verb verb)
        × (texts_of words.now ≡ others_of_call (view_call c)) × IsLawfulCall (view_call c))) }
    ensures none { IfOk result (λ o. IfNone o ((call : spec.Call) → first_of_call call ≡ text_of_verb verb
        → IsLawfulCall call
        → texts_of words.now ≢ others_of_call call)) }
{
    match verb {
        Verb::Put => Ok(put_of(words)),
        Verb::Commit => {
            if words.is_empty() {
                Ok(Some(CallLine::Commit))
            } else {
                Ok(None)
            }
        }
        Verb::Fence => fence_of(alloc, words),
        Verb::Get => match target_of(words) {
            Some((owner, key)) => Ok(Some(CallLine::Get { owner, key })),
            None => Ok(None),
        },
        Verb::GetNow => match target_of(words) {
            Some((owner, key)) => Ok(Some(CallLine::GetNow { owner, key })),
            None => Ok(None),
        },
        Verb::Publish => match pair_of(words) {
            Some((name, value)) => Ok(Some(CallLine::Publish { name, value })),
            None => Ok(None),
        },
        Verb::Lookup => match key_of(words) {
            Some(name) => Ok(Some(CallLine::Lookup { name })),
            None => Ok(None),
        },
        Verb::LookupWait => match key_of(words) {
            Some(name) => Ok(Some(CallLine::LookupWait { name })),
            None => Ok(None),
        },
        Verb::Unpublish => Ok(unpublish_of(words)),
    }
}
