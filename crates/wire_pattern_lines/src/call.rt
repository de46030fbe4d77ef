//! What one call line says.

ghost use Rattle.std.specs.Prelude.{[], ◌≡◌, ◌≢◌, ◌↔◌, ℕ, List, ◌∷◌, Bool, true, IsTrue, codes, IfOk, IfSome};
ghost use Rattle.std.specs.Prelude.{IfNone};
ghost use Rattle.wire_types.specs.declared.Scope.{Scope};
ghost use Rattle.wire_types.specs.Said as plan;
ghost use Rattle.wire_types.specs.Said.{spelled_scope, collect_words};
ghost use Rattle.wire_types.specs.Verbs.{text_of_verb};
ghost use Rattle.wire_types.specs.declared.verb.Verb.{Verb};
ghost use Rattle.wire_pattern_lines.specs.Kind.{get_verb, lookup_verb};
ghost use Rattle.wire_types.specs.Texts.{texts_of};
ghost use Rattle.wire_pattern_lines.specs.Said as spec;
ghost use Rattle.wire_pattern_lines.specs.Said.{spelled_proc, spelled_key, spelled_set, first_of_call, others_of_call};
ghost use Rattle.wire_pattern_lines.specs.Said.{is_lawful_proc, is_lawful_key, is_lawful_set, is_lawful_call};
ghost use Rattle.wire_pattern_lines.specs.Views.{proc_by, key_by, view_call};

use crate::key::{Key, key_of};
use crate::procs::{Proc, proc_of};
use crate::sets::{Set, set_of};
use std::alloc::{AllocError, Global};
use wire_lines::{collect_of, is_star_alone, is_word, scope_of};
use wire_types::{Scope, Verb};

/// A call line, with its parts as they stand in the text.
pub enum CallLine<'a> {
    Put {
        scope: Scope,
        key: Key<'a>,
        value: &'a [u8],
    },
    Commit,
    Fence {
        set: Set<'a>,
        collect: bool,
    },
    Get {
        owner: Proc<'a>,
        key: Key<'a>,
    },
    GetNow {
        owner: Proc<'a>,
        key: Key<'a>,
    },
    Publish {
        name: Key<'a>,
        value: &'a [u8],
    },
    Lookup {
        name: Key<'a>,
    },
    LookupWait {
        name: Key<'a>,
    },
    Unpublish {
        name: Key<'a>,
    },
    /// `unpublish *`: of all names that the caller has published.
    UnpublishAll,
}

// By hand and not derived: so dropping one is a call, and the proof of a function that drops one doesn't take it apart.
impl Drop for CallLine<'_> {
    fn drop(self) {
        match self {
            CallLine::Commit | CallLine::UnpublishAll => {}
            CallLine::Put {
                scope: _,
                key: _,
                value: _,
            } => {}
            CallLine::Fence { set: _, collect: _ } => {}
            CallLine::Get { owner: _, key: _ } | CallLine::GetNow { owner: _, key: _ } => {}
            CallLine::Publish { name: _, value: _ } => {}
            CallLine::Lookup { name: _ }
            | CallLine::LookupWait { name: _ }
            | CallLine::Unpublish { name: _ } => {}
        }
    }
}

/// A key that stands alone.
fn key_alone<'a>(alloc: Global, words: &[&'a [u8]]) -> Result<Option<Key<'a>>, AllocError>
    ensures found { IfOk result (λ o. IfSome o
        (λ k. (texts_of words.now ≡ spelled_key (key_by k) ∷ []) × (is_lawful_key (key_by k) ≡ true))) }
    ensures none { IfOk result (λ o. IfNone o
        ((key : spec.Key) → is_lawful_key key ≡ true → texts_of words.now ≢ spelled_key key ∷ [])) }
{
    match words {
        [word] => key_of(alloc, word),
        _ => Ok(None),
    }
}

/// A key and a value.
fn pair_of<'a>(alloc: Global, words: &[&'a [u8]]) -> Result<Option<(Key<'a>, &'a [u8])>, AllocError>
    ensures found { IfOk result (λ o. IfSome o (λ p. (texts_of words.now ≡ spelled_key (key_by p.0) ∷ p.1.now ∷ [])
        × (is_lawful_key (key_by p.0) ≡ true) × (plan.is_word p.1.now ≡ true))) }
    ensures none { IfOk result (λ o. IfNone o ((key : spec.Key) (value : List ℕ) → is_lawful_key key ≡ true
        → plan.is_word value ≡ true → texts_of words.now ≢ spelled_key key ∷ value ∷ [])) }
{
    let [word, value] = words else {
        return Ok(None);
    };
    if !is_word(value) {
        return Ok(None);
    }
    match key_of(alloc, word)? {
        Some(key) => Ok(Some((key, value))),
        None => Ok(None),
    }
}

/// The put, by the words after its verb.
fn put_of<'a>(alloc: Global, words: &[&'a [u8]]) -> Result<Option<CallLine<'a>>, AllocError>
    ensures found { IfOk result (λ o. IfSome o (λ c. (first_of_call (view_call c) ≡ codes "put")
        × (texts_of words.now ≡ others_of_call (view_call c)) × (is_lawful_call (view_call c) ≡ true))) }
    ensures none { IfOk result (λ o. IfNone o ((scope : Scope) (key : spec.Key) (value : List ℕ)
        → is_lawful_key key ≡ true → plan.is_word value ≡ true
        → texts_of words.now ≢ spelled_scope scope ∷ spelled_key key ∷ value ∷ [])) }
{
    let [scope, others @ ..] = words else {
        return Ok(None);
    };
    let Some(scope) = scope_of(scope) else {
        return Ok(None);
    };
    match pair_of(alloc, others)? {
        Some((key, value)) => Ok(Some(CallLine::Put { scope, key, value })),
        None => Ok(None),
    }
}

/// The owner and the key of a get, of either kind.
fn target_of<'a>(
    alloc: Global,
    words: &[&'a [u8]],
) -> Result<Option<(Proc<'a>, Key<'a>)>, AllocError>
    ensures found { IfOk result (λ o. IfSome o
        (λ g. (texts_of words.now ≡ spelled_proc (proc_by g.0) ∷ spelled_key (key_by g.1) ∷ [])
        × (is_lawful_proc (proc_by g.0) ≡ true) × (is_lawful_key (key_by g.1) ≡ true))) }
    ensures none { IfOk result (λ o. IfNone o ((owner : spec.Proc) (key : spec.Key) → is_lawful_proc owner ≡ true
        → is_lawful_key key ≡ true → texts_of words.now ≢ spelled_proc owner ∷ spelled_key key ∷ [])) }
{
    let [target, word] = words else {
        return Ok(None);
    };
    let Some(owner) = proc_of(target) else {
        return Ok(None);
    };
    match key_of(alloc, word)? {
        Some(key) => Ok(Some((owner, key))),
        None => Ok(None),
    }
}

/// The fence, by the words after its verb.
fn fence_of<'a>(alloc: Global, words: &[&'a [u8]]) -> Result<Option<CallLine<'a>>, AllocError>
    ensures found { IfOk result (λ o. IfSome o (λ c. (first_of_call (view_call c) ≡ codes "fence")
        × (texts_of words.now ≡ others_of_call (view_call c)) × (is_lawful_call (view_call c) ≡ true))) }
    ensures none { IfOk result (λ o. IfNone o ((set : spec.Set) (collect : Bool) → is_lawful_set set ≡ true
        → texts_of words.now ≢ spelled_set set ∷ collect_words collect)) }
{
    let [set, others @ ..] = words else {
        return Ok(None);
    };
    let Some(collect) = collect_of(others) else {
        return Ok(None);
    };
    match set_of(alloc, set)? {
        Some(set) => Ok(Some(CallLine::Fence { set, collect })),
        None => Ok(None),
    }
}

/// The end of one publish, or of all, by the words after its verb.
fn unpublish_of<'a>(alloc: Global, words: &[&'a [u8]]) -> Result<Option<CallLine<'a>>, AllocError>
    ensures found { IfOk result (λ o. IfSome o (λ c. (first_of_call (view_call c) ≡ codes "unpublish")
        × (texts_of words.now ≡ others_of_call (view_call c)) × (is_lawful_call (view_call c) ≡ true))) }
    ensures none { IfOk result (λ o. IfNone o ((call : spec.Call) → first_of_call call ≡ codes "unpublish"
        → is_lawful_call call ≡ true → texts_of words.now ≢ others_of_call call)) }
{
    if is_star_alone(words) {
        return Ok(Some(CallLine::UnpublishAll));
    }
    match key_alone(alloc, words)? {
        Some(name) => Ok(Some(CallLine::Unpublish { name })),
        None => Ok(None),
    }
}

/// The get of either kind, by the words after its verb.
fn get_of<'a>(
    alloc: Global,
    is_now: bool,
    words: &[&'a [u8]],
) -> Result<Option<CallLine<'a>>, AllocError>
    ensures found { IfOk result (λ o. IfSome o (λ c. (first_of_call (view_call c) ≡ text_of_verb (get_verb is_now))
        × (texts_of words.now ≡ others_of_call (view_call c)) × (is_lawful_call (view_call c) ≡ true))) }
    ensures none { IfOk result (λ o. IfNone o ((owner : spec.Proc) (key : spec.Key) → is_lawful_proc owner ≡ true
        → is_lawful_key key ≡ true → texts_of words.now ≢ spelled_proc owner ∷ spelled_key key ∷ [])) }
{
    match target_of(alloc, words)? {
        Some((owner, key)) => {
            if is_now {
                Ok(Some(CallLine::GetNow { owner, key }))
            } else {
                Ok(Some(CallLine::Get { owner, key }))
            }
        }
        None => Ok(None),
    }
}

/// The publish, by the words after its verb.
fn publish_of<'a>(alloc: Global, words: &[&'a [u8]]) -> Result<Option<CallLine<'a>>, AllocError>
    ensures found { IfOk result (λ o. IfSome o (λ c. (first_of_call (view_call c) ≡ codes "publish")
        × (texts_of words.now ≡ others_of_call (view_call c)) × (is_lawful_call (view_call c) ≡ true))) }
    ensures none { IfOk result (λ o. IfNone o ((name : spec.Key) (value : List ℕ) → is_lawful_key name ≡ true
        → plan.is_word value ≡ true → texts_of words.now ≢ spelled_key name ∷ value ∷ [])) }
{
    match pair_of(alloc, words)? {
        Some((name, value)) => Ok(Some(CallLine::Publish { name, value })),
        None => Ok(None),
    }
}

/// The lookup of either kind, by the words after its verb.
fn lookup_of<'a>(
    alloc: Global,
    waits: bool,
    words: &[&'a [u8]],
) -> Result<Option<CallLine<'a>>, AllocError>
    ensures found { IfOk result (λ o. IfSome o (λ c. (first_of_call (view_call c) ≡ text_of_verb (lookup_verb waits))
        × (texts_of words.now ≡ others_of_call (view_call c)) × (is_lawful_call (view_call c) ≡ true))) }
    ensures none { IfOk result (λ o. IfNone o ((name : spec.Key) → is_lawful_key name ≡ true
        → texts_of words.now ≢ spelled_key name ∷ [])) }
{
    match key_alone(alloc, words)? {
        Some(name) => {
            if waits {
                Ok(Some(CallLine::LookupWait { name }))
            } else {
                Ok(Some(CallLine::Lookup { name }))
            }
        }
        None => Ok(None),
    }
}

/// The call of a verb, by the words after it.
pub fn call_of<'a>(
    alloc: Global,
    verb: Verb,
    words: &[&'a [u8]],
) -> Result<Option<CallLine<'a>>, AllocError>
    ensures found { IfOk result (λ o. IfSome o (λ c. (first_of_call (view_call c) ≡ text_of_verb verb)
        × (texts_of words.now ≡ others_of_call (view_call c)) × (is_lawful_call (view_call c) ≡ true))) }
    ensures none { IfOk result (λ o. IfNone o ((call : spec.Call) → first_of_call call ≡ text_of_verb verb
        → is_lawful_call call ≡ true → texts_of words.now ≢ others_of_call call)) }
{
    match verb {
        Verb::Put => put_of(alloc, words),
        Verb::Commit => {
            if words.is_empty() {
                Ok(Some(CallLine::Commit))
            } else {
                Ok(None)
            }
        }
        Verb::Fence => fence_of(alloc, words),
        Verb::Get => get_of(alloc, false, words),
        Verb::GetNow => get_of(alloc, true, words),
        Verb::Publish => publish_of(alloc, words),
        Verb::Lookup => lookup_of(alloc, false, words),
        Verb::LookupWait => lookup_of(alloc, true, words),
        Verb::Unpublish => unpublish_of(alloc, words),
    }
}
