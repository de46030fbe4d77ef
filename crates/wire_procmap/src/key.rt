//! Kinds of keys.

ghost use Rattle.std.specs.Prelude.{◌≡◌, map, IfOk};
ghost use Rattle.wire_procmap.specs.Keys as keys;

use std::alloc::{AllocError, Global};
use wire_scripts::Texts;
use wire_types::is_reserved;

/// What a get of a key asks of the process map.
#[derive(Clone, Copy)]
pub(crate) enum KeyKind {
    /// Nothing: a key of the scripts' own.
    Plain,
    Rank,
    LocalRank,
    NodeRank,
    JobSize,
    Hostname,
    /// A reserved key that the map doesn't answer.
    Other,
}

impl KeyKind {
    /// Whether keys of this kind are reserved.
    pub(crate) fn is_reserved(self) -> bool
        ensures { result ≡ keys.is_reserved_kind self }
    {
        !matches!(self, KeyKind::Plain)
    }
}

/// The kind of a key, by its text.
#[tactic(auto, unfolding(crate::specs::Keys::key_kind))]
fn kind_of(text: &[u8]) -> KeyKind
    ensures { result ≡ keys.key_kind text.now }
{
    if text == b"PMIX_RANK".as_slice() {
        KeyKind::Rank
    } else if text == b"PMIX_LOCAL_RANK".as_slice() {
        KeyKind::LocalRank
    } else if text == b"PMIX_NODE_RANK".as_slice() {
        KeyKind::NodeRank
    } else if text == b"PMIX_JOB_SIZE".as_slice() {
        KeyKind::JobSize
    } else if text == b"PMIX_HOSTNAME".as_slice() {
        KeyKind::Hostname
    } else if is_reserved(text) {
        KeyKind::Other
    } else {
        KeyKind::Plain
    }
}

/// The kind of each key, by the key's number.
pub(crate) fn kinds_of(alloc: Global, texts: &Texts) -> Result<Vec<KeyKind>, AllocError>
    ensures { IfOk result (λ kinds. kinds.items ≡ map keys.key_kind texts.now) }
{
    let count = texts.len();
    let mut kinds = Vec::with_capacity(alloc, count as usize)?;
    for number in 0..count {
        kinds.push(kind_of(texts.text(number)))?;
    }
    Ok(kinds)
}
