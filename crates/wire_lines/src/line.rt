//! What one line says.

ghost use Rattle.std.specs.Prelude.{[], ◌≡◌, ◌≢◌, ℕ, List, ◌∷◌, IsTrue, map, IfOk, IfSome, IfNone};
ghost use Rattle.wire_types.specs.Said as spec;
ghost use Rattle.wire_types.specs.Said.{Said, Header, Says, IsLawfulLine, first_word, other_words};
ghost use Rattle.wire_types.specs.Verbs.{text_of_verb};
ghost use Rattle.wire_lines.specs.Views.{said_by};
ghost use Rattle.wire_lines.specs.Kind.{text_of};
ghost use Rattle.wire_lines.specs.Once.{SaysOnce};
ghost use Rattle.wire_lines.specs.declared.line.Kind.{Kind};
ghost use Rattle.wire_types.specs.declared.version.Version.{Version};
ghost use Rattle.wire_types.specs.Texts.{texts_of};

use crate::call::{CallLine, call_of, verb_of};
use crate::word::{is_name, is_text};
use std::alloc::{AllocError, Global};
use wire_types::{Verb, Version};

/// A line, with its parts as they stand in the text.
#[derive(Drop)]
pub enum Line<'a> {
    Header(Version),
    /// What a get brings to a node stays there.
    Keep,
    Node(&'a [u8]),
    Job(&'a [u8]),
    /// A process, with the name of its node.
    Rank(&'a [u8]),
    Calls(CallLine<'a>),
}

/// A name that stands alone.
fn name_of<'a>(words: &[&'a [u8]]) -> Option<&'a [u8]>
    ensures found { IfSome result
        (λ n. (texts_of words.now ≡ n.now ∷ []) × IsTrue (spec.is_name n.now)) }
    ensures none { IfNone result
        ((name : List ℕ) → IsTrue (spec.is_name name) → texts_of words.now ≢ name ∷ []) }
{
    match words {
        [name] if is_name(name) => Some(name),
        _ => None,
    }
}

/// The version that a word says.
fn version_said(word: &[u8]) -> Option<Version>
    ensures found { IfSome result (λ v. word.now ≡ spec.spelled_version v) }
    ensures none { IfNone result ((v : Version) → word.now ≢ spec.spelled_version v) }
{
    if is_text(word, b"1") {
        Some(Version::One)
    } else if is_text(word, b"2") {
        Some(Version::Two)
    } else {
        None
    }
}

/// The version of a header, by the words after its first.
fn version_in(words: &[&[u8]]) -> Option<Version>
    ensures found { IfSome result (λ v. texts_of words.now ≡ spec.spelled_version v ∷ []) }
    ensures none { IfNone result ((v : Version) → texts_of words.now ≢ spec.spelled_version v ∷ []) }
{
    match words {
        [version] => version_said(version),
        _ => None,
    }
}

/// The line `keep`, by the words after its first: there are none.
fn keep_in<'a>(words: &[&[u8]]) -> Option<Line<'a>>
    ensures found { IfSome result (λ l. (words.now ≡ []) × (said_by l ≡ spec.Keep)) }
    ensures none { IfNone result (words.now ≢ []) }
{
    if words.is_empty() {
        Some(Line::Keep)
    } else {
        None
    }
}

/// What a line is, by its first word.
#[derive(Clone, Copy)]
enum Kind {
    Header,
    Keep,
    Node,
    Job,
    Rank,
    Calls(Verb),
}

/// The kind of a line by its first word, if there is one.
fn kind_of(word: &[u8]) -> Option<Kind>
    ensures found { IfSome result (λ k. word.now ≡ text_of k) }
    ensures none { IfNone result ((k : Kind) → word.now ≢ text_of k) }
{
    if let Some(verb) = verb_of(word) {
        return Some(Kind::Calls(verb));
    }
    if is_text(word, b"rank") {
        Some(Kind::Rank)
    } else if is_text(word, b"node") {
        Some(Kind::Node)
    } else if is_text(word, b"keep") {
        Some(Kind::Keep)
    } else if is_text(word, b"job") {
        Some(Kind::Job)
    } else if is_text(word, b"rehearsal") {
        Some(Kind::Header)
    } else {
        None
    }
}

/// The version of the header whose words these are, or nothing where they are none. Takes no memory.
pub fn header_version(words: &[&[u8]]) -> Option<Version>
    ensures found { IfSome result (λ v. Says (texts_of words.now) (Header v)) }
    ensures none { IfNone result ((v : Version) → Says (texts_of words.now) (Header v) → ⊥) }
{
    let [first, others @ ..] = words else {
        return None;
    };
    if is_text(first, b"rehearsal") {
        version_in(others)
    } else {
        None
    }
}

/// The line of a call, by its verb and the words after it.
fn call_in<'a>(
    alloc: Global,
    verb: Verb,
    words: &[&'a [u8]],
) -> Result<Option<Line<'a>>, AllocError>
    ensures found { IfOk result (λ o. IfSome o (λ l. (first_word (said_by l) ≡ text_of_verb verb)
        × (texts_of words.now ≡ other_words (said_by l)) × IsLawfulLine (said_by l))) }
    ensures none { IfOk result (λ o. IfNone o ((said : Said) → first_word said ≡ text_of_verb verb
        → IsLawfulLine said → texts_of words.now ≢ other_words said)) }
{
    match call_of(alloc, verb, words)? {
        Some(call) => Ok(Some(Line::Calls(call))),
        None => Ok(None),
    }
}

/// The line of a kind, by the words after its first.
fn line_of<'a>(
    alloc: Global,
    kind: Kind,
    words: &[&'a [u8]],
) -> Result<Option<Line<'a>>, AllocError>
    ensures found { IfOk result (λ o. IfSome o (λ l. (first_word (said_by l) ≡ text_of kind)
        × (texts_of words.now ≡ other_words (said_by l)) × IsLawfulLine (said_by l))) }
    ensures none { IfOk result (λ o. IfNone o ((said : Said) → first_word said ≡ text_of kind
        → IsLawfulLine said → texts_of words.now ≢ other_words said)) }
{
    match kind {
        Kind::Header => match version_in(words) {
            Some(version) => Ok(Some(Line::Header(version))),
            None => Ok(None),
        },
        Kind::Keep => Ok(keep_in(words)),
        Kind::Node => Ok(name_of(words).map(Line::Node)),
        Kind::Job => Ok(name_of(words).map(Line::Job)),
        Kind::Rank => Ok(name_of(words).map(Line::Rank)),
        Kind::Calls(verb) => call_in(alloc, verb, words),
    }
}

/// What the words of a line say, or nothing where they are none of the lines of a file.
pub fn read_line<'a>(alloc: Global, words: &[&'a [u8]]) -> Result<Option<Line<'a>>, AllocError>
    ensures found { IfOk result (λ o. IfSome o (λ l. Says (texts_of words.now) (said_by l))) }
    ensures none { IfOk result (λ o. IfNone o ((said : Said) → Says (texts_of words.now) said → ⊥)) }
{
    let [first, others @ ..] = words else {
        return Ok(None);
    };
    match kind_of(first) {
        Some(kind) => line_of(alloc, kind, others),
        None => Ok(None),
    }
}

/// A law: the words of a line say at most one thing.
pub fn says_once()
    ensures { SaysOnce }
{}
