//! The nearest word that may be meant where a line is wrong.

ghost use Rattle.std.specs.Prelude.{◌≡◌, option_map, slice_get, IfOk};
ghost use Rattle.std.specs.List.{list_any};
ghost use Rattle.std.specs.Str.{bytes_eq};
ghost use Rattle.wire_types.specs.Texts.{texts_of};
ghost use Rattle.wire_explain.specs.Format as format;
ghost use Rattle.wire_explain.specs.Place as there;
ghost use Rattle.wire_explain.specs.Hint as spec;
ghost use Rattle.wire_explain.specs.Hint.{IsHintFor};

use crate::format::format_words;
use crate::language::Language;
use crate::line_places::{first_in, words_at};
use crate::near::find_nearest;
use std::alloc::{AllocError, Global};
use wire_types::Fault;

/// The word at a place of a line, from 0.
fn word_in<'a>(words: &[&'a [u8]], place: usize) -> Option<&'a [u8]>
    ensures { option_map (λ w. w.now) result ≡ slice_get (texts_of words.now) place }
{
    match words.get(place) {
        Some(word) => Some(*word),
        None => None,
    }
}

/// Whether a word is one of some words.
fn is_among(word: &[u8], words: &[&[u8]]) -> bool
    ensures { result ≡ list_any (bytes_eq word.now) (texts_of words.now) }
{
    for other in words {
        if word == *other {
            return true;
        }
    }
    false
}

/// The nearest of the words that the format has at a place, where a word stands there that is none of them.
fn hint_for<'a>(known: &[&'a [u8]], word: Option<&[u8]>) -> Option<&'a [u8]>
    ensures { IsHintFor (texts_of known.now) (option_map (λ w. w.now) word.entry) (option_map (λ w. w.now) result) }
{
    match word {
        Some(word) if !is_among(word, known) => find_nearest(word, known),
        _ => None,
    }
}

/// The nearest of the words that may be meant in a line that isn't one of the format.
fn hint_of_line(
    alloc: Global,
    language: Language,
    words: &[&[u8]],
) -> Result<Option<&'static [u8]>, AllocError>
    ensures { IfOk result (λ hint. IsHintFor (format.choices language (there.first_in (texts_of words.now)))
        (slice_get (texts_of words.now) (format.choice_place (there.first_in (texts_of words.now)))) (option_map (λ w. w.now) hint)) }
{
    let first = first_in(words);
    if first == b"put".as_slice() {
        let scopes = [
            b"local".as_slice(),
            b"remote".as_slice(),
            b"global".as_slice(),
        ];
        return Ok(hint_for(&scopes, word_in(words, 1)));
    }
    if first == b"fence".as_slice() {
        return Ok(hint_for(&[b"collect".as_slice()], word_in(words, 2)));
    }
    let known = format_words(alloc, language)?;
    Ok(hint_for(known.as_slice(), word_in(words, 0)))
}

/// The first word of a file.
fn header_word(language: Language) -> &'static str
    ensures { result.now ≡ spec.header_word language }
{
    match language {
        Language::Plan => "rehearsal",
        Language::Pattern => "pattern",
    }
}

/// The nearest of the words that may be meant, where a file has this fault.
pub(crate) fn hint_of(
    alloc: Global,
    language: Language,
    bytes: &[u8],
    fault: Fault,
) -> Result<Option<&'static [u8]>, AllocError>
    ensures { IfOk result (λ hint. IsHintFor (spec.known language bytes.now fault) (spec.doubtful bytes.now fault) (option_map (λ w. w.now) hint)) }
{
    match fault {
        Fault::BadHeader(line) => {
            let words = words_at(alloc, bytes, line)?;
            let known = [header_word(language).as_bytes()];
            Ok(hint_for(&known, word_in(words.as_slice(), 0)))
        }
        Fault::BadLine(line) => {
            let words = words_at(alloc, bytes, line)?;
            hint_of_line(alloc, language, words.as_slice())
        }
        _ => Ok(None),
    }
}
