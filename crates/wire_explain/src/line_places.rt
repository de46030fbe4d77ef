//! Where a line of a file stands.

ghost use Rattle.std.specs.Prelude.{◌≡◌, IfOk};
ghost use Rattle.wire_types.specs.Texts.{texts_of};
ghost use Rattle.wire_lines.specs.Text.{words_of};
ghost use Rattle.wire_explain.specs.Place as spec;

use crate::language::Language;
use crate::quote::find_line;
use std::alloc::{AllocError, Global};
use wire_lines::cut_words;
use wire_reader::Cursor;

/// What stands above a line.
#[derive(Clone, Copy)]
pub enum Place {
    /// No job.
    Opening,
    /// A job, and no rank of it.
    InJob,
    /// A rank, or a role.
    InRank,
    /// A loop that isn't ended.
    InLoop,
}

/// The first of some words, empty where there is none.
pub(crate) fn first_in<'a>(words: &[&'a [u8]]) -> &'a [u8]
    ensures { result.now ≡ spec.first_in (texts_of words.now) }
{
    match words {
        [first, ..] => first,
        _ => b"".as_slice(),
    }
}

/// The words of a line.
fn words_in<'a>(alloc: Global, line: &'a [u8]) -> Result<Vec<&'a [u8]>, AllocError>
    ensures { IfOk result (λ words. texts_of words.items ≡ words_of line.entry.now) }
{
    let mut words = Vec::new(alloc);
    cut_words(&mut words, line)?;
    Ok(words)
}

/// The words of the line of this number.
pub(crate) fn words_at<'a>(
    alloc: Global,
    bytes: &'a [u8],
    number: u64,
) -> Result<Vec<&'a [u8]>, AllocError>
    ensures { IfOk result (λ words. texts_of words.items ≡ spec.words_at bytes.entry.now number) }
{
    match find_line(bytes, number) {
        Some(line) => words_in(alloc, line),
        None => Ok(Vec::new(alloc)),
    }
}

/// What stands after a line of a plan that begins with this word.
fn place_in_plan(place: Place, word: &[u8]) -> Place
    ensures { result ≡ spec.place_in_plan place word.now }
{
    if word == b"job".as_slice() {
        Place::InJob
    } else if word == b"rank".as_slice() {
        Place::InRank
    } else {
        place
    }
}

/// Whether a line of a pattern that begins with this word begins a role, or ends a loop.
fn leads_to_role(word: &[u8]) -> bool
    ensures { result ≡ spec.leads_to_role word.now }
{
    word == b"one".as_slice() || word == b"many".as_slice() || word == b"end".as_slice()
}

/// What stands after a line of a pattern that begins with this word.
fn place_in_pattern(place: Place, word: &[u8]) -> Place
    ensures { result ≡ spec.place_in_pattern place word.now }
{
    if word == b"job".as_slice() {
        Place::InJob
    } else if leads_to_role(word) {
        Place::InRank
    } else if word == b"for".as_slice() {
        Place::InLoop
    } else {
        place
    }
}

/// What stands after a line that begins with this word.
fn place_after(language: Language, place: Place, word: &[u8]) -> Place
    ensures { result ≡ spec.place_after language place word.now }
{
    match language {
        Language::Plan => place_in_plan(place, word),
        Language::Pattern => place_in_pattern(place, word),
    }
}

/// Where the line of this number stands.
pub(crate) fn place_of(
    alloc: Global,
    language: Language,
    bytes: &[u8],
    number: u64,
) -> Result<Place, AllocError>
    ensures { IfOk result (λ place. place ≡ spec.place_of language bytes.now number) }
{
    let mut place = Place::Opening;
    let mut cursor = Cursor::new(bytes);
    let mut words = Vec::new(alloc);
    'lines: while let Some(line) = cursor.next_words(&mut words)? {
        if line >= number {
            break;
        }
        place = place_after(language, place, first_in(words.as_slice()));
    }
    Ok(place)
}
