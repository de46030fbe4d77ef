//! The calls of a plan's text, and how those of fences spell their sets.

ghost use Rattle.std.specs.Prelude.{◌≡◌, None, IfOk, IsTrue};
ghost use Rattle.std.specs.Str.Lines.{strip_carriage_return};
ghost use Rattle.std.specs.Str.{bytes_eq};
ghost use Rattle.wire_types.specs.Texts.{texts_of};
ghost use Rattle.wire_lines.specs.Text.{words_of};
ghost use Rattle.wire_spelling.specs.Spelling as spec;
ghost use Rattle.wire_spelling.specs.Spelled.{said_by, word_by};
ghost use Rattle.wire_spelling.specs.Spelled as spelt;

use std::alloc::AllocError;
use wire_lines::{cut_words, trim_return};

/// A set as a call spells it, and the job of the caller.
#[derive(Clone, Copy)]
pub(crate) struct SpelledSet<'a> {
    pub job: &'a [u8],
    pub set: &'a [u8],
}

/// What a line says of calls.
#[derive(Clone, Copy)]
pub(crate) enum Said<'a> {
    /// Nothing.
    Nothing,
    /// The calls of the next process follow.
    Rank,
    /// The calls that follow are of this job.
    Job(&'a [u8]),
    /// It is a call, that of a fence with its set.
    Call(Option<&'a [u8]>),
}

/// Whether a word is this text.
pub(crate) fn is_word(word: &[u8], text: &[u8]) -> bool
    ensures { result ≡ bytes_eq word.now text.now }
{
    word == text
}

/// Whether a line with this first word is a note.
fn is_note(word: &[u8]) -> bool
    ensures { result ≡ spec.is_note word.now }
{
    word.first() == Some(&b'#')
}

/// Whether it says something of the whole plan.
fn is_header(word: &[u8]) -> bool
    ensures { result ≡ spec.is_header word.now }
{
    is_word(word, b"rehearsal") || is_word(word, b"keep") || is_word(word, b"node")
}

/// The first of these words, or an empty one.
fn first_of<'a>(words: &[&'a [u8]]) -> &'a [u8]
    ensures { result.now ≡ spec.first_of (texts_of words.now) }
{
    match words.first() {
        Some(word) => *word,
        None => b"".as_slice(),
    }
}

/// The set of a call, by its first word and its other words, if it is one of a fence.
fn set_in<'a>(verb: &[u8], words: &[&'a [u8]]) -> Option<&'a [u8]>
    ensures { word_by result ≡ spec.set_in verb.now (texts_of words.now) }
{
    if is_word(verb, b"fence") {
        words.first().copied()
    } else {
        None
    }
}

/// What a line says, by its first word and its other words.
fn said_with<'a>(word: &'a [u8], words: &[&'a [u8]]) -> Said<'a>
    ensures { said_by result ≡ spec.said_with word.now (texts_of words.now) }
{
    if is_note(word) || is_header(word) {
        return Said::Nothing;
    }
    if is_word(word, b"rank") {
        return Said::Rank;
    }
    if is_word(word, b"job") {
        return Said::Job(first_of(words));
    }
    Said::Call(set_in(word, words))
}

/// What the words of a line say.
fn said_of<'a>(words: &[&'a [u8]]) -> Said<'a>
    ensures { said_by result ≡ spec.said_of (texts_of words.now) }
{
    match words {
        [word, others @ ..] => said_with(*word, others),
        [] => Said::Nothing,
    }
}

/// Whether a line that begins with this byte is a call, and not one of a fence: those of `commit`, `get`, `lookup`, `put`,
/// `unpublish` and the like.
fn begins_call(byte: u8) -> bool
    ensures { IsTrue result → spelt.BeginsPlainCall byte }
{
    byte == b'c' || byte == b'g' || byte == b'l' || byte == b'p' || byte == b'u'
}

/// Whether a line is a call that isn't one of a fence, as its first byte tells of most.
fn is_plain_call(line: &[u8]) -> bool
    ensures { IsTrue result → spec.said_of (words_of (strip_carriage_return line.now)) ≡ spec.Call None }
{
    match line {
        [byte, ..] => begins_call(*byte),
        [] => false,
    }
}

/// What a line says. The list is only room for its words: it is filled anew where the line has to be cut, as most needn't
/// be.
pub(crate) fn said_in<'a>(words: &mut Vec<&'a [u8]>, line: &'a [u8]) -> Result<Said<'a>, AllocError>
    ensures { IfOk result (λ said. said_by said ≡ spec.said_of (words_of (strip_carriage_return line.now))) }
{
    if is_plain_call(line) {
        return Ok(Said::Call(None));
    }
    cut_words(words, trim_return(line))?;
    Ok(said_of(words.as_slice()))
}
