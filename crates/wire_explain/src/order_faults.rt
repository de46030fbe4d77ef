//! Explanations of the faults of an order, of the words of a question, and of the parts of a list.

ghost use Rattle.std.specs.Prelude.{◌≡◌, ◌++◌, true, map, IfOk, OnOk};
ghost use Rattle.wire_explain.specs.Quote.{shown_byte, is_printable_text};
ghost use Rattle.wire_explain.specs.Order as spec;

use crate::quote::{SHOWN_BYTES, push_front, push_labelled, push_quoted, shown_text};
use itoa::Buffer;
use std::alloc::{AllocError, Global};

/// The lines about a line of an order, as its bytes stand there.
fn order_explanation(alloc: Global, bytes: &[u8], line: u64) -> Result<Vec<u8>, AllocError>
    ensures { IfOk result (λ explanation. explanation.items ≡ spec.order_explanation bytes.now line) }
{
    let mut explanation = Vec::new(alloc);
    push_quoted(&mut explanation, bytes, line)?;
    push_labelled(
        &mut explanation,
        b"  expected: ",
        b"one rank of the plan and nothing else, such as app:0, and an order within its size limit",
    )?;
    Ok(explanation)
}

/// The explanation of the fault of an order: the line that it names, and what was expected there. Only printable
/// ASCII and line feeds are in it.
pub fn explain_order(alloc: Global, bytes: &[u8], line: u64) -> Result<Vec<u8>, AllocError>
    ensures explains { IfOk result (λ text. text.items ≡ map shown_byte (spec.order_explanation bytes.now line)) }
    ensures printable { IfOk result (λ text. is_printable_text text.items ≡ true) }
{
    let explanation = order_explanation(alloc, bytes, line)?;
    shown_text(alloc, explanation.as_slice())
}

/// What was expected of a word of a question.
fn expected_word(number: u64) -> &'static str
    ensures { result.now ≡ spec.expected_word number }
{
    if number == 1 || number == 3 {
        "a rank of the plan, such as app:0"
    } else {
        "the number of a call of this rank, from 1"
    }
}

/// Appends a word, with what it is and its number before it.
fn push_word(out: &mut Vec<u8>, what: &[u8], number: u64, word: &[u8]) -> Result<(), AllocError>
    ensures { OnOk result (out.new.items ≡ out.old.items ++ spec.word_line what.now number word.now) }
{
    let mut digits = Buffer::new();
    out.extend_from_slice(what)?;
    out.extend_from_slice(digits.format(number).as_bytes())?;
    out.extend_from_slice(b" | ")?;
    push_front(out, word, SHOWN_BYTES)?;
    out.extend_from_slice(b"\n")
}

/// The lines about a word, as its bytes stand there.
fn explained_word(
    alloc: Global,
    what: &[u8],
    number: u64,
    word: &[u8],
    wanted: &str,
) -> Result<Vec<u8>, AllocError>
    ensures { IfOk result (λ explanation. explanation.items ≡ spec.explained_word what.now number word.now wanted.now) }
{
    let mut explanation = Vec::new(alloc);
    push_word(&mut explanation, what, number, word)?;
    push_labelled(&mut explanation, b"  expected: ", wanted.as_bytes())?;
    Ok(explanation)
}

/// The byte of a word as it is shown on one line: `?` for a line feed.
fn in_line(byte: u8) -> u8
    ensures { result ≡ spec.in_line byte }
{
    if byte == b'\n' { b'?' } else { byte }
}

/// A word as it is shown on one line.
fn flat_word(alloc: Global, word: &[u8]) -> Result<Vec<u8>, AllocError>
    ensures { IfOk result (λ flat. flat.items ≡ map spec.in_line word.now) }
{
    let mut flat = Vec::with_capacity(alloc, word.len())?;
    for byte in word {
        flat.push(in_line(*byte))?;
    }
    Ok(flat)
}

/// The explanation of the fault of a question: its word of this number, from 1, and what was expected there. Only
/// printable ASCII and line feeds are in it, and a line feed of the word is shown as `?`.
pub fn explain_word(alloc: Global, number: u64, word: &str) -> Result<Vec<u8>, AllocError>
    ensures explains { IfOk result (λ text. text.items ≡ map shown_byte (spec.word_explanation number (map spec.in_line word.now))) }
    ensures printable { IfOk result (λ text. is_printable_text text.items ≡ true) }
{
    let flat = flat_word(alloc, word.as_bytes())?;
    let wanted = expected_word(number);
    let explanation = explained_word(alloc, b"  word ", number, flat.as_slice(), wanted)?;
    shown_text(alloc, explanation.as_slice())
}

/// The explanation of a rank of a list that the plan doesn't have: the rank, its number in the list, from 1, and what
/// was expected there. Only printable ASCII and line feeds are in it, and a line feed of the rank is shown as `?`.
pub fn explain_rank(alloc: Global, number: u64, rank: &str) -> Result<Vec<u8>, AllocError>
    ensures explains { IfOk result (λ text. text.items ≡ map shown_byte (spec.rank_explanation number (map spec.in_line rank.now))) }
    ensures printable { IfOk result (λ text. is_printable_text text.items ≡ true) }
{
    let flat = flat_word(alloc, rank.as_bytes())?;
    let wanted = "a rank of the plan, such as app:0";
    let explanation = explained_word(alloc, b"  rank ", number, flat.as_slice(), wanted)?;
    shown_text(alloc, explanation.as_slice())
}

/// The explanation of a part of a list that says how many ranks the groups of a pattern have: the part, its number in
/// the list, from 1, and what was expected there. Only printable ASCII and line feeds are in it, and a line feed of the
/// part is shown as `?`.
pub fn explain_part(alloc: Global, number: u64, part: &str) -> Result<Vec<u8>, AllocError>
    ensures explains { IfOk result (λ text. text.items ≡ map shown_byte (spec.part_explanation number (map spec.in_line part.now))) }
    ensures printable { IfOk result (λ text. is_printable_text text.items ≡ true) }
{
    let flat = flat_word(alloc, part.as_bytes())?;
    let wanted = "NAME=N, each group of the pattern once, N its least number or more, below 10^9";
    let explanation = explained_word(alloc, b"  part ", number, flat.as_slice(), wanted)?;
    shown_text(alloc, explanation.as_slice())
}
