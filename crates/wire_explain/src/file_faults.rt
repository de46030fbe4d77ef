//! The explanation of the fault of a plan or a pattern.

ghost use Rattle.std.specs.Prelude.{◌≡◌, ◌++◌, true, option_map, IfOk, OnOk};
ghost use Rattle.std.specs.List.{list_all};
ghost use Rattle.wire_types.specs.Texts.{texts_of};
ghost use Rattle.wire_lines.specs.Said as said;
ghost use Rattle.wire_explain.specs.Quote.{is_printable_text};
ghost use Rattle.wire_explain.specs.Explained as spec;
ghost use Rattle.wire_explain.specs.Explained.{Explains};

use crate::format::usage_of;
use crate::hint::hint_of;
use crate::language::Language;
use crate::line_places::{Place, first_in, place_of, words_at};
use crate::quote::{push_labelled, push_quoted, shown_text};
use std::alloc::{AllocError, Global};
use wire_types::Fault;

/// The line of a file that a fault names.
fn plan_line(fault: Fault) -> Option<u64>
    ensures { result ≡ spec.plan_line fault }
{
    match fault {
        Fault::TooLong(line)
        | Fault::BadHeader(line)
        | Fault::BadLine(line)
        | Fault::UnknownName(line)
        | Fault::Twice(line)
        | Fault::NotMember(line)
        | Fault::TooMany(line) => Some(line),
        _ => None,
    }
}

/// What may stand at a place of a plan.
fn expected_in_plan(place: Place) -> &'static str
    ensures { result.now ≡ spec.expected_in_plan place }
{
    match place {
        Place::Opening => "'node NAME' or 'job NAME', or 'keep' right below 'rehearsal 2'",
        Place::InJob => "'rank NODE' or 'job NAME'",
        Place::InRank | Place::InLoop => "a call of this rank, 'rank NODE' or 'job NAME'",
    }
}

/// What may stand at a place of a pattern.
fn expected_in_pattern(place: Place) -> &'static str
    ensures { result.now ≡ spec.expected_in_pattern place }
{
    match place {
        Place::Opening => "'job NAME', or 'keep' right below 'pattern 1'",
        Place::InJob => "'one NAME', 'many NAME' or 'job NAME'",
        Place::InRank => "a call, 'for ROLES', 'one NAME', 'many NAME' or 'job NAME'",
        Place::InLoop => "a call that a loop may have, or 'end'",
    }
}

/// What may stand at a place.
fn expected_at(language: Language, place: Place) -> &'static str
    ensures { result.now ≡ spec.expected_at language place }
{
    match language {
        Language::Plan => expected_in_plan(place),
        Language::Pattern => expected_in_pattern(place),
    }
}

/// Of two texts the one of a language.
fn by_language(language: Language, plan: &'static str, pattern: &'static str) -> &'static str
    ensures { result.now ≡ spec.by_language language plan.now pattern.now }
{
    match language {
        Language::Plan => plan,
        Language::Pattern => pattern,
    }
}

/// Whether a byte may stand in a word.
fn is_word_byte(byte: u8) -> bool
    ensures { result ≡ said.is_word_byte byte }
{
    33 <= byte && byte <= 126
}

/// Whether each byte of a word may stand there.
fn is_ascii(word: &[u8]) -> bool
    ensures { result ≡ list_all said.is_word_byte word.now }
{
    word.iter().all(|byte| is_word_byte(*byte))
}

/// Whether each byte of these words may stand in a word.
fn are_ascii(words: &[&[u8]]) -> bool
    ensures { result ≡ spec.are_ascii (texts_of words.now) }
{
    for word in words {
        if !is_ascii(word) {
            return false;
        }
    }
    true
}

/// What was expected of a line that isn't one of the format, or stands in the wrong place.
fn expected_line(
    alloc: Global,
    language: Language,
    bytes: &[u8],
    line: u64,
) -> Result<&'static str, AllocError>
    ensures { IfOk result (λ text. text.now ≡ spec.expected_line language bytes.now line) }
{
    let words = words_at(alloc, bytes, line)?;
    if !are_ascii(words.as_slice()) {
        return Ok("only printable ASCII in words");
    }
    if let Some(usage) = usage_of(language, first_in(words.as_slice())) {
        return Ok(usage);
    }
    Ok(expected_at(language, place_of(alloc, language, bytes, line)?))
}

/// How long words, values and files may be.
fn expected_lengths(language: Language) -> &'static str
    ensures { result.now ≡ spec.expected_lengths language }
{
    by_language(
        language,
        "names and keys of at most 63 bytes, values of at most 255, and a file within its size limit",
        "names and keys (with their index) of at most 63 bytes, values of at most 255, and a file within its size \
         limit",
    )
}

/// How much there may be.
fn expected_limits(language: Language) -> &'static str
    ensures { result.now ≡ spec.expected_limits language }
{
    by_language(
        language,
        "no more nodes, jobs, ranks or calls than the limits (with --large, which 'witness' doesn't take, they are \
         larger)",
        "no more jobs, roles, groups, roles in a list or turns of 'for some' than a pattern may have, and instances \
         within the limits of plans",
    )
}

/// How the first line is written.
fn expected_header(language: Language) -> &'static str
    ensures { result.now ≡ spec.expected_header language }
{
    by_language(
        language,
        "'rehearsal 1' or 'rehearsal 2', before all other lines",
        "'pattern 1', before all other lines",
    )
}

/// Which names may stand once.
fn expected_once(language: Language) -> &'static str
    ensures { result.now ≡ spec.expected_once language }
{
    by_language(
        language,
        "a name that no earlier line of this kind has",
        "a name that no earlier line of this kind has, and in a list each role once",
    )
}

/// Which names may be told of.
fn expected_names(language: Language) -> &'static str
    ensures { result.now ≡ spec.expected_names language }
{
    by_language(
        language,
        "a node, a job or a rank that the file declares",
        "a job or a role that the file declares",
    )
}

/// What was expected, where a file has this fault.
fn expected_text(
    alloc: Global,
    language: Language,
    bytes: &[u8],
    fault: Fault,
) -> Result<&'static str, AllocError>
    ensures { IfOk result (λ text. text.now ≡ spec.expected language bytes.now fault) }
{
    Ok(match fault {
        Fault::BadLine(line) => return expected_line(alloc, language, bytes, line),
        Fault::TooLong(_) => return Ok(expected_lengths(language)),
        Fault::BadHeader(_) => return Ok(expected_header(language)),
        Fault::UnknownName(_) => return Ok(expected_names(language)),
        Fault::TooMany(_) => return Ok(expected_limits(language)),
        Fault::Twice(_) => return Ok(expected_once(language)),
        Fault::Memory => "more memory",
        Fault::NotMember(_) => "a set with the rank that calls the fence",
        Fault::Workers => "1 to 64 workers",
        Fault::Read => "a file that can be opened and read",
        Fault::Write(_) => "an output that can be written",
        Fault::NotReady(_) => "a rank that can take its next step",
        Fault::BadOrder(_) => "a rank of the plan, such as app:0",
    })
}

/// Appends the line of a file that a fault names.
fn push_line(out: &mut Vec<u8>, bytes: &[u8], fault: Fault) -> Result<(), AllocError>
    ensures { OnOk result (out.new.items ≡ out.old.items ++ spec.line_part bytes.now (spec.plan_line fault)) }
{
    match plan_line(fault) {
        Some(line) => push_quoted(out, bytes, line),
        None => Ok(()),
    }
}

/// Appends the nearest word, where there is one.
fn push_hint(out: &mut Vec<u8>, hint: Option<&[u8]>) -> Result<(), AllocError>
    ensures { OnOk result (out.new.items ≡ out.old.items ++ spec.hint_part (option_map (λ w. w.now) hint.entry)) }
{
    match hint {
        Some(word) => push_labelled(out, b"  nearest word: ", word),
        None => Ok(()),
    }
}

/// The lines about the fault of a file, with this nearest word, as its bytes stand there.
fn explanation_of(
    alloc: Global,
    language: Language,
    bytes: &[u8],
    fault: Fault,
    hint: Option<&[u8]>,
) -> Result<Vec<u8>, AllocError>
    ensures { IfOk result (λ explanation. explanation.items ≡ spec.explanation language bytes.now fault (option_map (λ w. w.now) hint.entry)) }
{
    let text = expected_text(alloc, language, bytes, fault)?;
    let mut explanation = Vec::new(alloc);
    push_line(&mut explanation, bytes, fault)?;
    push_labelled(&mut explanation, b"  expected: ", text.as_bytes())?;
    push_hint(&mut explanation, hint)?;
    Ok(explanation)
}

/// The explanation of the fault of a plan or a pattern: the line that it names, what was expected there, and the
/// nearest word, where one is near. Only printable ASCII and line feeds are in it.
pub fn explain_file(
    alloc: Global,
    language: Language,
    bytes: &[u8],
    fault: Fault,
) -> Result<Vec<u8>, AllocError>
    ensures explains { IfOk result (λ text. Explains language bytes.now fault text.items) }
    ensures printable { IfOk result (λ text. is_printable_text text.items ≡ true) }
{
    let hint = hint_of(alloc, language, bytes, fault)?;
    let explanation = explanation_of(alloc, language, bytes, fault, hint)?;
    shown_text(alloc, explanation.as_slice())
}
