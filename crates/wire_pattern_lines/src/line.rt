//! What one line says.

ghost use Rattle.std.specs.Prelude.{[], ◌≡◌, ◌≢◌, ◌↔◌, ℕ, List, ◌∷◌, ◌≤◌, true, IsTrue, IfOk, IfSome, IfNone, codes};
ghost use Rattle.std.specs.Prelude.{decimal, false};
ghost use Rattle.std.specs.List.{join_with_byte};
ghost use Rattle.wire_types.specs.Verbs.{text_of_verb};
ghost use Rattle.wire_types.specs.Texts.{texts_of};
ghost use Rattle.wire_runs.specs.Patterns.{Turns as PlanTurns};
ghost use Rattle.wire_pattern.specs.Views.{turns_by};
ghost use Rattle.wire_pattern_lines.specs.Said as spec;
ghost use Rattle.wire_pattern_lines.specs.Said.{Said, Header, Says, is_lawful, first_word, other_words};
ghost use Rattle.wire_pattern_lines.specs.Said.{min_words, turn_words, is_bare_name, is_role_name};
ghost use Rattle.wire_pattern_lines.specs.Said.{are_role_names, are_loop_roles};
ghost use Rattle.wire_pattern_lines.specs.Views.{said_by};
ghost use Rattle.wire_pattern_lines.specs.Kind.{text_of};
ghost use Rattle.wire_pattern_lines.specs.Once.{SaysOnce};
ghost use Rattle.wire_pattern_lines.specs.declared.line.Kind.{Kind};

use crate::call::{CallLine, call_of};
use crate::roles::roles_in;
use crate::word::{is_bare_name, is_role_name};
use std::alloc::{AllocError, Global};
use wire_lines::{is_text, number_of, verb_of};
use wire_pattern::Turns;
use wire_types::Verb;

/// A line, with its parts as they stand in the text.
#[derive(Drop)]
pub enum Line<'a> {
    Header,
    /// What a get brings to a node stays there.
    Keep,
    Job(&'a [u8]),
    /// A role of one process.
    Single(&'a [u8]),
    /// A role of any number of processes, at least so many.
    Many { name: &'a [u8], least: u32 },
    /// A loop over roles.
    Begin { turns: Turns, roles: Vec<&'a [u8]> },
    /// The end of a loop.
    End,
    Calls(CallLine<'a>),
}

/// The name of a job that stands alone.
fn job_alone<'a>(words: &[&'a [u8]]) -> Option<&'a [u8]>
    ensures found { IfSome result (λ n. (texts_of words.now ≡ n.now ∷ []) × (spec.is_bare_name n.now ≡ true)) }
    ensures none { IfNone result ((name : List ℕ) → spec.is_bare_name name ≡ true → texts_of words.now ≢ name ∷ []) }
{
    match words {
        [name] if is_bare_name(name) => Some(name),
        _ => None,
    }
}

/// The name of a role that stands alone.
fn role_alone<'a>(words: &[&'a [u8]]) -> Option<&'a [u8]>
    ensures found { IfSome result (λ n. (texts_of words.now ≡ n.now ∷ []) × (spec.is_role_name n.now ≡ true)) }
    ensures none { IfNone result ((name : List ℕ) → spec.is_role_name name ≡ true → texts_of words.now ≢ name ∷ []) }
{
    match words {
        [name] if is_role_name(name) => Some(name),
        _ => None,
    }
}

/// The number that a digit from 1 to 9 says.
#[tactic(auto, using(crate::proofs::Least::other_decimal))]
fn digit_of(word: &[u8]) -> Option<u32>
    ensures found { IfSome result (λ n. (word.now ≡ decimal n) × (1 ≤ n) × (n ≤ 9)) }
    ensures none { IfNone result ((n : ℕ) → 1 ≤ n → n ≤ 9 → word.now ≢ decimal n) }
{
    match number_of(word) {
        Some(number) if 1 <= number && number <= 9 => Some(number),
        _ => None,
    }
}

/// How many processes a group has at least, by the words after its name.
#[tactic(auto, using(crate::proofs::Least::min_shown))]
fn least_in(words: &[&[u8]]) -> Option<u32>
    ensures found { IfSome result (λ n. (texts_of words.now ≡ min_words n) × (n ≤ 9)) }
    ensures none { IfNone result ((n : ℕ) → n ≤ 9 → texts_of words.now ≢ min_words n) }
{
    match words {
        [] => Some(0),
        [min, number] if is_text(min, b"min") => digit_of(number),
        _ => None,
    }
}

/// The name of a group, and how many processes it has at least.
fn many_in<'a>(words: &[&'a [u8]]) -> Option<(&'a [u8], u32)>
    ensures found { IfSome result (λ g. (texts_of words.now ≡ g.0.now ∷ min_words g.1)
        × (spec.is_role_name g.0.now ≡ true) × (g.1 ≤ 9)) }
    ensures none { IfNone result ((name : List ℕ) (n : ℕ) → spec.is_role_name name ≡ true → n ≤ 9
        → texts_of words.now ≢ name ∷ min_words n) }
{
    let [name, others @ ..] = words else {
        return None;
    };
    if !is_role_name(name) {
        return None;
    }
    match least_in(others) {
        Some(least) => Some((name, least)),
        None => None,
    }
}

/// A loop with these turns over the roles that the word lists.
fn loop_over<'a>(
    alloc: Global,
    turns: Turns,
    word: &'a [u8],
) -> Result<Option<Line<'a>>, AllocError>
    requires { turns ≢ Turns.Round }
    ensures found { IfOk result (λ o. IfSome o (λ l. (first_word (said_by l) ≡ codes "for")
        × (turn_words (turns_by turns) (word.now ∷ []) ≡ other_words (said_by l)) × (is_lawful (said_by l) ≡ true))) }
    ensures none { IfOk result (λ o. IfNone o ((roles : List (List ℕ)) → are_role_names roles ≡ true
        → word.now ≢ join_with_byte 44 roles)) }
{
    match roles_in(alloc, word)? {
        Some(roles) => Ok(Some(Line::Begin { turns, roles })),
        None => Ok(None),
    }
}

/// A loop that goes round, over the role of this name.
fn round_loop(alloc: Global, word: &[u8]) -> Result<Option<Line<'_>>, AllocError>
    ensures found { IfOk result (λ o. IfSome o (λ l. (first_word (said_by l) ≡ codes "for")
        × (word.now ∷ codes "cyclic" ∷ [] ≡ other_words (said_by l)) × (is_lawful (said_by l) ≡ true))) }
    ensures none { IfOk result (λ o. IfNone o (spec.is_role_name word.now ≡ false)) }
{
    if !is_role_name(word) {
        return Ok(None);
    }
    let mut roles = Vec::with_capacity(alloc, 1)?;
    roles.push(word)?;
    Ok(Some(Line::Begin {
        turns: Turns::Round,
        roles,
    }))
}

/// The loop that two words begin.
fn two_words<'a>(
    alloc: Global,
    first: &'a [u8],
    second: &'a [u8],
) -> Result<Option<Line<'a>>, AllocError>
    ensures found { IfOk result (λ o. IfSome o (λ l. (first_word (said_by l) ≡ codes "for")
        × (first.now ∷ second.now ∷ [] ≡ other_words (said_by l)) × (is_lawful (said_by l) ≡ true))) }
    ensures none { IfOk result (λ o. IfNone o ((turns : PlanTurns) (roles : List (List ℕ)) → are_loop_roles turns roles ≡ true
        → first.now ∷ second.now ∷ [] ≢ turn_words turns roles)) }
{
    if is_text(second, b"cyclic") {
        round_loop(alloc, first)
    } else if is_text(first, b"some") {
        loop_over(alloc, Turns::Chosen, second)
    } else {
        Ok(None)
    }
}

/// The loop that these words begin, behind the first.
fn loop_of<'a>(alloc: Global, words: &[&'a [u8]]) -> Result<Option<Line<'a>>, AllocError>
    ensures found { IfOk result (λ o. IfSome o (λ l. (first_word (said_by l) ≡ codes "for")
        × (texts_of words.now ≡ other_words (said_by l)) × (is_lawful (said_by l) ≡ true))) }
    ensures none { IfOk result (λ o. IfNone o ((turns : PlanTurns) (roles : List (List ℕ)) → are_loop_roles turns roles ≡ true
        → texts_of words.now ≢ turn_words turns roles)) }
{
    match words {
        [word] => loop_over(alloc, Turns::InOrder, word),
        [first, second] => two_words(alloc, first, second),
        _ => Ok(None),
    }
}

/// Whether the only word is the version.
fn is_version_alone(words: &[&[u8]]) -> bool
    ensures { IsTrue result ↔ (texts_of words.now ≡ codes "1" ∷ []) }
{
    match words {
        [word] => is_text(word, b"1"),
        _ => false,
    }
}

/// What a line is, by its first word.
#[derive(Clone, Copy)]
enum Kind {
    Header,
    Keep,
    Job,
    Single,
    Many,
    Begin,
    End,
    Calls(Verb),
}

/// The kind of a line by its first word, if there is one.
fn kind_of(word: &[u8]) -> Option<Kind>
    ensures found { IfSome result (λ k. word.now ≡ text_of k) }
    ensures none { IfNone result ((k : Kind) → word.now ≢ text_of k) }
{
    if is_text(word, b"pattern") {
        Some(Kind::Header)
    } else if is_text(word, b"keep") {
        Some(Kind::Keep)
    } else if is_text(word, b"job") {
        Some(Kind::Job)
    } else if is_text(word, b"one") {
        Some(Kind::Single)
    } else if is_text(word, b"many") {
        Some(Kind::Many)
    } else if is_text(word, b"for") {
        Some(Kind::Begin)
    } else if is_text(word, b"end") {
        Some(Kind::End)
    } else {
        verb_of(word).map(Kind::Calls)
    }
}

/// Whether the words are those of the header.
pub fn is_header(words: &[&[u8]]) -> bool
    ensures { IsTrue result ↔ Says (texts_of words.now) Header }
{
    match words {
        [first, version] => is_text(first, b"pattern") && is_text(version, b"1"),
        _ => false,
    }
}

/// A line that has no words after its first.
fn alone<'a>(line: Line<'a>, words: &[&[u8]]) -> Option<Line<'a>>
    ensures found { IfSome result (λ l. (l ≡ line.entry) × (words.now ≡ [])) }
    ensures none { IfNone result (words.now ≢ []) }
{
    if words.is_empty() { Some(line) } else { None }
}

/// The line of a call, by its verb and the words after it.
fn call_in<'a>(
    alloc: Global,
    verb: Verb,
    words: &[&'a [u8]],
) -> Result<Option<Line<'a>>, AllocError>
    ensures found { IfOk result (λ o. IfSome o (λ l. (first_word (said_by l) ≡ text_of_verb verb)
        × (texts_of words.now ≡ other_words (said_by l)) × (is_lawful (said_by l) ≡ true))) }
    ensures none { IfOk result (λ o. IfNone o ((said : Said) → first_word said ≡ text_of_verb verb
        → is_lawful said ≡ true → texts_of words.now ≢ other_words said)) }
{
    match call_of(alloc, verb, words)? {
        Some(call) => Ok(Some(Line::Calls(call))),
        None => Ok(None),
    }
}

/// The line of a kind that is none of a call and begins no loop, by the words after its first.
fn plain_line_of<'a>(kind: Kind, words: &[&'a [u8]]) -> Option<Line<'a>>
    requires call { (verb : Verb) → kind ≢ Kind.Calls verb }
    requires begin { kind ≢ Kind.Begin }
    ensures found { IfSome result (λ l. (first_word (said_by l) ≡ text_of kind)
        × (texts_of words.now ≡ other_words (said_by l)) × (is_lawful (said_by l) ≡ true)) }
    ensures none { IfNone result ((said : Said) → first_word said ≡ text_of kind
        → is_lawful said ≡ true → texts_of words.now ≢ other_words said) }
{
    match kind {
        Kind::Header => {
            if is_version_alone(words) {
                Some(Line::Header)
            } else {
                None
            }
        }
        Kind::Keep => alone(Line::Keep, words),
        Kind::Job => job_alone(words).map(Line::Job),
        Kind::Single => role_alone(words).map(Line::Single),
        Kind::Many => match many_in(words) {
            Some((name, least)) => Some(Line::Many { name, least }),
            None => None,
        },
        Kind::End => alone(Line::End, words),
        Kind::Begin | Kind::Calls(_) => None,
    }
}

/// The line of a kind, by the words after its first.
fn line_of<'a>(
    alloc: Global,
    kind: Kind,
    words: &[&'a [u8]],
) -> Result<Option<Line<'a>>, AllocError>
    ensures found { IfOk result (λ o. IfSome o (λ l. (first_word (said_by l) ≡ text_of kind)
        × (texts_of words.now ≡ other_words (said_by l)) × (is_lawful (said_by l) ≡ true))) }
    ensures none { IfOk result (λ o. IfNone o ((said : Said) → first_word said ≡ text_of kind
        → is_lawful said ≡ true → texts_of words.now ≢ other_words said)) }
{
    match kind {
        Kind::Calls(verb) => call_in(alloc, verb, words),
        Kind::Begin => loop_of(alloc, words),
        _ => Ok(plain_line_of(kind, words)),
    }
}

/// What the words of a line say, or nothing where they are none of the lines of a pattern's file.
pub fn read_pattern_line<'a>(
    alloc: Global,
    words: &[&'a [u8]],
) -> Result<Option<Line<'a>>, AllocError>
    ensures found { IfOk result (λ o. IfSome o (λ l. Says (texts_of words.now) (said_by l))) }
    ensures none { IfOk result (λ o. IfNone o ((said : Said) → Says (texts_of words.now) said → ⊥)) }
{
    let [first, others @ ..] = words else {
        return Ok(None);
    };
    match kind_of(first) {
        Some(kind) => line_of(alloc, kind, others),
        None => Ok(None),
    }
}

/// A law: the words of a line say at most one thing.
pub fn pattern_says_once()
    ensures { SaysOnce }
{}
