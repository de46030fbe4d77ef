//! What the words of a command line ask for.

ghost use Rattle.std.specs.Prelude.{◌≡◌, ◌⊎◌, ◌++◌, List, [], map, codes, is_some, option_to_list, unwrap_or, true};
ghost use Rattle.std.specs.Prelude.{false, Some, OnOk, IfOk, IfErr, IfSome, IfNone};
ghost use Rattle.std.specs.Str.{bytes_eq};
ghost use Rattle.clap.specs.Words.{Row, Text, HasKind, kind_of, fault_of, first_of, found_of, rows_of, subcommand_of};
ghost use Rattle.clap.specs.Words.{subcommand_rows_of};
ghost use Rattle.wire_types.specs.Texts.{texts_of};
ghost use Rattle.wire_command_line.specs.CommandLine as spec;
ghost use Rattle.wire_command_line.specs.CommandLine.{AsksFor, RefusedFor, SaidBy, text_of};

use crate::commands::{command_line, program};
use crate::wanted::Asked;
use clap::error::ErrorKind;
use clap::{ArgMatches, Error};
use std::alloc::{AllocError, Global};

/// The word of this name, if it was given.
pub(crate) fn find_word<'a>(found: &ArgMatches<'a>, name: &str) -> Option<&'a str>
    ensures { text_of result ≡ first_of name.now (rows_of (found_of found.now)) }
{
    found.get_str(name)
}

/// Whether a word of this name was given.
pub(crate) fn has_word(found: &ArgMatches<'_>, name: &str) -> bool
    ensures { result ≡ is_some (first_of name.now (rows_of (found_of found.now))) }
{
    found.get_str(name).is_some()
}

/// Whether two words are the same.
pub(crate) fn is_same(word: &str, other: &str) -> bool
    ensures { result ≡ bytes_eq word.now other.now }
{
    word == other
}

/// Whether a flag was given.
pub(crate) fn is_set(found: &ArgMatches<'_>, name: &str) -> bool
    ensures { result ≡ spec.is_set name.now (rows_of (found_of found.now)) }
{
    match found.get_str(name) {
        Some(word) => is_same(word, "true"),
        None => false,
    }
}

/// Whether the words of two calls were given.
fn has_calls(found: &ArgMatches<'_>) -> bool
    ensures { result ≡ spec.has_needed (codes "why") (rows_of (found_of found.now)) }
{
    has_word(found, "P") && has_word(found, "N") && has_word(found, "Q") && has_word(found, "M")
}

/// Whether a command has all words that it needs.
fn has_needed(command: &str, found: &ArgMatches<'_>) -> bool
    ensures { result ≡ spec.has_needed command.now (rows_of (found_of found.now)) }
{
    if is_same(command, "follow") {
        return has_word(found, "ORDER");
    }
    if is_same(command, "place") {
        return has_word(found, "RANKS");
    }
    if is_same(command, "why") {
        return has_calls(found);
    }
    true
}

/// Adds the word of this name, if it was given.
fn add_word<'a>(
    words: &mut Vec<&'a str>,
    found: &ArgMatches<'a>,
    name: &str,
) -> Result<(), AllocError>
    ensures { OnOk result (texts_of words.new.items ≡ texts_of words.old.items
        ++ option_to_list (first_of name.now (rows_of (found_of found.now)))) }
{
    if let Some(word) = found.get_str(name) {
        words.push(word)?;
    }
    Ok(())
}

/// The words of a command's own that were given.
fn words_given<'a>(alloc: Global, found: &ArgMatches<'a>) -> Result<Vec<&'a str>, AllocError>
    ensures { IfOk result (λ v. texts_of v.items ≡ spec.words_given (rows_of (found_of found.now))) }
{
    let mut words = Vec::new(alloc);
    for name in &["ORDER", "RANKS", "P", "N", "Q", "M", "FILE"] {
        add_word(&mut words, found, name)?;
    }
    Ok(words)
}

/// The word of this name, or another where none was given.
fn word_or<'a>(found: &ArgMatches<'a>, name: &str, other: &'a str) -> &'a str
    ensures { result.now ≡ unwrap_or (first_of name.now (rows_of (found_of found.now))) other.entry.now }
{
    match find_word(found, name) {
        Some(word) => word,
        None => other,
    }
}

/// The word of `--workers`, `1` where none was given.
pub(crate) fn workers_given<'a>(found: &ArgMatches<'a>) -> &'a str
    ensures { result.now ≡ spec.workers_word (rows_of (found_of found.now)) }
{
    word_or(found, "workers", "1")
}

/// The word of `--most`, `1000` where none was given.
pub(crate) fn most_given<'a>(found: &ArgMatches<'a>) -> &'a str
    ensures { result.now ≡ spec.most_word (rows_of (found_of found.now)) }
{
    word_or(found, "most", "1000")
}

/// What the matches of a command ask for.
fn parse_command<'a>(
    alloc: Global,
    command: &'a str,
    found: &ArgMatches<'a>,
) -> Result<Asked<'a>, AllocError>
    ensures { IfOk result (λ asked. SaidBy command.entry.now (rows_of (found_of found.now)) asked) }
{
    Ok(Asked {
        command,
        workers: workers_given(found),
        most: most_given(found),
        ranks: find_word(found, "ranks"),
        per_node: find_word(found, "per-node"),
        by: find_word(found, "by"),
        nodes: find_word(found, "nodes"),
        anywhere: is_set(found, "anywhere"),
        same: is_set(found, "same"),
        portable: is_set(found, "portable"),
        pattern: is_set(found, "pattern"),
        answers: is_set(found, "answers"),
        lines: is_set(found, "lines"),
        json: is_set(found, "json"),
        anyway: is_set(found, "anyway"),
        complete: is_set(found, "complete"),
        first: is_set(found, "first"),
        second: is_set(found, "second"),
        large: is_set(found, "large"),
        explain: is_set(found, "explain"),
        words: words_given(alloc, found)?,
    })
}

/// The command that the matches name, with its own, where it has all that it needs.
fn find_command<'m, 'a>(matches: &'m ArgMatches<'a>) -> Option<(&'a str, &'m ArgMatches<'a>)>
    ensures met { IfSome result (λ m. subcommand_rows_of matches.now ≡ Some (m.0.now, rows_of (found_of m.1.now))) }
    ensures needed { IfSome result (λ m. spec.has_needed m.0.now (rows_of (found_of m.1.now)) ≡ true) }
    ensures none { IfNone result (spec.has_all_needed (subcommand_rows_of matches.now) ≡ false) }
{
    let (command, found) = matches.subcommand()?;
    if has_needed(command, found) {
        Some((command, found))
    } else {
        None
    }
}

/// The error of a word that is missing.
pub(crate) fn tell_missing(alloc: Global) -> Result<Error, AllocError>
    ensures { IfOk result (λ e. kind_of e ≡ ErrorKind.MissingRequiredArgument) }
{
    let mut line = program(alloc);
    let error = line.error(ErrorKind::MissingRequiredArgument, "a word is missing");
    drop(line);
    error
}

/// The matches of `clap` for the words of a command line.
pub(crate) fn match_words<'a>(alloc: Global, words: &'a [&'a str]) -> Result<ArgMatches<'a>, Error>
    ensures lawful { OnOk result (fault_of spec.program_line (texts_of words.entry.now) ≡ []) }
    ensures command { IfOk result (λ m. subcommand_rows_of m ≡ subcommand_of spec.program_line (texts_of words.entry.now)) }
    ensures err { IfErr result (HasKind (fault_of spec.program_line (texts_of words.entry.now))) }
{
    command_line(alloc)?.try_get_matches_from(words)
}

/// What the command asks for that the matches name.
fn parse_matches<'a>(alloc: Global, matches: &ArgMatches<'a>) -> Result<Asked<'a>, Error>
    ensures ok { IfOk result (λ asked. (m : Text × List Row) × (subcommand_rows_of matches.now ≡ Some m) × (spec.has_needed m.0 m.1 ≡ true)
        × SaidBy m.0 m.1 asked) }
    ensures err { IfErr result (λ e. (kind_of e ≡ ErrorKind.OutOfMemory)
        ⊎ ((kind_of e ≡ ErrorKind.MissingRequiredArgument) × (spec.has_all_needed (subcommand_rows_of matches.now) ≡ false))) }
{
    match find_command(matches) {
        Some((command, found)) => Ok(parse_command(alloc, command, found)?),
        None => Err(tell_missing(alloc)?),
    }
}

/// What the words of a command line ask for. The first of them is the program's name.
///
/// Where it is `Ok`, `clap` finds no fault in the words, and the answer is what its matches for them say, each word
/// among them that the command needs. An error is one of those that `clap` has for the words, want of memory among
/// them, or `MissingRequiredArgument` where `clap` finds no fault and a word is missing all the same (no words are
/// known for which that is so). No command calls this: it is for programs that want the words alone.
pub fn asked<'a>(alloc: Global, words: &'a [&'a str]) -> Result<Asked<'a>, Error>
    ensures ok { IfOk result (λ asked. AsksFor (texts_of words.entry.now) asked) }
    ensures err { IfErr result (λ e. RefusedFor (texts_of words.entry.now) e) }
{
    let matches = match_words(alloc, words)?;
    let asked = parse_matches(alloc, &matches);
    drop(matches);
    asked
}
