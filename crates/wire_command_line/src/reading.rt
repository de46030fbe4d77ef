//! The request that the words of a command line make.

ghost use Rattle.std.specs.Prelude.{◌≡◌, List, [], map, codes, false, true, None, Err, IfOk, IfErr, IfSome, IfNone};
ghost use Rattle.clap.specs.Words.{Text, fault_of, first_of, found_of, rows_of, subcommand_of, subcommand_rows_of};
ghost use Rattle.wire_types.specs.Texts.{texts_of};
ghost use Rattle.wire_command_line.specs.CommandLine.{program_line, text_of, is_set as is_flagged};
ghost use Rattle.wire_command_line.specs.Reading.{IsReadAs, IsReadBy, IsReadIn};
ghost use Rattle.wire_command_line.specs.Requests as spec;
ghost use Rattle.wire_command_line.specs.Requests.{NamesCall, NamesCalls, IsCommand, IsRequestOf, IsRefusalOf};

use crate::matching::{
    find_word, has_word, is_same, is_set, match_words, most_given, tell_missing, workers_given,
};
use crate::number::{most_of, workers_of};
use crate::request::{
    CallPair, CallWords, CheckScope, Command, ExpandOptions, PairOptions, PatternOptions, Refusal,
    ReplayOptions, Request,
};
use crate::spreading::read_spread;
use clap::ArgMatches;
use std::alloc::Global;
use wire_reader::Size;
use wire_types::{Orders, OutputFormat};

/// What a command lacks.
#[derive(Clone, Copy)]
enum Lack {
    /// A word that it needs, or its very name.
    Word,
    /// A number of workers.
    Workers,
    /// `--anywhere`, beside `--same`.
    Anywhere,
    /// Options that go with `--pattern`, or `--pattern` beside those that need it.
    Pattern,
    /// Options that go with `--portable`.
    Portable,
    /// Options of `expand` that say how ranks are put on nodes.
    Spread,
    /// Words and options of `witness` that go together.
    Fit,
}

/// The words of these names as those of a call, where both are given.
fn read_call<'a>(found: &ArgMatches<'a>, proc: &str, number: &str) -> Option<CallWords<'a>>
    ensures some { IfSome result (NamesCall proc.now number.now (rows_of (found_of found.now))) }
    ensures none { IfNone result (spec.has_both proc.now number.now (rows_of (found_of found.now)) ≡ false) }
{
    let Some(proc) = find_word(found, proc) else {
        return None;
    };
    let Some(number) = find_word(found, number) else {
        return None;
    };
    Some(CallWords { proc, number })
}

/// The two calls that the words name, where all four are given.
fn read_calls<'a>(found: &ArgMatches<'a>) -> Option<CallPair<'a>>
    ensures some { IfSome result (NamesCalls (rows_of (found_of found.now))) }
    ensures none { IfNone result (spec.has_calls (rows_of (found_of found.now)) ≡ false) }
{
    let Some(first) = read_call(found, "P", "N") else {
        return None;
    };
    let Some(second) = read_call(found, "Q", "M") else {
        return None;
    };
    Some(CallPair { first, second })
}

/// The form of the answer: two flags ask for it.
fn form_of(lines: bool, json: bool) -> OutputFormat
    ensures { result ≡ spec.form_of lines json }
{
    match (lines, json) {
        (false, false) => OutputFormat::Lines,
        (true, false) => OutputFormat::Places,
        (false, true) => OutputFormat::Json,
        (true, true) => OutputFormat::PlacedJson,
    }
}

/// The form in which the answer is to be written.
fn read_form(found: &ArgMatches<'_>) -> OutputFormat
    ensures { result ≡ spec.form_said (rows_of (found_of found.now)) }
{
    form_of(is_set(found, "lines"), is_set(found, "json"))
}

/// The limits that hold: the large ones, or those of the plan's version.
fn size_of(large: bool) -> Size
    ensures { result ≡ spec.size_of large }
{
    if large { Size::Large } else { Size::OfVersion }
}

/// Which placements two flags ask for: nothing where the second is given alone.
fn judged_of(anywhere: bool, same: bool) -> Option<CheckScope>
    ensures { result ≡ spec.judged_of anywhere same }
{
    match (anywhere, same) {
        (false, false) => Some(CheckScope::Written),
        (true, false) => Some(CheckScope::Anywhere),
        (true, true) => Some(CheckScope::Same),
        (false, true) => None,
    }
}

/// Whether an option is given that doesn't go with `--pattern`.
fn has_other(found: &ArgMatches<'_>) -> bool
    ensures { result ≡ spec.has_other (rows_of (found_of found.now)) }
{
    is_set(found, "anywhere")
        || is_set(found, "same")
        || is_set(found, "lines")
        || is_set(found, "large")
}

/// Whether an option is given that needs `--pattern`.
fn needs_pattern(found: &ArgMatches<'_>) -> bool
    ensures { result ≡ spec.needs_pattern (rows_of (found_of found.now)) }
{
    is_set(found, "answers") || is_set(found, "complete")
}

/// Whether the options go with `--pattern`, or without it.
fn fits_pattern(found: &ArgMatches<'_>) -> bool
    ensures { result ≡ spec.fits_pattern (rows_of (found_of found.now)) }
{
    if is_set(found, "pattern") {
        !has_other(found)
    } else {
        !needs_pattern(found)
    }
}

/// What `check` is to tell of a pattern besides its verdict.
fn read_told(found: &ArgMatches<'_>) -> PatternOptions
    ensures { result ≡ spec.told_said (rows_of (found_of found.now)) }
{
    let answers = is_set(found, "answers");
    let complete = is_set(found, "complete");
    PatternOptions { answers, complete }
}

/// Whether an option is given that doesn't go with `--portable`.
fn has_beside(found: &ArgMatches<'_>) -> bool
    ensures { result ≡ spec.has_beside (rows_of (found_of found.now)) }
{
    is_set(found, "same") || is_set(found, "pattern") || needs_pattern(found)
}

/// On which placements libraries are judged.
fn portable_of(anywhere: bool) -> CheckScope
    ensures { result ≡ spec.portable_of anywhere }
{
    if anywhere {
        CheckScope::PortableAnywhere
    } else {
        CheckScope::Portable
    }
}

/// What `check` is to judge with `--portable`, where its other options go with that.
fn read_portable<'a>(found: &ArgMatches<'a>) -> Result<Command<'a>, Lack>
    requires { is_flagged (codes "portable") (rows_of (found_of found.now)) ≡ true }
    ensures { IsReadAs (codes "check") (rows_of (found_of found.now)) result }
{
    if has_beside(found) {
        return Err(Lack::Portable);
    }
    Ok(Command::Check(portable_of(is_set(found, "anywhere"))))
}

/// What `check` is to judge, where its options go together.
fn read_check<'a>(found: &ArgMatches<'a>) -> Result<Command<'a>, Lack>
    ensures { IsReadAs (codes "check") (rows_of (found_of found.now)) result }
{
    if is_set(found, "portable") {
        return read_portable(found);
    }
    read_alone(found)
}

/// What `check` is to judge without `--portable`, where its options go with `--pattern` or without it, and `--same` isn't
/// given alone.
fn read_alone<'a>(found: &ArgMatches<'a>) -> Result<Command<'a>, Lack>
    requires { is_flagged (codes "portable") (rows_of (found_of found.now)) ≡ false }
    ensures { IsReadAs (codes "check") (rows_of (found_of found.now)) result }
{
    if !fits_pattern(found) {
        return Err(Lack::Pattern);
    }
    if is_set(found, "pattern") {
        return Ok(Command::Check(CheckScope::Pattern(read_told(found))));
    }
    match judged_of(is_set(found, "anywhere"), is_set(found, "same")) {
        Some(judged) => Ok(Command::Check(judged)),
        None => Err(Lack::Anywhere),
    }
}

/// How `replay` is to run a plan, where the word of `--workers` is a number.
fn read_replay<'a>(found: &ArgMatches<'a>) -> Result<Command<'a>, Lack>
    ensures { IsReadAs (codes "replay") (rows_of (found_of found.now)) result }
{
    let Some(workers) = workers_of(workers_given(found)) else {
        return Err(Lack::Workers);
    };
    Ok(Command::Replay(ReplayOptions {
        workers,
        anyway: is_set(found, "anyway"),
        complete: is_set(found, "complete"),
    }))
}

/// Which orders two flags ask for: nothing where both are given, or where one is given and the answer isn't to be in
/// lines alone.
fn orders_of(formed: bool, first: bool, second: bool) -> Option<Orders>
    ensures { result ≡ spec.orders_of formed first second }
{
    match (first, second) {
        (false, false) => Some(Orders::Both),
        (true, false) if !formed => Some(Orders::OfFirst),
        (false, true) if !formed => Some(Orders::OfSecond),
        _ => None,
    }
}

/// Whether the answer is to have a form of its own: with lines of the file, or as JSON.
fn has_form(found: &ArgMatches<'_>) -> bool
    ensures { result ≡ spec.has_form (rows_of (found_of found.now)) }
{
    is_set(found, "lines") || is_set(found, "json")
}

/// Which orders `witness` is to write, where not both are asked for by themselves, nor one in a form.
fn read_orders(found: &ArgMatches<'_>) -> Option<Orders>
    ensures { result ≡ spec.orders_said (rows_of (found_of found.now)) }
{
    orders_of(
        has_form(found),
        is_set(found, "first"),
        is_set(found, "second"),
    )
}

/// What `witness` is to do about two calls, where they are given and the options go with them.
fn read_pair<'a>(found: &ArgMatches<'a>) -> Option<Command<'a>>
    ensures some { IfSome result (IsCommand (codes "witness") (rows_of (found_of found.now))) }
    ensures none { IfNone result (spec.is_of_pair (rows_of (found_of found.now)) ≡ false) }
{
    let Some(calls) = read_calls(found) else {
        return None;
    };
    let Some(orders) = read_orders(found) else {
        return None;
    };
    if has_word(found, "most") {
        return None;
    }
    Some(Command::Witness(PairOptions { calls, orders }))
}

/// What `witness` is to do about all races, where the options go with that.
fn read_all<'a>(found: &ArgMatches<'a>) -> Option<Command<'a>>
    requires { first_of (codes "N") (rows_of (found_of found.now)) ≡ None }
    ensures some { IfSome result (IsCommand (codes "witness") (rows_of (found_of found.now))) }
    ensures none { IfNone result (spec.is_of_all (rows_of (found_of found.now)) ≡ false) }
{
    if is_set(found, "first") || is_set(found, "second") {
        return None;
    }
    let Some(most) = most_of(most_given(found)) else {
        return None;
    };
    Some(Command::Witnesses(most))
}

/// What `witness` is to do, where its words and options go together.
fn read_witness<'a>(found: &ArgMatches<'a>) -> Result<Command<'a>, Lack>
    ensures { IsReadAs (codes "witness") (rows_of (found_of found.now)) result }
{
    if has_word(found, "N") {
        read_pair(found).ok_or(Lack::Fit)
    } else {
        read_all(found).ok_or(Lack::Fit)
    }
}

/// Which instance `expand` is to write, where its options say how ranks are put on nodes.
fn read_expand<'a>(found: &ArgMatches<'a>) -> Result<Command<'a>, Lack>
    ensures { IsReadAs (codes "expand") (rows_of (found_of found.now)) result }
{
    let Some(spread) = read_spread(found) else {
        return Err(Lack::Spread);
    };
    let ranks = find_word(found, "ranks");
    Ok(Command::Expand(ExpandOptions { ranks, spread }))
}

/// The command of this name, where it has all that it needs.
fn read_command<'a>(name: &str, found: &ArgMatches<'a>) -> Result<Command<'a>, Lack>
    ensures { IsReadAs name.now (rows_of (found_of found.now)) result }
{
    if is_same(name, "check") {
        return read_check(found);
    }
    if is_same(name, "replay") {
        return read_replay(found);
    }
    if is_same(name, "follow") {
        return find_word(found, "ORDER")
            .map(Command::Follow)
            .ok_or(Lack::Word);
    }
    if is_same(name, "why") {
        return read_calls(found).map(Command::Why).ok_or(Lack::Word);
    }
    if is_same(name, "migrate") {
        return Ok(Command::Migrate);
    }
    if is_same(name, "place") {
        return find_word(found, "RANKS")
            .map(Command::Place)
            .ok_or(Lack::Word);
    }
    if is_same(name, "witness") {
        return read_witness(found);
    }
    if is_same(name, "expand") {
        return read_expand(found);
    }
    Err(Lack::Word)
}

/// The word that names the plan of a command, if it was given.
fn find_plan<'a>(found: &ArgMatches<'a>, command: Command<'a>) -> Option<&'a str>
    ensures { text_of result ≡ spec.plan_said command.entry (rows_of (found_of found.now)) }
{
    match command {
        Command::Witnesses(_) => find_word(found, "P"),
        _ => find_word(found, "FILE"),
    }
}

/// What the command of this name is to do, where it has all that it needs.
fn read_named<'a>(name: &str, found: &ArgMatches<'a>) -> Result<Request<'a>, Lack>
    ensures { IsReadIn name.now (rows_of (found_of found.now)) result }
{
    let command = read_command(name, found)?;
    Ok(Request {
        plan: find_plan(found, command),
        form: read_form(found),
        size: size_of(is_set(found, "large")),
        explain: is_set(found, "explain"),
        command,
    })
}

/// What the command is to do that the matches name.
fn read_matches<'a>(matches: &ArgMatches<'a>) -> Result<Request<'a>, Lack>
    ensures { IsReadBy (subcommand_rows_of matches.now) result }
{
    match matches.subcommand() {
        Some((name, found)) => read_named(name, found),
        None => Err(Lack::Word),
    }
}

/// Why a command line requests nothing whose command lacks this.
fn refuse(alloc: Global, lack: Lack) -> Refusal
    ensures { (words : List Text) → fault_of program_line words ≡ [] → IsReadBy (subcommand_of program_line words) (Err lack)
        → IsRefusalOf words result }
{
    match lack {
        Lack::Workers => Refusal::Workers,
        Lack::Anywhere => Refusal::Same,
        Lack::Pattern => Refusal::Pattern,
        Lack::Portable => Refusal::Portable,
        Lack::Spread => Refusal::Spread,
        Lack::Fit => Refusal::Witness,
        Lack::Word => match tell_missing(alloc) {
            Ok(error) => Refusal::Usage(error),
            Err(error) => Refusal::from(error),
        },
    }
}

/// What the words of a command line request. The first of them is the program's name.
///
/// Where it is `Ok`, `clap` finds no fault in the words, and each word of the request is the one that its matches have
/// by that name. `Workers` comes only for a `replay` whose word of `--workers` isn't one or more digits, `Same` only
/// for a `check` with `--same` and neither `--anywhere` nor `--pattern`, `Pattern` only for a `check` with `--pattern`
/// and an option that doesn't go with it, or with one that needs it and without it, `Portable` only for a `check` with
/// `--portable` and `--same`, `--pattern` or an option that needs the latter, `Spread` only for an `expand` whose
/// options don't say how ranks are put on nodes, `Witness` only for a `witness` whose words and options don't go
/// together. Any other error is one of those that `clap` has for the words, want of memory among them, or
/// `MissingRequiredArgument` where `clap` finds no fault and a word is missing all the same (no words are known for
/// which that is so).
pub fn read_request<'a>(alloc: Global, words: &'a [&'a str]) -> Result<Request<'a>, Refusal>
    ensures ok { IfOk result (IsRequestOf (texts_of words.entry.now)) }
    ensures err { IfErr result (IsRefusalOf (texts_of words.entry.now)) }
{
    let matches = match_words(alloc, words)?;
    let read = read_matches(&matches);
    drop(matches);
    match read {
        Ok(request) => Ok(request),
        Err(lack) => Err(refuse(alloc, lack)),
    }
}
