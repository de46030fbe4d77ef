//! What each command does over a plan that is open.

use crate::kept::{Kept, KeptReader};
use crate::terminal_line::{NotedReader, Progress, Work};
use std::fs::{File, OpenFile};
use std::io::Read;
use std::rt::Files;
use std::sync::Wait;
use std::thread::Threads;
use wire_command::{CommandOptions, Ended};
use wire_command_line::{
    CallPair, CheckScope, Command, ExpandOptions, PairOptions, PatternOptions, ReplayOptions,
    Request, Spread as SpreadAsked,
};
use wire_commands::{
    Mode, PairAsked, ReplaySettings, check_placements, check_plan, check_replies, explain_order,
    follow_plan, migrate_plan, place_plan, replay_plan, witness_pair, witness_races,
};
use wire_explain::Language;
use wire_pattern_commands::{Expansion, PatternAsked, Spread, check_pattern, expand_pattern};
use wire_portable_commands::{PortableAsked, check_portable};
use wire_reader::Size;
use wire_sched::OpenGate;
use wire_types::{Fault, FromRead, Sink, Source};

/// The exit status of what was done, where nothing is to be told by it.
pub const DONE: u8 = 0;

/// How many bytes a file has, where the system says it.
pub fn length_of(file: &impl OpenFile) -> Option<u64> {
    match file.metadata() {
        Ok(about) => Some(about.len()),
        Err(_) => None,
    }
}

/// The name by which a plan is told of.
pub fn name_of(plan: Option<&str>) -> &str {
    match plan {
        Some(path) => path,
        None => "<stdin>",
    }
}

/// In which manner a command works.
fn manner_of<'a>(request: &Request<'a>) -> CommandOptions<'a> {
    CommandOptions {
        name: name_of(request.plan).as_bytes(),
        size: request.size,
        form: request.form,
    }
}

/// What a command does once it has read all.
pub fn work_of(command: Command<'_>) -> Work {
    match command {
        Command::Check(_) => Work::Judging,
        Command::Replay(_) => Work::Running,
        Command::Follow(_) => Work::Following,
        Command::Why(_) | Command::Witness(_) | Command::Witnesses(_) => Work::Searching,
        Command::Migrate => Work::Migrating,
        Command::Place(_) => Work::Placing,
        Command::Expand(_) => Work::Expanding,
    }
}

/// The four words that name two calls.
fn words_of<'a>(calls: CallPair<'a>) -> [&'a str; 4] {
    [
        calls.first.proc,
        calls.first.number,
        calls.second.proc,
        calls.second.number,
    ]
}

/// The two calls that a command asks about.
pub fn calls_of<'a>(command: Command<'a>) -> Option<CallPair<'a>> {
    match command {
        Command::Why(calls) => Some(calls),
        Command::Witness(options) => Some(options.calls),
        _ => None,
    }
}

/// The word that lists the ranks to be placed.
pub fn ranks_of<'a>(command: Command<'a>) -> Option<&'a str> {
    match command {
        Command::Place(ranks) => Some(ranks),
        _ => None,
    }
}

/// The word that lists groups with their numbers.
pub fn groups_of<'a>(command: Command<'a>) -> Option<&'a str> {
    match command {
        Command::Expand(options) => options.ranks,
        _ => None,
    }
}

/// In which language the file of a command is written.
pub fn language_of(command: Command<'_>) -> Language {
    match command {
        Command::Check(CheckScope::Pattern(_)) | Command::Expand(_) => Language::Pattern,
        _ => Language::Plan,
    }
}

/// What is noted while a command works: how far it is, what is kept of an order, and whether a plan was run in which
/// nothing is found.
#[derive(Drop)]
pub struct OrderWatch<'w> {
    pub progress: &'w Progress,
    pub kept: &'w mut Kept,
    pub has_run: &'w mut bool,
}

/// Runs the command that was requested over its plan, which is open, and answers the exit status.
pub fn run_command<R: Read, W: Sink>(
    rt: &(impl Files + Eprint + AllocGlobal + Threads + Wait + Sync),
    request: Request<'_>,
    watch: OrderWatch<'_>,
    reader: &mut FromRead<R>,
    writer: &mut W,
) -> Result<u8, Fault> {
    let manner = manner_of(&request);
    match request.command {
        Command::Check(judged) => status_of(check(rt, &request, judged, reader, writer)),
        Command::Replay(options) => {
            let replaying = replaying_of(&request, options);
            replay(rt, replaying, options.complete, watch, reader, writer)
        }
        Command::Follow(order) => {
            if request.plan.is_none() {
                // Where standard input is closed, the order would be opened in its place, and be read as the
                // plan. A read of no bytes fails there, and takes nothing anywhere else.
                probe(reader)?;
            }
            follow(rt, manner, order, watch, reader, writer)
        }
        Command::Why(calls) => {
            let words = words_of(calls);
            status_of(explain_order(rt.alloc(), manner, reader, writer, words))
        }
        Command::Migrate => {
            migrate_plan(rt.alloc(), request.size, reader, writer)?;
            Ok(DONE)
        }
        Command::Place(ranks) => {
            place_plan(rt.alloc(), request.size, reader, writer, ranks)?;
            Ok(DONE)
        }
        Command::Expand(options) => {
            let asked = expansion_of(options, request.size);
            expand_pattern(rt.alloc(), asked, reader, writer)?;
            Ok(DONE)
        }
        Command::Witness(options) => {
            let asked = asked_of(options);
            status_of(witness_pair(rt, rt.alloc(), manner, reader, writer, asked))
        }
        Command::Witnesses(most) => {
            status_of(witness_races(rt, rt.alloc(), manner, reader, writer, most))
        }
    }
}

/// Checks a plan on the placements that are asked for, or a pattern.
fn check<S: Source, W: Sink>(
    rt: &(impl AllocGlobal + Threads + Sync),
    request: &Request<'_>,
    judged: CheckScope,
    reader: &mut S,
    writer: &mut W,
) -> Result<Ended, Fault> {
    let manner = manner_of(request);
    match judged {
        CheckScope::Written => check_plan(rt, rt.alloc(), manner, reader, writer),
        CheckScope::Anywhere => check_placements(rt, rt.alloc(), manner, reader, writer),
        CheckScope::Same => check_replies(rt, rt.alloc(), manner, reader, writer),
        CheckScope::Portable => check_libraries(rt, manner, false, reader, writer),
        CheckScope::PortableAnywhere => check_libraries(rt, manner, true, reader, writer),
        CheckScope::Pattern(options) => {
            let asked = pattern_asked(request, options);
            check_pattern(rt, rt.alloc(), asked, reader, writer)
        }
    }
}

/// Checks a plan, and tells on which libraries each run does as the rules say.
fn check_libraries<S: Source, W: Sink>(
    rt: &(impl AllocGlobal + Threads + Sync),
    manner: CommandOptions<'_>,
    anywhere: bool,
    reader: &mut S,
    writer: &mut W,
) -> Result<Ended, Fault> {
    let asked = PortableAsked { manner, anywhere };
    check_portable(rt, rt.alloc(), asked, reader, writer)
}

/// The exit status of what ended so.
fn status_of(ended: Result<Ended, Fault>) -> Result<u8, Fault> {
    match ended {
        Ok(ended) => Ok(ended.status()),
        Err(fault) => Err(fault),
    }
}

/// Reads no bytes, which fails where the reader is closed.
fn probe<R: Read>(reader: &mut FromRead<R>) -> Result<(), Fault> {
    match reader.inner.read(&mut [0; 0]) {
        Ok(_) => Ok(()),
        Err(_) => Err(Fault::Read),
    }
}

/// What `check` is asked for besides the verdict about a pattern, and the form.
fn pattern_asked(request: &Request<'_>, options: PatternOptions) -> PatternAsked {
    PatternAsked {
        answers: options.answers,
        complete: options.complete,
        explain: request.explain,
        json: request.form.is_json(),
    }
}

/// On which nodes `expand` is to put ranks.
fn spread_of(spread: SpreadAsked) -> Spread {
    match spread {
        SpreadAsked::Apart => Spread::Apart,
        SpreadAsked::PerNode(each) => Spread::PerNode(each),
        SpreadAsked::ByNode(nodes) => Spread::ByNode(nodes),
    }
}

/// Which instance `expand` is to write.
fn expansion_of<'a>(options: ExpandOptions<'a>, size: Size) -> Expansion<'a> {
    Expansion {
        ranks: options.ranks,
        spread: spread_of(options.spread),
        size,
    }
}

/// The two calls that `witness` is asked about, and what it is to write of their runs.
fn asked_of<'a>(options: PairOptions<'a>) -> PairAsked<'a> {
    PairAsked {
        words: words_of(options.calls),
        orders: options.orders,
    }
}

/// How a plan is replayed. With `--explain` JSON has who waits for ever.
fn replaying_of(
    request: &Request<'_>,
    options: ReplayOptions,
) -> ReplaySettings<'static, OpenGate> {
    let mode = Mode {
        json: request.form.is_json(),
        anyway: options.anyway,
        explain: request.explain,
    };
    ReplaySettings {
        size: request.size,
        workers: options.workers,
        mode,
        gate: &OpenGate,
    }
}

/// Replays a plan. If it is to be complete, it names the first call that doesn't succeed.
fn replay<S: Source, W: Sink>(
    rt: &(impl Eprint + AllocGlobal + Threads + Wait + Sync),
    replaying: ReplaySettings<'_, OpenGate>,
    complete: bool,
    watch: OrderWatch<'_>,
    reader: &mut S,
    writer: &mut W,
) -> Result<u8, Fault> {
    let replayed = replay_plan(rt, rt.alloc(), reader, writer, replaying)?;
    *watch.has_run = matches!(replayed.ended, Ended::Clean);
    if !complete {
        return Ok(replayed.ended.status());
    }
    if let Some(line) = &replayed.failure {
        watch.progress.close(rt);
        tell_call(rt, line.as_slice());
    }
    Ok(replayed.status())
}

/// Tells the line of a call on standard error. All words of a plan are printable ASCII.
fn tell_call(rt: &impl Eprint, line: &[u8]) {
    if let Ok(text) = str::from_utf8(line) {
        let _ = rt.eprint("wire_up: ");
        let _ = rt.eprint(text);
    }
}

/// Follows the order of a file on a plan, which was opened first.
fn follow<S: Source, W: Sink>(
    rt: &(impl Files + AllocGlobal),
    manner: CommandOptions<'_>,
    order: &str,
    watch: OrderWatch<'_>,
    reader: &mut S,
    writer: &mut W,
) -> Result<u8, Fault> {
    let order = watch.kept.judge_opened(File::open(rt, order))?;
    let size = length_of(&order);
    let noted = NotedReader::new(order, watch.progress, size);
    let mut order = FromRead::new(KeptReader::new(noted, watch.kept));
    follow_plan(rt.alloc(), manner, reader, &mut order, writer)?;
    Ok(DONE)
}
