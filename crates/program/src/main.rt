//! The program `wire_up`: hands its words, its file and the standard streams to the library, and ends with a status: 0
//! done without findings, 1 findings or a call that fails, 2 refused, 3 memory, 4 reading or writing, 5 usage.
#![tactic(auto)]

mod commands;
mod kept;
mod terminal_line;

ghost use Rattle.std.specs.Thread.{IsSync};

use clap::Error;
use clap::error::ErrorKind;
use commands::{
    DONE, OrderWatch, calls_of, groups_of, language_of, length_of, name_of, ranks_of, run_command,
    work_of,
};
use kept::{Kept, KeptReader};
use std::alloc::{AllocError, Global};
use std::fs::File;
use std::io::Read;
use std::process::ExitCode;
use std::rt::{Env, Files};
use std::sync::Wait;
use std::thread::Threads;
use std::time::Clock;
use std::{env, io, thread};
use terminal_line::{NotedReader, NotedWriter, Progress, Streams, start_line};
use wire_command_line::{CallPair, Command, Refusal, Request, read_request};
use wire_explain::{
    explain_file, explain_order, explain_part, explain_rank, explain_stop, explain_word,
};
use wire_standstill::explain_standstill;
use wire_types::{Fault, FromRead, ToWrite, write_out};

/// The exit status of a command line that can't be read.
const USAGE: u8 = 5;

/// What is told of words that are known, but don't go together.
const WORKERS_MISUSED: &str = "wire_up: usage --workers";

const SAME_MISUSED: &str = "wire_up: usage --same: it needs --anywhere";

const PATTERN_MISUSED: &str = "wire_up: usage --pattern: --answers and --complete need it; \
    --anywhere, --same, --lines and --large don't go with it";

const PORTABLE_MISUSED: &str =
    "wire_up: usage --portable: of patterns it isn't known, and it doesn't go with --same";

const SPREAD_MISUSED: &str =
    "wire_up: usage expand: say --per-node COUNT or --by node --nodes COUNT, each from 1 on";

const WITNESS_MISUSED: &str =
    "wire_up: usage witness: --first or --second needs two calls, and no --lines or --json; \
    --most needs a number, and no calls";

/// Why the program didn't do what it was asked to do.
#[derive(Drop)]
enum Failure {
    /// A fault of the library, not yet told.
    Fault(Fault),
    /// A fault, and what explains it.
    Explained(Fault, Vec<u8>),
    /// A command line that can't be read. The user was told already.
    Usage,
}

impl From<Fault> for Failure {
    fn from(fault: Fault) -> Failure {
        Failure::Fault(fault)
    }
}

impl From<AllocError> for Failure {
    fn from(_error: AllocError) -> Failure {
        Failure::Fault(Fault::Memory)
    }
}

/// The arguments of the program, its own name among them.
fn arguments(rt: &(impl Env + Eprint + AllocGlobal)) -> Result<Vec<String>, Failure> {
    match env::args(rt) {
        Ok(arguments) => Ok(arguments.collect(rt.alloc())?),
        Err(error) if error.kind() == io::ErrorKind::OutOfMemory => Err(Fault::Memory.into()),
        Err(_) => {
            let _ = rt.eprintln("error: an argument is not UTF-8");
            Err(Failure::Usage)
        }
    }
}

/// The words of the command line: the arguments, with the command's name in place of the first,
/// whatever the program's file is called.
fn words<'a>(alloc: Global, arguments: &'a [String]) -> Result<Vec<&'a str>, AllocError> {
    let mut words = Vec::new(alloc);
    for (place, argument) in arguments.iter().enumerate() {
        let word = if place == 0 {
            "wire_up"
        } else {
            argument.as_str()
        };
        words.push(word)?;
    }
    Ok(words)
}

/// Does what the words request, and answers the exit status.
fn obey<'a>(
    rt: &(impl Files + Input + Print + Eprint + AllocGlobal + Clock + Threads + Wait + Sync),
    words: &'a [&'a str],
    streams: Streams,
) -> Result<u8, Failure> {
    match read_request(rt.alloc(), words) {
        Ok(request) => {
            let progress = Progress::new(work_of(request.command), streams);
            serve_with_line(rt, request, &progress)
        }
        Err(refusal) => refuse(rt, refusal),
    }
}

/// Tells why the words request nothing.
fn refuse(rt: &(impl Print + Eprint + AllocGlobal), refusal: Refusal) -> Result<u8, Failure> {
    match refusal {
        Refusal::Workers => tell_misused(rt, WORKERS_MISUSED),
        Refusal::Same => tell_misused(rt, SAME_MISUSED),
        Refusal::Pattern => tell_misused(rt, PATTERN_MISUSED),
        Refusal::Portable => tell_misused(rt, PORTABLE_MISUSED),
        Refusal::Spread => tell_misused(rt, SPREAD_MISUSED),
        Refusal::Witness => tell_misused(rt, WITNESS_MISUSED),
        Refusal::Usage(error) => tell(rt, &error),
    }
}

/// Tells by this line which words are misused.
fn tell_misused(rt: &impl Eprint, line: &str) -> Result<u8, Failure> {
    let _ = rt.eprintln(line);
    Err(Failure::Usage)
}

/// What a command notes while it works: how far it is, what it was given and has read, and whether a plan was run in
/// which nothing is found.
#[derive(Drop)]
struct Watch<'p, 'w> {
    progress: &'p Progress,
    request: Request<'w>,
    plan: Kept,
    order: Kept,
    has_run: bool,
}

/// The word of two calls at a place, from 1.
fn word_at<'a>(calls: CallPair<'a>, place: u64) -> Option<&'a str> {
    match place {
        1 => Some(calls.first.proc),
        2 => Some(calls.first.number),
        3 => Some(calls.second.proc),
        4 => Some(calls.second.number),
        _ => None,
    }
}

/// The part at a place, from 1, of a word that lists ranks or groups.
fn part_at(list: &str, place: u64) -> Option<&str> {
    list.split(',').nth(place.saturating_sub(1) as usize)
}

/// What explains the fault of a line of an order, where a copy of that was kept.
fn explain_line(
    alloc: Global,
    line: u64,
    watch: &Watch<'_, '_>,
) -> Result<Option<Vec<u8>>, AllocError> {
    match &watch.order.bytes {
        Some(bytes) => Ok(Some(explain_order(alloc, bytes.as_slice(), line)?)),
        None => Ok(None),
    }
}

/// What explains a fault of a list of ranks or groups, where a command has one.
fn explain_list(
    alloc: Global,
    place: u64,
    command: Command<'_>,
) -> Result<Option<Vec<u8>>, AllocError> {
    if let Some(ranks) = ranks_of(command) {
        return match part_at(ranks, place) {
            Some(rank) => Ok(Some(explain_rank(alloc, place, rank)?)),
            None => Ok(None),
        };
    }
    let Some(groups) = groups_of(command) else {
        return Ok(None);
    };
    match part_at(groups, place) {
        Some(part) => Ok(Some(explain_part(alloc, place, part)?)),
        None => Ok(None),
    }
}

/// What explains a fault of an order, of the words of a question, or of a list.
fn explain_place(
    alloc: Global,
    place: u64,
    watch: &Watch<'_, '_>,
) -> Result<Option<Vec<u8>>, AllocError> {
    if let Some(calls) = calls_of(watch.request.command) {
        return match word_at(calls, place) {
            Some(word) => Ok(Some(explain_word(alloc, place, word)?)),
            None => Ok(None),
        };
    }
    match watch.request.command {
        Command::Follow(_) => explain_line(alloc, place, watch),
        command => explain_list(alloc, place, command),
    }
}

/// What explains a step of an order that can't be taken, where copies of the plan and of the order were kept.
fn explain_step(alloc: Global, watch: &Watch<'_, '_>) -> Option<Vec<u8>> {
    let Some(plan) = &watch.plan.bytes else {
        return None;
    };
    let Some(order) = &watch.order.bytes else {
        return None;
    };
    match explain_stop(alloc, watch.request.size, plan.as_slice(), order.as_slice()) {
        Ok(text) => Some(text),
        Err(_) => None,
    }
}

/// What explains the fault of a plan or a pattern, where a copy of it was kept.
fn explain_kept(
    alloc: Global,
    fault: Fault,
    watch: &Watch<'_, '_>,
) -> Result<Option<Vec<u8>>, AllocError> {
    match &watch.plan.bytes {
        Some(bytes) => {
            let language = language_of(watch.request.command);
            Ok(Some(explain_file(alloc, language, bytes.as_slice(), fault)?))
        }
        None => Ok(None),
    }
}

/// What explains that a file couldn't be opened or read: its name and what the system says, and what was expected.
fn explain_read(alloc: Global, watch: &Watch<'_, '_>) -> Result<Option<Vec<u8>>, AllocError> {
    let mut text = Vec::new(alloc);
    if let Some(error) = &watch.plan.error {
        push_reason(alloc, &mut text, name_of(watch.request.plan), error)?;
    }
    if let Some(error) = &watch.order.error {
        push_reason(alloc, &mut text, order_of(watch.request.command), error)?;
    }
    if let Some(expected) = explain_kept(alloc, Fault::Read, watch)? {
        text.extend_from_slice(expected.as_slice())?;
    }
    Ok(Some(text))
}

/// The name of the order that a command follows.
fn order_of<'a>(command: Command<'a>) -> &'a str {
    match command {
        Command::Follow(order) => order,
        _ => "<order>",
    }
}

/// Appends the line that says for which error a file couldn't be opened or read. A byte of its name that isn't
/// printable ASCII is shown as `?`.
fn push_reason(
    alloc: Global,
    text: &mut Vec<u8>,
    name: &str,
    error: &io::Error,
) -> Result<(), AllocError> {
    text.extend_from_slice(b"  ")?;
    for byte in name.as_bytes() {
        text.push(if *byte < 32 || 126 < *byte { 63 } else { *byte })?;
    }
    text.extend_from_slice(b": ")?;
    let reason = error.to_string(alloc)?;
    text.extend_from_slice(reason.as_bytes())?;
    text.push(10)?;
    Ok(())
}

/// What explains a fault, where there is something to tell.
fn explain(
    alloc: Global,
    fault: Fault,
    watch: &Watch<'_, '_>,
) -> Result<Option<Vec<u8>>, AllocError> {
    match fault {
        Fault::Memory => Ok(None),
        Fault::BadOrder(place) => explain_place(alloc, place, watch),
        Fault::NotReady(_) => Ok(explain_step(alloc, watch)),
        Fault::Read => explain_read(alloc, watch),
        _ => explain_kept(alloc, fault, watch),
    }
}

/// A fault, with what explains it, where memory serves.
fn explain_failure(alloc: Global, fault: Fault, watch: &Watch<'_, '_>) -> Failure {
    match explain(alloc, fault, watch) {
        Ok(Some(text)) => Failure::Explained(fault, text),
        Ok(None) | Err(_) => Failure::Fault(fault),
    }
}

/// Runs the command that was requested, with a line on the terminal that says how far it is, and answers the exit
/// status.
fn serve_with_line<R: Files + Input + Print + Eprint + AllocGlobal + Clock + Threads + Wait + Sync>(
    rt: &R,
    request: Request<'_>,
    progress: &Progress,
) -> Result<u8, Failure> {
    thread::scope(
        thread::scope_env(),
        rt,
        |scope| -> Result<u8, Failure>
            requires { IsSync R.row }
        {
            let line = start_line(scope, rt, progress);
            let answer = serve_explained(rt, request, progress);
            progress.close(rt);
            if let Some(line) = line {
                line.join(rt);
            }
            answer
        },
    )
}

/// Whether a fault is explained: where the request says so; and that a file couldn't be opened or read, where standard
/// error is a terminal.
fn is_explained(fault: Fault, request: Request<'_>, progress: &Progress) -> bool {
    match fault {
        Fault::Read => request.explain || progress.is_seen(),
        _ => request.explain,
    }
}

/// Runs the command that was requested, and answers the exit status. A fault is explained where that is wanted.
fn serve_explained(
    rt: &(impl Files + Input + Print + Eprint + AllocGlobal + Threads + Wait + Sync),
    request: Request<'_>,
    progress: &Progress,
) -> Result<u8, Failure> {
    let mut watch = Watch {
        progress,
        request,
        plan: Kept::new(rt.alloc(), request.explain),
        order: Kept::new(rt.alloc(), request.explain),
        has_run: false,
    };
    match serve(rt, &mut watch) {
        Ok(status) => {
            tell_standstill(rt, &watch);
            Ok(status)
        }
        Err(fault) => {
            if is_explained(fault, request, progress) {
                Err(explain_failure(rt.alloc(), fault, &watch))
            } else {
                Err(fault.into())
            }
        }
    }
}

/// Tells on standard error of the ranks that wait for ever, where a plan was run in which nothing is found, and a copy of
/// it was kept. Nothing where memory fails.
fn tell_standstill(rt: &(impl Eprint + AllocGlobal + Wait), watch: &Watch<'_, '_>) {
    let Some(plan) = &watch.plan.bytes else {
        return;
    };
    if !watch.has_run {
        return;
    }
    if let Ok(told) = explain_standstill(rt.alloc(), watch.request.size, plan.as_slice()) {
        tell_waits(rt, watch.progress, told.as_slice());
    }
}

/// Tells these lines of ranks that wait for ever, where there are any. They are printable ASCII.
fn tell_waits(rt: &(impl Eprint + Wait), progress: &Progress, lines: &[u8]) {
    if lines.is_empty() {
        return;
    }
    if let Ok(text) = str::from_utf8(lines) {
        progress.close(rt);
        let _ = rt.eprint("wire_up: ranks wait for ever\n");
        let _ = rt.eprint(text);
    }
}

/// Opens the plan of the command that was requested, runs the command, and answers the exit status.
fn serve(
    rt: &(impl Files + Input + Print + Eprint + AllocGlobal + Threads + Wait + Sync),
    watch: &mut Watch<'_, '_>,
) -> Result<u8, Fault> {
    let (progress, request) = (watch.progress, watch.request);
    let mut reader = open_plan(rt, request.plan, progress, &mut watch.plan)?;
    let mut writer = ToWrite::new(NotedWriter::new(rt, progress));
    let kept = &mut watch.order;
    let has_run = &mut watch.has_run;
    let order = OrderWatch {
        progress,
        kept,
        has_run,
    };
    run_command(rt, request, order, &mut reader, &mut writer)
}

/// Tells why there is nothing to do. Where the user asked for help or the version, the program is done then. Else the
/// words can't be read.
fn tell(rt: &(impl Print + Eprint + AllocGlobal), error: &Error) -> Result<u8, Failure> {
    if error.kind() == ErrorKind::OutOfMemory {
        return Err(Fault::Memory.into());
    }
    if error.use_stderr() {
        let _ = rt.eprint(error);
        return Err(Failure::Usage);
    }
    let help = error.to_string(rt.alloc())?;
    write_out(&mut ToWrite::new(io::writer(rt)), help.as_bytes()).map_err(Fault::Write)?;
    Ok(DONE)
}

/// A plan that is open: a file, or standard input.
#[derive(Drop)]
enum Opened<F, S> {
    File(F),
    Standard(S),
}

impl<F: Read, S: Read> Read for Opened<F, S> {
    fn read(&mut self, buffer: &mut [u8]) -> io::Result<usize> {
        match self {
            Opened::File(file) => file.read(buffer),
            Opened::Standard(input) => input.read(buffer),
        }
    }
}

/// Opens a plan: a file, or standard input where none is named.
fn open_plan<'p, R: Files + Input + Eprint + Wait>(
    rt: &R,
    plan: Option<&str>,
    progress: &'p Progress,
    kept: &'p mut Kept,
) -> Result<FromRead<KeptReader<'p, NotedReader<'p, Opened<R::File, R::Reader>>>>, Fault> {
    let (opened, size) = match plan {
        Some(path) => {
            let file = kept.judge_opened(File::open(rt, path))?;
            let size = length_of(&file);
            (Opened::File(file), size)
        }
        None => {
            progress.read_standard_input(rt);
            (Opened::Standard(rt.reader()), None)
        }
    };
    let noted = NotedReader::new(opened, progress, size);
    Ok(FromRead::new(KeptReader::new(noted, kept)))
}

/// Reads the command line, and does what it asks for: the exit status.
fn run(
    rt: &(impl Env + Files + Input + Print + Eprint + AllocGlobal + Clock + Threads + Wait + Sync),
    streams: Streams,
) -> Result<u8, Failure> {
    let arguments = arguments(rt)?;
    let words = words(rt.alloc(), arguments.as_slice())?;
    obey(rt, words.as_slice(), streams)
}

fn main(rt: HostRuntime) -> ExitCode {
    match run(&rt, Streams::of(&rt, rt.stdin(), rt.stderr())) {
        Ok(status) => ExitCode::from(status),
        Err(Failure::Usage) => ExitCode::from(USAGE),
        Err(Failure::Fault(fault)) => {
            let _ = fault.write_line(&mut ToWrite::new(rt.stderr()));
            ExitCode::from(fault.status())
        }
        Err(Failure::Explained(fault, text)) => {
            let _ = fault.write_line(&mut ToWrite::new(rt.stderr()));
            let _ = write_out(&mut ToWrite::new(rt.stderr()), text.as_slice());
            ExitCode::from(fault.status())
        }
    }
}
