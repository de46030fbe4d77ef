//! The line on a terminal that says what a long command is at, and how far. It shows on standard error, if that is a
//! terminal, and is gone before anything else is written there. No contract speaks of it, and an error of it counts for
//! nothing.

use std::io::{IsTerminal, Read, Stderr, Stdin, Write};
use std::rt::Files;
use std::sync::atomic::{AtomicBool, AtomicU64, Ordering};
use std::sync::{Mutex, Wait};
use std::thread::{JoinHandle, Parker, Scope};
use std::time::{Clock, Duration, Instant};
use std::{fs, io};

/// After how many seconds the line is shown.
const FIRST: u64 = 1;

/// How many milliseconds the line stays as it is.
const TICK: u64 = 250;

/// How often it is time for the line: ten years of ticks. After them there is none.
const MOST_TICKS: u64 = 10 * 366 * 24 * 3600 * 1000 / TICK;

/// Takes a line away that is no longer than this one.
const BLANK: &str = "\r                                        \r";

/// What is known of the standard streams.
#[derive(Clone, Copy)]
pub struct Streams {
    /// Standard input is a terminal, where a user types a plan.
    is_typed: bool,
    /// Standard output goes into a file, and so to no terminal.
    is_filed: bool,
    /// Standard error is a terminal.
    is_seen: bool,
}

impl Streams {
    /// Looks at the standard streams. At standard output only where a line may be shown.
    pub fn of(rt: &impl Files, input: Stdin, error: Stderr) -> Streams {
        let is_seen = error.is_terminal();
        Streams {
            is_typed: input.is_terminal(),
            is_filed: is_seen && is_output_filed(rt),
            is_seen,
        }
    }
}

/// Whether standard output goes into a file, as far as the system tells.
fn is_output_filed(rt: &impl Files) -> bool {
    match fs::metadata(rt, "/proc/self/fd/1") {
        Ok(about) => about.is_file(),
        Err(_) => false,
    }
}

/// The line itself.
#[derive(Drop)]
struct Line {
    /// It is on the terminal.
    is_shown: bool,
    /// It is never shown again.
    is_closed: bool,
}

/// What a command does once it has read all.
#[derive(Clone, Copy)]
pub enum Work {
    Judging,
    Running,
    Following,
    Searching,
    Migrating,
    Placing,
    Expanding,
}

impl Work {
    /// Its word.
    fn word(self) -> &'static str {
        match self {
            Work::Judging => "judging",
            Work::Running => "running",
            Work::Following => "following",
            Work::Searching => "searching",
            Work::Migrating => "migrating",
            Work::Placing => "placing",
            Work::Expanding => "expanding",
        }
    }
}

/// What a command is at.
#[derive(Clone, Copy)]
enum Stage {
    Reading { bytes: u64, percent: Option<u64> },
    Working,
    Writing,
}

/// How far a command is. The thread that does the command notes it, and another one shows it.
#[derive(Drop)]
pub struct Progress {
    /// What is done once all is read.
    work: Work,
    streams: Streams,
    is_reading: AtomicBool,
    is_writing: AtomicBool,
    /// How many bytes of a file were read.
    bytes: AtomicU64,
    /// How many bytes the file has, or 0 where that isn't known.
    size: AtomicU64,
    line: Mutex<Line>,
    /// Where the thread that shows the line waits.
    pause: Parker,
}

impl Progress {
    /// A command that has read nothing.
    pub fn new(work: Work, streams: Streams) -> Progress {
        Progress {
            work,
            streams,
            is_reading: AtomicBool::new(true),
            is_writing: AtomicBool::new(false),
            bytes: AtomicU64::new(0),
            size: AtomicU64::new(0),
            line: Mutex::new(Line {
                is_shown: false,
                is_closed: !streams.is_seen,
            }),
            pause: Parker::new(),
        }
    }

    /// Whether standard error is a terminal.
    pub fn is_seen(&self) -> bool {
        self.streams.is_seen
    }

    /// Takes the line away, and shows none from now on.
    pub fn close(&self, rt: &(impl Eprint + Wait)) {
        let mut line = self.line.lock(rt);
        if line.is_shown {
            let _ = rt.eprint(BLANK);
        }
        *line = Line {
            is_shown: false,
            is_closed: true,
        };
        drop(line);
        self.pause.unpark();
    }

    /// Notes that standard input is read. No line is shown over what a user types.
    pub fn read_standard_input(&self, rt: &(impl Eprint + Wait)) {
        if self.streams.is_typed {
            self.close(rt);
        }
    }

    /// Notes that something is written. The line stays only where standard output goes into a file.
    fn write_some(&self, rt: &(impl Eprint + Wait)) {
        self.is_writing.store(true, Ordering::SeqCst);
        if !self.streams.is_filed {
            self.close(rt);
        }
    }

    /// What the command is at.
    fn stage(&self) -> Stage {
        if self.is_writing.load(Ordering::SeqCst) {
            return Stage::Writing;
        }
        if !self.is_reading.load(Ordering::SeqCst) {
            return Stage::Working;
        }
        let bytes = self.bytes.load(Ordering::SeqCst);
        let percent = match self.size.load(Ordering::SeqCst) {
            0 => None,
            size => Some((bytes / size.div_ceil(100)).min(100)),
        };
        Stage::Reading { bytes, percent }
    }

    /// Shows the line, after so many seconds.
    fn show(&self, rt: &impl Eprint, seconds: u64) {
        let _ = match self.stage() {
            Stage::Reading {
                bytes,
                percent: None,
            } => eprint!(rt; "{BLANK}wire_up: reading {} MB", bytes / 1_000_000),
            Stage::Reading {
                bytes,
                percent: Some(percent),
            } => eprint!(rt;
                "{BLANK}wire_up: reading {} MB, {percent}%",
                bytes / 1_000_000
            ),
            Stage::Working => eprint!(rt; "{BLANK}wire_up: {}, {seconds} s", self.work.word()),
            Stage::Writing => eprint!(rt; "{BLANK}wire_up: writing, {seconds} s"),
        };
    }

    /// Shows the line if it is time. Answers whether it may be shown again.
    fn tick(&self, rt: &(impl Eprint + Wait), seconds: u64) -> bool {
        let mut line = self.line.lock(rt);
        if line.is_closed {
            return false;
        }
        if seconds >= FIRST {
            self.show(rt, seconds);
            *line = Line {
                is_shown: true,
                is_closed: false,
            };
        }
        true
    }

    /// Shows the line again and again, until it is closed or has had all its ticks.
    fn keep(&self, rt: &(impl Eprint + Clock + Wait), start: Instant) {
        for _ in 0..MOST_TICKS {
            self.pause.park_timeout(rt, Duration::from_millis(TICK));
            match start.elapsed(rt) {
                Ok(elapsed) if self.tick(rt, elapsed.as_secs()) => {}
                _ => return,
            }
        }
        self.close(rt);
    }
}

/// Starts the thread that shows the line. It ends when the line is closed. Where there is no terminal, no clock or no
/// thread, there is no line.
pub fn start_line<'s, E, R: Eprint + Clock + Wait + Sync>(
    scope: &Scope<'s, E>,
    rt: &'s R,
    progress: &'s Progress,
) -> Option<JoinHandle<()>> {
    if !progress.streams.is_seen {
        return None;
    }
    let start = Instant::now(rt).ok()?;
    scope.spawn(move || progress.keep(rt, start)).ok()
}

/// A reader that notes how far it is.
#[derive(Drop)]
pub struct NotedReader<'p, T> {
    inner: T,
    progress: &'p Progress,
    bytes: u64,
    size: u64,
}

impl<'p, T: Read> NotedReader<'p, T> {
    /// A reader of so many bytes, if that is known.
    pub fn new(inner: T, progress: &'p Progress, size: Option<u64>) -> Self {
        NotedReader {
            inner,
            progress,
            bytes: 0,
            size: size.unwrap_or(0),
        }
    }

    /// Notes that so many bytes were read.
    fn note(&mut self, count: usize) {
        self.bytes = self.bytes.saturating_add(count as u64);
        self.progress.bytes.store(self.bytes, Ordering::SeqCst);
        self.progress.size.store(self.size, Ordering::SeqCst);
        self.progress.is_reading.store(count > 0, Ordering::SeqCst);
    }
}

impl<T: Read> Read for NotedReader<'_, T> {
    fn read(&mut self, buffer: &mut [u8]) -> io::Result<usize> {
        let answer = self.inner.read(buffer);
        if let Ok(count) = &answer {
            if !buffer.is_empty() {
                self.note(*count);
            }
        }
        answer
    }
}

/// Standard output, before which the line is taken away.
#[derive(Drop)]
pub struct NotedWriter<'p, R> {
    rt: &'p R,
    progress: &'p Progress,
}

impl<'p, R: Print + Eprint + Wait> NotedWriter<'p, R> {
    /// Standard output.
    pub fn new(rt: &'p R, progress: &'p Progress) -> Self {
        NotedWriter { rt, progress }
    }
}

impl<R: Print + Eprint + Wait> Write for NotedWriter<'_, R> {
    fn write(&mut self, bytes: &[u8]) -> io::Result<usize> {
        self.progress.write_some(self.rt);
        self.rt.write_some(bytes)
    }

    fn flush(&mut self) -> io::Result<()> {
        Ok(())
    }
}
