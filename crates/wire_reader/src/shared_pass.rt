//! The first pass over a large file: several threads read the lines of some pieces, while those before them are judged
//! and declared in their order.

ghost use Rattle.std.specs.Thread.{IsSync};
ghost use Rattle.std.specs.Prelude.{◌≡◌, ◌≤◌, ◌<◌, ◌⊎◌, [], List, Ok, Err, length, OnOk, IfOk, IfErr};
ghost use Rattle.wire_lines.specs.Text.{lines_of};
ghost use Rattle.wire_reader.specs.Limits as limit;
ghost use Rattle.wire_reader.specs.Statements.{Statement, statements};
ghost use Rattle.wire_reader.specs.Left.{statements_left};
ghost use Rattle.wire_reader.specs.FirstPass.{Declared, nothing, JudgesAll, FirstPass};
ghost use Rattle.wire_reader.specs.Drafted.{declared_of};
ghost use Rattle.wire_reader.specs.Pieces.{HasRoom, AreParsed, ArePiecesParsed, all_left};
ghost use Rattle.wire_reader.specs.Ahead.{IsReadAhead, IsProgress, Declares};
ghost use Rattle.wire_reader.specs.declared.lines.Cursor.{Cursor as Left};

use crate::draft::Draft;
use crate::first_pass::{first_pass, new_draft, read_header, take_said};
use crate::limits::Size;
use crate::lines::Cursor;
use crate::pieces::{Parsed, cut_pieces, parse_pieces};
use crate::tasks::{Task, run_both};
use std::alloc::{AllocError, Global};
use std::thread::Threads;
use wire_types::{Fault, Version};

/// A file of fewer bytes is read by one thread.
const SMALL_BYTES: usize = 1_048_576;

/// Declares what the lines of a piece say.
fn declare_parsed<'a>(
    draft: &mut Draft<'a>,
    alloc: Global,
    parsed: Vec<Parsed<'a>>,
) -> Result<(), Fault>
    ensures ok { OnOk result ((lines : List Statement) → AreParsed lines parsed.entry.items →
        JudgesAll (declared_of draft.old) lines (Ok (declared_of draft.new))) }
    ensures err { IfErr result (λ e. (e ≡ Fault.Memory) ⊎ ((lines : List Statement) → AreParsed lines parsed.entry.items →
        JudgesAll (declared_of draft.old) lines (Err e))) }
{
    for line in parsed {
        if let Err(fault) = take_said(draft, alloc, line.number, line.said) {
            return Err(fault);
        }
    }
    Ok(())
}

/// Declares what the lines of these pieces say, one piece after the other.
fn declare_rows<'a>(
    draft: &mut Draft<'a>,
    alloc: Global,
    rows: Vec<Vec<Parsed<'a>>>,
) -> Result<(), Fault>
    ensures ok { OnOk result ((pieces : List Left) → ArePiecesParsed pieces rows.entry.items →
        JudgesAll (declared_of draft.old) (all_left pieces) (Ok (declared_of draft.new))) }
    ensures err { IfErr result (λ e. (e ≡ Fault.Memory) ⊎ ((pieces : List Left) → ArePiecesParsed pieces rows.entry.items →
        JudgesAll (declared_of draft.old) (all_left pieces) (Err e))) }
{
    for parsed in rows {
        if let Err(fault) = declare_parsed(draft, alloc, parsed) {
            return Err(fault);
        }
    }
    Ok(())
}

/// Lines that are read and not yet declared, piece by piece, and what is left behind them.
#[derive(Drop)]
pub struct Ahead<'a> {
    pub rows: Vec<Vec<Parsed<'a>>>,
    pub left: Cursor<'a>,
}

/// A draft, and the lines behind it that are read and not yet declared.
#[derive(Drop)]
pub struct Reading<'a> {
    pub draft: Draft<'a>,
    pub rows: Vec<Vec<Parsed<'a>>>,
}

/// How far a file is read: what is declared and what is read, and what is left behind that.
#[derive(Drop)]
pub struct Progress<'a> {
    pub reading: Reading<'a>,
    pub left: Cursor<'a>,
}

/// Reads the lines of the next pieces, by several threads.
fn read_ahead<'a>(
    rt: &(impl Threads + Sync),
    alloc: Global,
    all: &Cursor<'a>,
) -> Result<Ahead<'a>, AllocError>
    requires some { 0 < length all.now.rest.now }
    requires room { HasRoom all.now }
    ensures { IfOk result (λ ahead. IsReadAhead all.now ahead.rows.items ahead.left) }
{
    let mut left = Cursor {
        rest: all.rest,
        line: all.line,
    };
    let pieces = cut_pieces(alloc, &mut left)?;
    let rows = parse_pieces(rt, alloc, &pieces)?;
    Ok(Ahead { rows, left })
}

/// What a draft and the lines read behind it declare, or the first fault of these lines.
fn declare_read<'a>(alloc: Global, reading: Reading<'a>) -> Result<Draft<'a>, Fault>
    ensures { Declares reading.entry result }
{
    let Reading { draft, rows } = reading;
    let mut more = draft;
    match declare_rows(&mut more, alloc, rows) {
        Ok(()) => Ok(more),
        Err(fault) => {
            drop(more);
            Err(fault)
        }
    }
}

/// To read the lines of the next pieces.
#[derive(Drop)]
struct ReadAhead<'r, 'a, R> {
    rt: &'r R,
    alloc: Global,
    left: Cursor<'a>,
}

impl<'r, 'a, R: Threads + Sync> Task for ReadAhead<'r, 'a, R> {
    type Output = Result<Ahead<'a>, AllocError>;

    ghost needs = { λ t. IsSync R.row × (0 < length t.left.rest.now) × HasRoom t.left };

    ghost gives = { λ t r. IfOk r (λ ahead. IsReadAhead t.left ahead.rows.items ahead.left) };

    fn run(self) -> Result<Ahead<'a>, AllocError> {
        read_ahead(self.rt, self.alloc, &self.left)
    }
}

/// To declare the lines that are read, up to the first fault.
#[derive(Drop)]
struct DeclareRead<'a> {
    alloc: Global,
    reading: Reading<'a>,
}

impl<'a> Task for DeclareRead<'a> {
    type Output = Result<Draft<'a>, Fault>;

    ghost needs = { λ t. Unit {0} };

    ghost gives = { λ t r. Declares t.reading r };

    fn run(self) -> Result<Draft<'a>, Fault> {
        let DeclareRead { alloc, reading } = self;
        declare_read(alloc, reading)
    }
}

/// Reads the next lines, while those that are read are declared.
fn read_and_declare<'a, R: Threads + Sync>(
    rt: &R,
    alloc: Global,
    progress: Progress<'a>,
) -> (Result<Ahead<'a>, AllocError>, Result<Draft<'a>, Fault>)
    requires some { 0 < length progress.left.rest.now }
    requires room { HasRoom progress.left }
    ensures read { IfOk result.0 (λ next. IsReadAhead progress.entry.left next.rows.items next.left) }
    ensures declared { Declares progress.entry.reading result.1 }
{
    let Progress { reading, left } = progress;
    run_both(
        rt,
        ReadAhead { rt, alloc, left },
        DeclareRead { alloc, reading },
    )
}

/// A draft with lines that are read behind it, where memory was enough to read them.
fn with_ahead<'a>(
    draft: Draft<'a>,
    next: Result<Ahead<'a>, AllocError>,
) -> Result<Progress<'a>, AllocError>
    ensures { IfOk result (λ p. (p.reading.draft ≡ draft.entry) × (next.entry ≡ Ok (record { rows = p.reading.rows; left = p.left }))) }
{
    match next {
        Ok(ahead) => {
            let Ahead { rows, left } = ahead;
            let reading = Reading { draft, rows };
            Ok(Progress { reading, left })
        }
        Err(error) => {
            drop(draft);
            Err(error)
        }
    }
}

/// Declares the lines that are read, and reads the next ones. A fault is the first of those that are read.
fn go_on<'a>(
    rt: &(impl Threads + Sync),
    alloc: Global,
    progress: Progress<'a>,
) -> Result<Progress<'a>, Fault>
    requires some { 0 < length progress.left.rest.now }
    requires room { HasRoom progress.left }
    ensures ok { IfOk result (λ next. (start : Declared) (lines : List Statement) → IsProgress start lines progress.entry →
        IsProgress start lines next) }
    ensures err { IfErr result (λ e. (e ≡ Fault.Memory) ⊎ ((start : Declared) (lines : List Statement) → IsProgress start lines progress.entry →
        JudgesAll start lines (Err e))) }
    ensures room { IfOk result (λ next. HasRoom next.left) }
    ensures shorter { IfOk result (λ next. length next.left.rest.now < length progress.entry.left.rest.now) }
{
    let (next, declared) = read_and_declare(rt, alloc, progress);
    match declared {
        Ok(draft) => {
            let more = with_ahead(draft, next)?;
            Ok(more)
        }
        Err(fault) => {
            drop(next);
            Err(fault)
        }
    }
}

/// Declares the lines that are read and those that are left, or tells the first fault among them.
fn declare_left<'a>(
    rt: &(impl Threads + Sync),
    alloc: Global,
    first: Progress<'a>,
) -> Result<Draft<'a>, Fault>
    requires room { HasRoom first.left }
    ensures ok { IfOk result (λ d. (start : Declared) (lines : List Statement) → IsProgress start lines first.entry →
        JudgesAll start lines (Ok (declared_of d))) }
    ensures err { IfErr result (λ e. (e ≡ Fault.Memory) ⊎ ((start : Declared) (lines : List Statement) → IsProgress start lines first.entry →
        JudgesAll start lines (Err e))) }
{
    let mut progress = first;
    'groups: while !progress.left.rest.is_empty() {
        match go_on(rt, alloc, progress) {
            Ok(next) => progress = next,
            Err(fault) => return Err(fault),
        }
    }
    let Progress { reading, left: _ } = progress;
    declare_read(alloc, reading)
}

/// What the lines that are left declare, in a file of this version.
fn declare_shared<'a>(
    rt: &(impl Threads + Sync),
    alloc: Global,
    size: Size,
    version: Version,
    cursor: Cursor<'a>,
) -> Result<Draft<'a>, Fault>
    requires { HasRoom cursor }
    ensures ok { IfOk result (λ d. JudgesAll (nothing size version) (statements_left cursor.entry) (Ok (declared_of d))) }
    ensures err { IfErr result (λ e. (e ≡ Fault.Memory) ⊎ JudgesAll (nothing size version) (statements_left cursor.entry) (Err e)) }
{
    let reading = Reading {
        draft: new_draft(alloc, size, version),
        rows: Vec::new(alloc),
    };
    declare_left(
        rt,
        alloc,
        Progress {
            reading,
            left: cursor,
        },
    )
}

/// What a large file declares.
fn shared_first_pass<'a>(
    rt: &(impl Threads + Sync),
    alloc: Global,
    size: Size,
    bytes: &'a [u8],
) -> Result<Draft<'a>, Fault>
    requires { length bytes.now ≤ limit.file_bytes size }
    ensures ok { IfOk result
        (λ d. FirstPass size (statements bytes.now) (length (lines_of bytes.now)) (Ok (declared_of d))) }
    ensures err { IfErr result
        (λ e. (e ≡ Fault.Memory) ⊎ FirstPass size (statements bytes.now) (length (lines_of bytes.now)) (Err e)) }
{
    let mut cursor = Cursor::new(bytes);
    let version = read_header(alloc, &mut cursor)?;
    declare_shared(rt, alloc, size, version, cursor)
}

/// What a file declares, as `first_pass` answers it. The lines of a file of a MiB or more are read by several
/// threads.
pub fn first_pass_by_size<'a>(
    rt: &(impl Threads + Sync),
    alloc: Global,
    size: Size,
    bytes: &'a [u8],
) -> Result<Draft<'a>, Fault>
    requires { length bytes.now ≤ limit.file_bytes size }
    ensures ok { IfOk result
        (λ d. FirstPass size (statements bytes.now) (length (lines_of bytes.now)) (Ok (declared_of d))) }
    ensures err { IfErr result
        (λ e. (e ≡ Fault.Memory) ⊎ FirstPass size (statements bytes.now) (length (lines_of bytes.now)) (Err e)) }
{
    if bytes.len() < SMALL_BYTES {
        first_pass(alloc, size, bytes)
    } else {
        shared_first_pass(rt, alloc, size, bytes)
    }
}
