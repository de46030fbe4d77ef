//! A large file in pieces, whose lines several threads read. What a line says depends on its words alone. What it
//! declares depends on the lines above it, so all lines are judged in their order.

ghost use Rattle.std.specs.Prelude.{◌≡◌, ◌≤◌, ◌<◌, ◌++◌, length, IfOk, OnOk};
ghost use Rattle.wire_types.specs.Texts.{texts_of};
ghost use Rattle.wire_lines.specs.Text.{lines_of};
ghost use Rattle.std.specs.List.{All};
ghost use Rattle.wire_reader.specs.Left.{statements_left};
ghost use Rattle.wire_reader.specs.Pieces.{HasRoom, IsParsed, AreParsed, ArePiecesParsed, all_left};

use crate::lines::Cursor;
use rayon::prelude::*;
use std::alloc::{AllocError, Global};
use std::thread::Threads;
use wire_lines::{Line, count_lines, read_line};

/// A piece has so many bytes, and then the rest of its last line; the last piece may have fewer. To start a thread takes
/// as long as to read some hundred lines.
const PIECE_BYTES: usize = 262_144;

/// A line that isn't skipped: its number, and what it says, or nothing where its words are no line of a plan.
#[derive(Drop)]
pub struct Parsed<'a> {
    pub number: u64,
    pub said: Option<Line<'a>>,
}

/// How many pieces are cut off at once: what these 2 MiB say takes some 10 MiB, and at most 50 MiB where each line is
/// as short as a line of a plan can be. Twice as much is held, since the next pieces are read while these are judged.
const PIECES_AT_ONCE: usize = 8;

/// Cuts the next pieces off what is left, and gives them in their order.
pub fn cut_pieces<'a>(alloc: Global, left: &mut Cursor<'a>) -> Result<Vec<Cursor<'a>>, AllocError>
    requires some { 0 < length left.old.rest.now }
    requires room { HasRoom left.old }
    ensures left { IfOk result (λ pieces. all_left pieces.items ++ statements_left left.new ≡ statements_left left.old) }
    ensures each { IfOk result (λ pieces. All HasRoom pieces.items) }
    ensures room { OnOk result (HasRoom left.new) }
    ensures shorter { OnOk result (length left.new.rest.now < length left.old.rest.now) }
{
    let mut pieces = Vec::with_capacity(alloc, PIECES_AT_ONCE)?;
    'pieces: while !left.rest.is_empty() {
        if pieces.len() == PIECES_AT_ONCE {
            return Ok(pieces);
        }
        let last = left.rest.len().min(PIECE_BYTES) - 1;
        pieces.push(left.cut(last))?;
    }
    Ok(pieces)
}

/// For how many lines to make room: all of a text, but no more than if each had six bytes.
fn lines_at_most(bytes: &[u8]) -> usize
    ensures { result ≤ length (lines_of bytes.now) }
{
    count_lines(bytes).min(bytes.len() / 6 + 1)
}

/// What the line of this number says, which has these words.
fn parse_line<'a>(alloc: Global, number: u64, words: &[&'a [u8]]) -> Result<Parsed<'a>, AllocError>
    ensures { IfOk result (λ parsed. IsParsed (number, texts_of words.now) parsed) }
{
    let said = read_line(alloc, words)?;
    Ok(Parsed { number, said })
}

/// What the lines of a piece say, up to the first that is no line of a plan.
fn parse_piece<'a>(alloc: Global, piece: &Cursor<'a>) -> Result<Vec<Parsed<'a>>, AllocError>
    requires { HasRoom piece.now }
    ensures { IfOk result (λ parsed. AreParsed (statements_left piece.now) parsed.items) }
{
    let mut left = Cursor {
        rest: piece.rest,
        line: piece.line,
    };
    let mut words = Vec::new(alloc);
    let mut parsed = Vec::with_capacity(alloc, lines_at_most(piece.rest))?;
    'statements: while let Some(number) = left.next_words(&mut words)? {
        let line = parse_line(alloc, number, &words)?;
        let is_wrong = line.said.is_none();
        parsed.push(line)?;
        if is_wrong {
            return Ok(parsed);
        }
    }
    Ok(parsed)
}

/// What the lines of each piece say, read by several threads.
pub fn parse_pieces<'a>(
    rt: &(impl Threads + Sync),
    alloc: Global,
    pieces: &[Cursor<'a>],
) -> Result<Vec<Vec<Parsed<'a>>>, AllocError>
    requires { All HasRoom pieces.now }
    ensures { IfOk result (λ rows. ArePiecesParsed pieces.now rows.items) }
{
    pieces
        .par_iter()
        .with_min_len(1)
        .map(
            |piece: &Cursor| -> Result<Vec<Parsed>, AllocError>
                requires { HasRoom piece.now }
                ensures { IfOk result (λ parsed. AreParsed (statements_left piece.now) parsed.items) }
            { parse_piece(alloc, piece) },
        )
        .collect::<Result<Vec<_>, AllocError>>(rt, alloc)?
}
