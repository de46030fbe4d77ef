//! The lines of a file that say something.

ghost use Rattle.std.specs.Prelude.{◌≡◌, ◌+◌, ◌<◌, ◌≤◌, ◌^◌, ◌∷◌, ◌++◌, [], length, take, MatchOption, OnOk, OnErr, IfOk};
ghost use Rattle.wire_types.specs.Texts.{texts_of};
ghost use Rattle.wire_lines.specs.Text.{line_end};
ghost use Rattle.wire_reader.specs.Statements.{is_skipped, statements};
ghost use Rattle.wire_reader.specs.Left.{statements_left, end_of, stated};
ghost use Rattle.wire_reader.specs.Pieces.{HasRoom};

use std::alloc::{AllocError, Global};
use wire_lines::{count_lines, cut_lines, cut_piece, cut_words, trim_return};

/// A line that isn't skipped: its number and its words.
#[derive(Drop)]
pub struct Statement<'a> {
    pub number: u64,
    pub words: Vec<&'a [u8]>,
}

/// What is left of a file, and the number of its next line.
#[derive(Drop)]
pub struct Cursor<'a> {
    pub rest: &'a [u8],
    pub line: u64,
}

/// Whether a line says nothing: it has no word, or is a comment.
fn is_skipped_line(words: &[&[u8]]) -> bool
    ensures { result ≡ is_skipped (texts_of words.now) }
{
    match words.first() {
        None => true,
        Some(first) => first.first() == Some(&b'#'),
    }
}

impl<'a> Cursor<'a> {
    /// A cursor before the first line.
    pub fn new(bytes: &'a [u8]) -> Cursor<'a>
        ensures left { statements_left result ≡ statements bytes.now }
        ensures start { result.line ≡ 1 }
        ensures rest { result.rest.now ≡ bytes.now }
    {
        Cursor {
            rest: bytes,
            line: 1,
        }
    }

    /// Cuts off the lines up to that in which the byte at this place stands. What is left begins after them.
    pub(crate) fn cut(&mut self, at: usize) -> Cursor<'a>
        requires room { HasRoom self.old }
        requires there { at < length self.old.rest.now }
        ensures front { result.rest.now ≡ take (line_end at self.old.rest.now) self.old.rest.now }
        ensures bytes { self.old.rest.now ≡ result.rest.now ++ self.new.rest.now }
        ensures line { result.line ≡ self.old.line }
        ensures next { self.new.line ≡ end_of result }
        ensures left { statements_left self.old ≡ statements_left result ++ statements_left self.new }
        ensures piece { HasRoom result }
        ensures room { HasRoom self.new }
        ensures shorter { length self.new.rest.now < length self.old.rest.now }
    {
        let (lines, rest) = cut_lines(self.rest, at);
        let piece = Cursor {
            rest: lines,
            line: self.line,
        };
        self.line += count_lines(lines) as u64;
        self.rest = rest;
        piece
    }

    /// The number of the next line that isn't skipped. Its words take the place of what the list held. If
    /// memory runs out, the cursor is as it was. Then, and where no such line is left, the list may hold
    /// anything.
    pub fn next_words(&mut self, words: &mut Vec<&'a [u8]>) -> Result<Option<u64>, AllocError>
        requires { self.old.line + length self.old.rest.now < 2 ^ 64 }
        ensures left { IfOk result (λ next. MatchOption next (statements_left self.old ≡ []) (λ number. statements_left self.old
            ≡ (number, texts_of words.new.items) ∷ statements_left self.new)) }
        ensures end { OnOk result (end_of self.new ≡ end_of self.old) }
        ensures last { IfOk result (λ next. MatchOption next (self.new.line
            ≡ end_of self.new) (λ number. number < self.new.line)) }
        ensures room { self.new.line + length self.new.rest.now ≤ self.old.line + length self.old.rest.now }
        ensures err { OnErr result (self.new ≡ self.old) }
    {
        let mut at = Cursor {
            rest: self.rest,
            line: self.line,
        };
        'lines: while !at.rest.is_empty() {
            let (piece, rest) = cut_piece(at.rest);
            cut_words(words, trim_return(piece))?;
            let number = at.line;
            at.rest = rest;
            at.line += 1;
            if !is_skipped_line(words) {
                *self = at;
                return Ok(Some(number));
            }
        }
        *self = at;
        Ok(None)
    }

    /// The next line that isn't skipped. Where memory runs out, the cursor is as it was.
    pub fn next_line(&mut self, alloc: Global) -> Result<Option<Statement<'a>>, AllocError>
        requires { self.old.line + length self.old.rest.now < 2 ^ 64 }
        ensures left { IfOk result (λ next. MatchOption next (statements_left self.old ≡ []) (λ l. statements_left self.old
            ≡ stated l ∷ statements_left self.new)) }
        ensures end { OnOk result (end_of self.new ≡ end_of self.old) }
        ensures last { IfOk result (λ next. MatchOption next (self.new.line
            ≡ end_of self.new) (λ l. l.number < self.new.line)) }
        ensures room { self.new.line + length self.new.rest.now ≤ self.old.line + length self.old.rest.now }
        ensures err { OnErr result (self.new ≡ self.old) }
    {
        let mut words = Vec::new(alloc);
        match self.next_words(&mut words)? {
            Some(number) => Ok(Some(Statement { number, words })),
            None => Ok(None),
        }
    }
}
