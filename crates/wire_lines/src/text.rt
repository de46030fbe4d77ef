//! Lines and words.

ghost use Rattle.std.specs.Prelude.{◌≡◌, ◌+◌, ◌<◌, ◌≤◌, ◌==◌, ◌⊎◌, ◌++◌, ◌∷◌, [], count_by, length, position, take};
ghost use Rattle.std.specs.Prelude.{OnOk};
ghost use Rattle.std.specs.Str.Lines.{strip_carriage_return};
ghost use Rattle.wire_types.specs.Texts.{texts_of};
ghost use Rattle.std.specs.Prelude.{filter, not};
ghost use Rattle.wire_lines.specs.Text.{pieces_of, lines_of, line_end, words_of, is_blank};

use std::alloc::AllocError;

/// The first piece of a text, without its line feed, and what comes after it.
pub fn cut_piece(bytes: &[u8]) -> (&[u8], &[u8])
    requires { 0 < length bytes.now }
    ensures pieces { pieces_of bytes.now ≡ result.0.now ∷ pieces_of result.1.now }
    ensures bytes { (bytes.now ≡ result.0.now ++ 10 ∷ result.1.now)
        ⊎ ((bytes.now ≡ result.0.now) × (result.1.now ≡ [])) }
    ensures shorter { length result.1.now < length bytes.now }
{
    match line_feed(bytes) {
        Some(at) => (&bytes[..at], &bytes[at + 1..]),
        None => bytes.split_at(bytes.len()),
    }
}

/// The place of the first line feed.
fn line_feed(bytes: &[u8]) -> Option<usize>
    ensures { result ≡ position (λ b. b == 10) bytes.now }
{
    bytes.iter().position(|b| *b == b'\n')
}

/// The lines of a text up to that in which the byte at this place stands, with its line feed, and the lines after it.
pub fn cut_lines(bytes: &[u8], at: usize) -> (&[u8], &[u8])
    requires { at < length bytes.now }
    ensures front { result.0.now ≡ take (line_end at bytes.now) bytes.now }
    ensures bytes { bytes.now ≡ result.0.now ++ result.1.now }
    ensures lines { lines_of bytes.now ≡ lines_of result.0.now ++ lines_of result.1.now }
    ensures there { at < length result.0.now }
{
    let end = match line_feed(&bytes[at..]) {
        Some(more) => at + more + 1,
        None => bytes.len(),
    };
    bytes.split_at(end)
}

/// How many lines a text has.
pub fn count_lines(bytes: &[u8]) -> usize
    ensures count { result ≡ length (lines_of bytes.now) }
    ensures few { result ≤ length bytes.now }
{
    let feeds = bytes.iter().filter(|b| **b == b'\n').count();
    match bytes.last() {
        Some(byte) if *byte != b'\n' => feeds + 1,
        _ => feeds,
    }
}

/// The number of the line in which the byte after the first so many stands: one more than the line feeds
/// among these.
pub fn line_past(bytes: &[u8], limit: usize) -> u64
    requires { limit ≤ length bytes.now }
    ensures { result ≡ count_by (λ b. b == 10) (take limit bytes.now) + 1 }
{
    bytes[..limit].iter().filter(|b| **b == b'\n').count() as u64 + 1
}

/// A line without one carriage return at its end.
pub fn trim_return(line: &[u8]) -> &[u8]
    ensures { result.now ≡ strip_carriage_return line.now }
{
    if line.last() == Some(&b'\r') {
        &line[..line.len() - 1]
    } else {
        line
    }
}

/// Whether a byte is a space or a tab.
fn is_blank_byte(byte: u8) -> bool
    ensures { result ≡ is_blank byte }
{
    byte == b' ' || byte == b'\t'
}

/// The place of the first blank.
fn blank(bytes: &[u8]) -> Option<usize>
    ensures { result ≡ position is_blank bytes.now }
{
    bytes.iter().position(|b| is_blank_byte(*b))
}

/// What stands before the first blank of a line, and what after it.
fn cut_word(line: &[u8]) -> (&[u8], &[u8])
    requires { 0 < length line.now }
    ensures words { words_of line.now ≡ filter (λ w. not (length w == 0)) (result.0.now ∷ []) ++ words_of result.1.now }
    ensures shorter { length result.1.now < length line.now }
{
    match blank(line) {
        Some(at) => (&line[..at], &line[at + 1..]),
        None => line.split_at(line.len()),
    }
}

/// Puts the words of a line in the place of what the list held. It takes memory only where the line has
/// more words than the list has room for. If memory runs out, some of them may stand there.
pub fn cut_words<'a>(words: &mut Vec<&'a [u8]>, line: &'a [u8]) -> Result<(), AllocError>
    ensures { OnOk result (texts_of words.new.items ≡ words_of line.now) }
{
    words.clear();
    let mut left = line;
    'left: while !left.is_empty() {
        let (word, rest) = cut_word(left);
        if !word.is_empty() {
            words.push(word)?;
        }
        left = rest;
    }
    Ok(())
}
