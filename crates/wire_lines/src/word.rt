//! Words, and what they may be: names, keys, scopes, ranks and processes.

ghost use Rattle.std.specs.List.{list_all};
ghost use Rattle.std.specs.Prelude.{not, true, position, ◌==◌, ◌≡◌, ◌≢◌, ℕ, ◌+◌, ◌^◌, ◌<◌, ◌≤◌, ◌↔◌, List, ◌∷◌, ◌++◌};
ghost use Rattle.std.specs.Prelude.{IsTrue, decimal, codes, get_or, length};
ghost use Rattle.std.specs.Prelude.{IfSome, IfNone};
ghost use Rattle.wire_types.specs.declared.Scope.{Scope};
ghost use Rattle.wire_types.specs.Said as spec;
ghost use Rattle.wire_types.specs.Said.{spelled_proc, spelled_scope};

use wire_types::Scope;

/// A process as a word names it: the name of its job, and its rank there.
#[derive(Clone, Copy)]
pub struct ProcName<'a> {
    pub job: &'a [u8],
    pub rank: u32,
}

/// Whether a word is this text.
pub fn is_text(word: &[u8], text: &[u8]) -> bool
    ensures { IsTrue result ↔ (word.now ≡ text.now) }
{
    word == text
}

/// Whether a byte may stand in a word.
fn is_word_byte(byte: u8) -> bool
    ensures { result ≡ spec.is_word_byte byte }
{
    33 <= byte && byte <= 126
}

/// Whether a byte may stand in a name.
fn is_name_byte(byte: u8) -> bool
    ensures { result ≡ spec.is_name_byte byte }
{
    is_word_byte(byte) && !(byte == b':' || byte == b',' || byte == b'#' || byte == b'*')
}

/// Whether each byte may stand in a word.
fn has_word_bytes(word: &[u8]) -> bool
    ensures { result ≡ list_all spec.is_word_byte word.now }
{
    word.iter().all(|b| is_word_byte(*b))
}

/// Whether each byte may stand in a name.
fn has_name_bytes(word: &[u8]) -> bool
    ensures { result ≡ list_all spec.is_name_byte word.now }
{
    word.iter().all(|b| is_name_byte(*b))
}

/// Whether it is a word: not empty, and each byte may stand in a word.
pub fn is_word(word: &[u8]) -> bool
    ensures { result ≡ spec.is_word word.now }
{
    !word.is_empty() && has_word_bytes(word)
}

/// Whether it is a name: not empty, and each byte may stand in a name.
pub fn is_name(word: &[u8]) -> bool
    ensures { result ≡ spec.is_name word.now }
{
    !word.is_empty() && has_name_bytes(word)
}

/// Whether it is a key.
pub fn is_key(word: &[u8]) -> bool
    ensures { result ≡ spec.is_key word.now }
{
    is_word(word) && word != b"*".as_slice()
}

/// The scope that the word names.
pub fn scope_of(word: &[u8]) -> Option<Scope>
    ensures found { IfSome result (λ s. word.now ≡ spelled_scope s) }
    ensures none { IfNone result ((s : Scope) → word.now ≢ spelled_scope s) }
{
    if is_text(word, b"local") {
        Some(Scope::Local)
    } else if is_text(word, b"remote") {
        Some(Scope::Remote)
    } else if is_text(word, b"global") {
        Some(Scope::Global)
    } else {
        None
    }
}

/// Whether a word isn't empty, and begins with a zero only if that is all of it. Digits of which this holds
/// are those of a decimal number.
fn begins_as_number(word: &[u8]) -> bool
    ensures { IsTrue result ↔ ((0 < length word.now) × (get_or word.now 0 0 ≡ 48 → length word.now ≡ 1)) }
{
    match word.first() {
        None => false,
        Some(b'0') => word.len() == 1,
        _ => true,
    }
}

/// Whether a byte is a decimal digit.
fn is_digit(byte: u8) -> bool
    ensures { IsTrue result ↔ ((48 ≤ byte) × (byte ≤ 57)) }
{
    48 <= byte && byte <= 57
}

/// The number that the word is the decimal digits of, one to nine of them.
pub fn number_of(word: &[u8]) -> Option<u32>
    ensures found { IfSome result (λ n. (word.now ≡ decimal n) × (n < 10 ^ 9)) }
    ensures none { IfNone result ((n : ℕ) → n < 10 ^ 9 → word.now ≢ decimal n) }
{
    if !begins_as_number(word) {
        return None;
    }
    let mut number: u32 = 0;
    for byte in word {
        if !is_digit(*byte) {
            return None;
        }
        if number >= 100_000_000 {
            return None;
        }
        number = 10 * number + (*byte - 48) as u32;
    }
    Some(number)
}

/// The process that the word names.
pub fn proc_of(word: &[u8]) -> Option<ProcName<'_>>
    ensures found { IfSome result
        (λ p. (word.now ≡ spelled_proc p.job.now p.rank) × IsTrue (spec.is_name p.job.now) × (p.rank < 10 ^ 9)) }
    ensures none { IfNone result
        ((job : List ℕ) (rank : ℕ) → IsTrue (spec.is_name job) → rank < 10 ^ 9 → word.now ≢ spelled_proc job rank) }
{
    let Some((job, rank)) = cut_at_colon(word) else {
        return None;
    };
    if !is_name(job) {
        return None;
    }
    match number_of(rank) {
        Some(rank) => Some(ProcName { job, rank }),
        None => None,
    }
}

/// What stands before the first colon and after it.
pub fn cut_at_colon(word: &[u8]) -> Option<(&[u8], &[u8])>
    ensures found { IfSome result (λ p. word.now ≡ p.0.now ++ 58 ∷ p.1.now) }
    ensures first { IfSome result (λ p. list_all (λ b. not (b == 58)) p.0.now ≡ true) }
    ensures none { IfNone result ((a b : List ℕ) → word.now ≢ a ++ 58 ∷ b) }
{
    match colon(word) {
        Some(at) => Some((&word[..at], &word[at + 1..])),
        None => None,
    }
}

/// The place of the first colon.
fn colon(word: &[u8]) -> Option<usize>
    ensures { result ≡ position (λ b. b == 58) word.now }
{
    word.iter().position(|b| *b == b':')
}
