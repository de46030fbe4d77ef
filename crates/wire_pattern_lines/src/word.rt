//! Words, and what they may be: names without brackets, bases of keys, and names of roles.

ghost use Rattle.std.specs.List.{list_all};
ghost use Rattle.std.specs.Prelude.{◌≡◌};
ghost use Rattle.wire_pattern.specs.Lawful as pattern;
ghost use Rattle.wire_pattern_lines.specs.Said as spec;

use wire_lines::{is_key, is_name};

/// Whether a byte is no bracket.
fn is_plain_byte(byte: u8) -> bool
    ensures { result ≡ pattern.is_plain_byte byte }
{
    !(byte == b'[' || byte == b']')
}

/// Whether no byte is a bracket.
fn has_plain_bytes(word: &[u8]) -> bool
    ensures { result ≡ list_all pattern.is_plain_byte word.now }
{
    word.iter().all(|b| is_plain_byte(*b))
}

/// Whether it is a name without brackets.
pub fn is_bare_name(word: &[u8]) -> bool
    ensures { result ≡ spec.is_bare_name word.now }
{
    is_name(word) && has_plain_bytes(word)
}

/// Whether it is a key without brackets.
pub fn is_base(word: &[u8]) -> bool
    ensures { result ≡ pattern.is_base word.now }
{
    is_key(word) && has_plain_bytes(word)
}

/// Whether it is one of the words that name no role.
fn is_kept_word(word: &[u8]) -> bool
    ensures { result ≡ spec.is_kept_word word.now }
{
    word == b"self".as_slice()
        || word == b"each".as_slice()
        || word == b"all".as_slice()
        || word == b"some".as_slice()
        || word == b"cyclic".as_slice()
}

/// Whether it may name a role.
pub fn is_role_name(word: &[u8]) -> bool
    ensures { result ≡ spec.is_role_name word.now }
{
    is_bare_name(word) && !is_kept_word(word)
}
