//! Texts of bytes as strings of JSON.

ghost use Rattle.std.specs.Prelude.{◌≡◌, ◌<◌, map, string_bytes, IfOk};
ghost use Rattle.serde_json.specs.View.{view};
ghost use Rattle.wire_types.specs.Texts.{lists_of};
ghost use Rattle.wire_json.specs.Json as spec;
ghost use Rattle.wire_json.specs.Trees.{strings_data, text_data};

use serde_json::Value;
use std::alloc::{AllocError, Global};

/// A text as a string, each byte that isn't printable as a question mark.
pub fn printable_text(alloc: Global, text: &[u8]) -> Result<String, AllocError>
    ensures { IfOk result (λ string. string_bytes string ≡ map spec.printed text.now) }
{
    let mut string = String::new(alloc);
    for byte in text {
        string.push(char::from(printable_byte(*byte)))?;
    }
    Ok(string)
}

/// A printable byte is itself, and any other a question mark.
pub(crate) fn printable_byte(byte: u8) -> u8
    ensures printed { result ≡ spec.printed byte }
    ensures ascii { result < 128 }
{
    if 31 < byte && byte < 127 { byte } else { b'?' }
}

/// A text of printable bytes stands in a string as it is.
#[tactic(auto, using(crate::proofs::Escapes::kept))]
pub fn printable_kept()
    ensures { spec.PrintableKept }
{}

/// Strings of these texts.
pub fn string_trees(alloc: Global, texts: &[Vec<u8>]) -> Result<Vec<Value>, AllocError>
    ensures { IfOk result (λ values. map view values.items ≡ strings_data (lists_of texts.now)) }
{
    let mut values = Vec::new(alloc);
    for text in texts {
        values.push(string_tree(alloc, text.as_slice())?)?;
    }
    Ok(values)
}

/// A string of this text.
fn string_tree(alloc: Global, text: &[u8]) -> Result<Value, AllocError>
    ensures { IfOk result (λ tree. view tree ≡ text_data text.now) }
{
    Ok(Value::String(printable_text(alloc, text)?))
}
