//! Numbers for what calls name, as first seen.

ghost use Rattle.std.specs.Prelude.{◌≡◌, ◌+◌, ◌≤◌, ◌<◌, ◌^◌, List, ℕ, length, OnOk, IfOk};
ghost use Rattle.wire_scripts.specs.Scripts.{numbers_of};
ghost use Rattle.wire_reader.specs.FirstPass.{number_or_count};
ghost use Rattle.wire_reader.specs.Tabled.{with_text, IsPrefix};

use crate::numbered_sets::NumberedSets;
use crate::numbered_texts::NumberedTexts;
use std::alloc::{AllocError, Global};
use wire_types::Proc;

/// The number of a text, which is added where it isn't there.
pub fn number_text(alloc: Global, texts: &mut NumberedTexts, text: &[u8]) -> Result<u32, AllocError>
    requires { length texts.old + 1 < 2 ^ 32 }
    ensures texts { OnOk result (texts.new ≡ with_text texts.old text.now) }
    ensures number { IfOk result
        (λ n. (later : List (List ℕ)) → IsPrefix texts.new later → n ≡ number_or_count later text.now) }
{
    let number = texts.number_or_count(text);
    if number < texts.len() {
        return Ok(number);
    }
    texts.add(alloc, text)?;
    Ok(number)
}

/// The number of a set, which is added where it isn't there.
pub fn number_set(sets: &mut NumberedSets, set: Vec<Proc>) -> Result<u32, AllocError>
    requires { length sets.old + 1 < 2 ^ 32 }
    ensures sets { OnOk result (sets.new ≡ with_text sets.old (numbers_of set.items)) }
    ensures number { IfOk result
        (λ n. (later : List (List ℕ)) → IsPrefix sets.new later → n ≡ number_or_count later (numbers_of set.items)) }
{
    let number = sets.number_or_count(&set);
    if number < sets.len() {
        return Ok(number);
    }
    sets.add(set)?;
    Ok(number)
}
