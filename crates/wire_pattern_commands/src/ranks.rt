//! The word that says how many ranks each group is to have.

ghost use Rattle.std.specs.Prelude.{◌≡◌, ◌≢◌, ◌==◌, ◌<◌, ◌^◌, ◌++◌, ◌∷◌, [], ℕ, List, not, true, false, map, option_map};
ghost use Rattle.std.specs.Prelude.{Ok, IfOk, IfErr, IfSome, IfNone, ◌⊎◌};
ghost use Rattle.std.specs.List.{list_all};
ghost use Rattle.wire_types.specs.declared.Fault.TheVariants.{Memory};
ghost use Rattle.wire_types.specs.Texts.{texts_of};
ghost use Rattle.wire_instances.specs.Asked as spec;
ghost use Rattle.wire_instances.specs.Asked.{are_fit, asked_by};
ghost use Rattle.wire_instances.specs.Tables.{AreSizes};
ghost use Rattle.wire_pattern_commands.specs.Ranks.{AreSizesAsked, AskFor, Asks, HasMisfit, IsMisfitPart, are_few, asked_text};

use std::alloc::{AllocError, Global};
use wire_instances::{Asked, sizes_asked};
use wire_lines::{cut_parts, number_of};
use wire_pattern::Pattern;
use wire_types::Fault;

/// What stands before the last `=` of a word, and after it.
fn cut_at_equals(word: &[u8]) -> Option<(&[u8], &[u8])>
    ensures found { IfSome result (λ p. word.now ≡ p.0.now ++ 61 ∷ p.1.now) }
    ensures last { IfSome result (λ p. list_all (λ b. not (b == 61)) p.1.now ≡ true) }
    ensures none { IfNone result (list_all (λ b. not (b == 61)) word.now ≡ true) }
{
    let mut end = word.len();
    'seeking: while end > 0 {
        if word[end - 1] == b'=' {
            return Some((&word[..end - 1], &word[end..]));
        }
        end -= 1;
    }
    None
}

/// What a part of the word asks for.
fn read_part(alloc: Global, part: &[u8]) -> Result<Option<Asked>, AllocError>
    ensures found { IfOk result (λ o. IfSome o (λ a. (part.now ≡ asked_text (asked_by a)) × (a.count < 10 ^ 9))) }
    ensures none { IfOk result (λ o. IfNone o ((a : spec.Asked) → a.count < 10 ^ 9 → part.now ≢ asked_text a)) }
{
    let Some((name, number)) = cut_at_equals(part) else {
        return Ok(None);
    };
    let Some(count) = number_of(number) else {
        return Ok(None);
    };
    let name = Vec::from_slice(alloc, name)?;
    Ok(Some(Asked { name, count }))
}

/// Whether the pattern can have what is asked for.
fn are_fitting(alloc: Global, pattern: &Pattern, asked: &[Asked]) -> Result<bool, AllocError>
    ensures { IfOk result (λ b. b ≡ are_fit pattern.now.roles (map asked_by asked.now)) }
{
    let sizes = sizes_asked(alloc, pattern, asked)?;
    Ok(sizes.is_some())
}

/// Appends what a part of the word asks for, if the pattern can have that. Answers whether it can.
fn add_part(
    alloc: Global,
    pattern: &Pattern,
    asked: &mut Vec<Asked>,
    part: &[u8],
) -> Result<bool, AllocError>
    ensures added { result ≡ Ok true → map asked_text (map asked_by asked.new.items)
        ≡ map asked_text (map asked_by asked.old.items) ++ part.now ∷ [] }
    ensures fit { result ≡ Ok true → are_fit pattern.now.roles (map asked_by asked.new.items) ≡ true }
    ensures few { result ≡ Ok true → are_few (map asked_by asked.old.items) ≡ true → are_few (map asked_by asked.new.items) ≡ true }
    ensures misfit { result ≡ Ok false → (a : spec.Asked) → a.count < 10 ^ 9 → part.now ≡ asked_text a
        → are_fit pattern.now.roles (map asked_by asked.old.items ++ a ∷ []) ≡ false }
{
    let Some(one) = read_part(alloc, part)? else {
        return Ok(false);
    };
    asked.push(one)?;
    are_fitting(alloc, pattern, asked.as_slice())
}

/// What the parts of a word ask for.
fn read_parts(alloc: Global, pattern: &Pattern, parts: &[&[u8]]) -> Result<Vec<Asked>, Fault>
    ensures asks { IfOk result (λ v. AskFor (texts_of parts.now) (map asked_by v.items)) }
    ensures fit { IfOk result (λ v. are_fit pattern.now.roles (map asked_by v.items) ≡ true) }
    ensures err { IfErr result (λ e. (e ≡ Memory) ⊎ IsMisfitPart pattern.now.roles (texts_of parts.now) e) }
{
    let mut asked = Vec::new(alloc);
    for number in 0..parts.len() {
        if !add_part(alloc, pattern, &mut asked, parts[number])? {
            return Err(Fault::BadOrder(number as u64 + 1));
        }
    }
    Ok(asked)
}

/// What a word asks for. A part that asks for nothing, or for what the pattern can't have, is `BadOrder` with its
/// number, from 1.
fn read_asked(alloc: Global, pattern: &Pattern, word: Option<&str>) -> Result<Vec<Asked>, Fault>
    ensures asks { IfOk result (λ v. Asks (option_map (λ w. w.now) word.entry) (map asked_by v.items)) }
    ensures fit { IfOk result (λ v. are_fit pattern.now.roles (map asked_by v.items) ≡ true) }
    ensures err { IfErr result (λ e. (e ≡ Memory) ⊎ HasMisfit pattern.now.roles (option_map (λ w. w.now) word.entry) e) }
{
    match word {
        None => Ok(Vec::new(alloc)),
        Some(word) => {
            let parts = cut_parts(alloc, word.as_bytes())?;
            read_parts(alloc, pattern, parts.as_slice())
        }
    }
}

/// How many processes each role is to have by a word: a group that isn't named its least number.
pub(crate) fn sizes_by(
    alloc: Global,
    pattern: &Pattern,
    word: Option<&str>,
) -> Result<Vec<u32>, Fault>
    ensures ok { IfOk result (λ v. AreSizesAsked pattern.now (option_map (λ w. w.now) word.entry) v.items) }
    ensures fit { IfOk result (λ v. AreSizes pattern.now.roles v.items) }
    ensures err { IfErr result (λ e. (e ≡ Memory) ⊎ HasMisfit pattern.now.roles (option_map (λ w. w.now) word.entry) e) }
{
    let asked = read_asked(alloc, pattern, word)?;
    match sizes_asked(alloc, pattern, asked.as_slice())? {
        Some(sizes) => Ok(sizes),
        None => Err(Fault::Memory),
    }
}
