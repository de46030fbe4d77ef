//! The call lines of an instance.

ghost use Rattle.std.specs.Prelude.{◌≡◌, ◌<◌, ◌++◌, ◌∷◌, [], ℕ, OnOk, map, flat_map, codes};
ghost use Rattle.wire_runs.specs.Patterns as plan;
ghost use Rattle.wire_types.specs.Said as said;
ghost use Rattle.wire_types.specs.Said.{spelled_scope, spelled_set, collect_words};
ghost use Rattle.wire_scripts.specs.Canonical.{line_text};
ghost use Rattle.wire_pattern.specs.Instances.{process_count, cast_of, process_text, word_text, items_said, call_said};
ghost use Rattle.wire_pattern.specs.Views.{who_by, indexed_by, view_item, view_call};
ghost use Rattle.wire_instances.specs.Written.{AgreeOn, rest_text, front_words, operands_text};

use crate::excerpt::Excerpt;
use crate::frame::{Calling, Frame};
use crate::words::{set_word, write_who, write_word};
use std::alloc::AllocError;
use wire_pattern::{Call, Indexed, Item, Who};
use wire_types::Scope;

/// Writes a text as the last word of a line.
fn write_last(out: &mut Vec<u8>, word: &[u8]) -> Result<(), AllocError>
    ensures { OnOk result (out.new.items ≡ out.old.items ++ rest_text (word.now ∷ [])) }
{
    out.push(b' ')?;
    out.extend_from_slice(word)?;
    out.push(b'\n')?;
    Ok(())
}

/// Writes a key or a name as the last word of a line.
fn write_named(
    out: &mut Vec<u8>,
    frame: &Frame,
    calling: Calling,
    word: &Indexed,
) -> Result<(), AllocError>
    requires caller { calling.caller < process_count frame.now.cast }
    requires each { calling.each < process_count frame.now.cast }
    ensures { OnOk result (out.new.items ≡ out.old.items ++ rest_text (word_text frame.now.pattern frame.now.cast
        calling.caller calling.each (indexed_by word.now) ∷ [])) }
{
    out.push(b' ')?;
    write_word(out, frame, calling, word)?;
    out.push(b'\n')?;
    Ok(())
}

/// Writes a key or a name and a value as the last words of a line.
fn write_valued(
    out: &mut Vec<u8>,
    frame: &Frame,
    calling: Calling,
    word: &Indexed,
    value: &[u8],
) -> Result<(), AllocError>
    requires caller { calling.caller < process_count frame.now.cast }
    requires each { calling.each < process_count frame.now.cast }
    ensures { OnOk result (out.new.items ≡ out.old.items ++ rest_text (word_text frame.now.pattern frame.now.cast
        calling.caller calling.each (indexed_by word.now) ∷ value.now ∷ [])) }
{
    out.push(b' ')?;
    write_word(out, frame, calling, word)?;
    write_last(out, value)
}

/// Writes a process and a key as the last words of a line.
fn write_owned(
    out: &mut Vec<u8>,
    frame: &Frame,
    calling: Calling,
    owner: Who,
    key: &Indexed,
) -> Result<(), AllocError>
    requires caller { calling.caller < process_count frame.now.cast }
    requires each { calling.each < process_count frame.now.cast }
    ensures { OnOk result (out.new.items ≡ out.old.items ++ rest_text (process_text frame.now.pattern frame.now.cast
        (plan.who (cast_of frame.now.cast) calling.caller calling.each (who_by owner))
        ∷ word_text frame.now.pattern frame.now.cast calling.caller calling.each (indexed_by key.now) ∷ [])) }
{
    out.push(b' ')?;
    write_who(out, frame, calling, owner)?;
    write_named(out, frame, calling, key)
}

/// Writes the word of a set, and whether the fence collects, as the last words of a line.
fn write_set_word(out: &mut Vec<u8>, word: &[u8], collect: bool) -> Result<(), AllocError>
    ensures { OnOk result (out.new.items ≡ out.old.items ++ rest_text (word.now ∷ collect_words collect)) }
{
    if collect {
        out.push(b' ')?;
        out.extend_from_slice(word)?;
        write_last(out, b"collect".as_slice())
    } else {
        write_last(out, word)
    }
}

/// Writes the set of a fence, and whether it collects, as the last words of a line.
fn write_set(
    out: &mut Vec<u8>,
    excerpt: &Excerpt,
    calling: Calling,
    items: &Vec<Item>,
    collect: bool,
) -> Result<(), AllocError>
    requires caller { calling.caller < process_count excerpt.now.frame.cast }
    requires each { calling.each < process_count excerpt.now.frame.cast }
    ensures { OnOk result (AgreeOn excerpt.now.wanted out.new.items (out.old.items ++ rest_text (spelled_set (said.Listed
        (flat_map (items_said excerpt.now.frame.pattern excerpt.now.frame.cast calling.caller calling.each)
        (map view_item items.now.items))) ∷ collect_words collect))) }
{
    let word = set_word(excerpt, calling, items)?;
    write_set_word(out, word.as_slice(), collect)
}

/// The first two words of a put.
fn put_words(scope: Scope) -> &'static [u8]
    ensures { result.now ≡ codes "put" ++ 32 ∷ spelled_scope scope }
{
    match scope {
        Scope::Local => b"put local".as_slice(),
        Scope::Remote => b"put remote".as_slice(),
        Scope::Global => b"put global".as_slice(),
    }
}

/// The first word of a call, and of a put the second.
fn verb_words(call: &Call) -> &'static [u8]
    ensures { result.now ≡ front_words (view_call call.now) }
{
    match call {
        Call::Put { scope, .. } => put_words(*scope),
        Call::Commit => b"commit\n".as_slice(),
        Call::Fence { .. } => b"fence".as_slice(),
        Call::Get { .. } => b"get".as_slice(),
        Call::GetNow { .. } => b"get-now".as_slice(),
        Call::Publish { .. } => b"publish".as_slice(),
        Call::Lookup { .. } => b"lookup".as_slice(),
        Call::LookupWait { .. } => b"lookup-wait".as_slice(),
        Call::Unpublish { .. } => b"unpublish".as_slice(),
        Call::UnpublishAll => b"unpublish *\n".as_slice(),
    }
}

/// Writes what is behind the first words of a call, up to the end of its line.
fn write_operands(
    out: &mut Vec<u8>,
    excerpt: &Excerpt,
    calling: Calling,
    call: &Call,
) -> Result<(), AllocError>
    requires caller { calling.caller < process_count excerpt.now.frame.cast }
    requires each { calling.each < process_count excerpt.now.frame.cast }
    ensures { OnOk result (AgreeOn excerpt.now.wanted out.new.items (out.old.items ++ operands_text (call_said
        excerpt.now.frame.pattern excerpt.now.frame.cast calling.caller calling.each (view_call call.now)))) }
{
    let frame = &excerpt.frame;
    match call {
        Call::Put {
            scope: _,
            key,
            value,
        } => write_valued(out, frame, calling, key, value.as_slice()),
        Call::Publish { name, value } => {
            write_valued(out, frame, calling, name, value.as_slice())
        }
        Call::Fence { items, collect } => write_set(out, excerpt, calling, items, *collect),
        Call::Get { owner, key } | Call::GetNow { owner, key } => {
            write_owned(out, frame, calling, *owner, key)
        }
        Call::Lookup { name } | Call::LookupWait { name } | Call::Unpublish { name } => {
            write_named(out, frame, calling, name)
        }
        Call::Commit | Call::UnpublishAll => Ok(()),
    }
}

/// Writes the line of a call.
pub(crate) fn write_call(
    out: &mut Vec<u8>,
    excerpt: &Excerpt,
    calling: Calling,
    call: &Call,
) -> Result<(), AllocError>
    requires caller { calling.caller < process_count excerpt.now.frame.cast }
    requires each { calling.each < process_count excerpt.now.frame.cast }
    ensures { OnOk result (AgreeOn excerpt.now.wanted out.new.items (out.old.items ++ line_text (said.Calls (call_said
        excerpt.now.frame.pattern excerpt.now.frame.cast calling.caller calling.each (view_call call.now))))) }
{
    if excerpt.is_past(out) {
        return Ok(());
    }
    out.extend_from_slice(verb_words(call))?;
    write_operands(out, excerpt, calling, call)
}
