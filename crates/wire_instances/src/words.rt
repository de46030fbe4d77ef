//! The words of an instance's lines.

ghost use Rattle.std.specs.Prelude.{◌≡◌, ◌<◌, ◌+◌, ◌++◌, ◌∷◌, [], ℕ, IfOk, OnOk, map, flat_map, length};
ghost use Rattle.std.specs.Prelude.{decimal, codes};
ghost use Rattle.wire_runs.specs.Patterns as plan;
ghost use Rattle.wire_types.specs.Said as said;
ghost use Rattle.wire_types.specs.Said.{spelled_set};
ghost use Rattle.wire_pattern.specs.Instances as spec;
ghost use Rattle.wire_pattern.specs.Instances.{process_count, cast_of, process_text, process_item, word_text};
ghost use Rattle.wire_pattern.specs.Instances.{items_said, node_name};
ghost use Rattle.wire_pattern.specs.Views.{who_by, indexed_by, view_item};
ghost use Rattle.wire_scripts.specs.Canonical.{items_text};
ghost use Rattle.wire_instances.specs.Written.{AgreeOn, ended_text};

use crate::excerpt::Excerpt;
use crate::frame::{Calling, Frame};
use itoa::Buffer;
use std::alloc::AllocError;
use wire_pattern::{Indexed, Item, Who};
use wire_types::write_proc;

/// The name of a job; nothing where there is no such job.
fn job_name<'a>(frame: &Frame<'a>, job: u32) -> &'a [u8]
    ensures { result.now ≡ spec.job_name frame.now.pattern job }
{
    let jobs = frame.pattern().jobs();
    if (job as usize) < jobs.len() {
        jobs[job as usize].name.as_slice()
    } else {
        b"".as_slice()
    }
}

/// Writes a process: the name of its job, a colon and its rank.
fn write_process_word(out: &mut Vec<u8>, frame: &Frame, process: u32) -> Result<(), AllocError>
    requires { process < process_count frame.now.cast }
    ensures { OnOk result (out.new.items ≡ out.old.items ++ process_text frame.now.pattern frame.now.cast process) }
{
    write_proc(
        out,
        job_name(frame, frame.job(process)),
        frame.rank(process),
    )
}

/// Writes the process that a line names.
pub(crate) fn write_who(
    out: &mut Vec<u8>,
    frame: &Frame,
    calling: Calling,
    who: Who,
) -> Result<(), AllocError>
    requires caller { calling.caller < process_count frame.now.cast }
    requires each { calling.each < process_count frame.now.cast }
    ensures { OnOk result (out.new.items ≡ out.old.items ++ process_text frame.now.pattern frame.now.cast
        (plan.who (cast_of frame.now.cast) calling.caller calling.each (who_by who))) }
{
    write_process_word(out, frame, frame.who(calling, who))
}

/// Writes what follows the first index of a word: the others, each behind a comma, and a bracket.
fn write_others(
    out: &mut Vec<u8>,
    frame: &Frame,
    calling: Calling,
    others: &[Who],
) -> Result<(), AllocError>
    requires caller { calling.caller < process_count frame.now.cast }
    requires each { calling.each < process_count frame.now.cast }
    ensures { OnOk result (out.new.items ≡ out.old.items ++ ended_text 44 93 (map (λ w. process_text frame.now.pattern
        frame.now.cast (plan.who (cast_of frame.now.cast) calling.caller calling.each w)) (map who_by others.now))) }
{
    for who in others {
        out.push(b',')?;
        write_who(out, frame, calling, *who)?;
    }
    out.push(b']')?;
    Ok(())
}

/// Writes a key or a name.
pub(crate) fn write_word(
    out: &mut Vec<u8>,
    frame: &Frame,
    calling: Calling,
    word: &Indexed,
) -> Result<(), AllocError>
    requires caller { calling.caller < process_count frame.now.cast }
    requires each { calling.each < process_count frame.now.cast }
    ensures { OnOk result (out.new.items ≡ out.old.items ++ word_text frame.now.pattern frame.now.cast
        calling.caller calling.each (indexed_by word.now)) }
{
    out.extend_from_slice(word.base.as_slice())?;
    match word.indices.split_first() {
        None => Ok(()),
        Some((first, others)) => {
            out.push(b'[')?;
            write_who(out, frame, calling, *first)?;
            write_others(out, frame, calling, others)
        }
    }
}

/// Writes a process of a set, with a comma after it.
fn write_member(out: &mut Vec<u8>, excerpt: &Excerpt, process: u32) -> Result<(), AllocError>
    requires { process < process_count excerpt.now.frame.cast }
    ensures { OnOk result (AgreeOn (excerpt.now.wanted + 1) out.new.items
        (out.old.items ++ (process_text excerpt.now.frame.pattern excerpt.now.frame.cast process ++ 44 ∷ []))) }
{
    if excerpt.is_past(out) {
        return Ok(());
    }
    write_process_word(out, &excerpt.frame, process)?;
    out.push(b',')?;
    Ok(())
}

/// Writes all processes of a role, with a comma after each.
fn write_role(out: &mut Vec<u8>, excerpt: &Excerpt, role: u32) -> Result<(), AllocError>
    ensures { OnOk result (AgreeOn (excerpt.now.wanted + 1) out.new.items (out.old.items ++ items_text
        (map (process_item excerpt.now.frame.pattern excerpt.now.frame.cast) (plan.group role (cast_of excerpt.now.frame.cast).roles)))) }
{
    let (first, end) = excerpt.frame.group(role);
    for process in first..end {
        write_member(out, excerpt, process)?;
    }
    Ok(())
}

/// Writes all processes of a job.
fn write_job(out: &mut Vec<u8>, frame: &Frame, job: u32) -> Result<(), AllocError>
    ensures { OnOk result (out.new.items ≡ out.old.items ++ items_text (said.Every (spec.job_name frame.now.pattern job) ∷ [])) }
{
    out.extend_from_slice(job_name(frame, job))?;
    out.extend_from_slice(b":*,".as_slice())
}

/// Writes what an item of a set says, with a comma after each process or job.
fn write_item(
    out: &mut Vec<u8>,
    excerpt: &Excerpt,
    calling: Calling,
    item: Item,
) -> Result<(), AllocError>
    requires caller { calling.caller < process_count excerpt.now.frame.cast }
    requires each { calling.each < process_count excerpt.now.frame.cast }
    ensures { OnOk result (AgreeOn (excerpt.now.wanted + 1) out.new.items (out.old.items ++ items_text (items_said
        excerpt.now.frame.pattern excerpt.now.frame.cast calling.caller calling.each (view_item item)))) }
{
    if excerpt.is_past(out) {
        return Ok(());
    }
    match item {
        Item::One(who) => write_member(out, excerpt, excerpt.frame.who(calling, who)),
        Item::Group(role) => write_role(out, excerpt, role),
        Item::Job(job) => write_job(out, &excerpt.frame, job),
    }
}

/// The front of the word of a fence's set: as many bytes as are wanted of the text, or all of it.
pub(crate) fn set_word(
    excerpt: &Excerpt,
    calling: Calling,
    items: &Vec<Item>,
) -> Result<Vec<u8>, AllocError>
    requires caller { calling.caller < process_count excerpt.now.frame.cast }
    requires each { calling.each < process_count excerpt.now.frame.cast }
    ensures { IfOk result (λ word. AgreeOn excerpt.now.wanted word.items (spelled_set (said.Listed (flat_map (items_said
        excerpt.now.frame.pattern excerpt.now.frame.cast calling.caller calling.each) (map view_item items.now.items))))) }
{
    let mut word = Vec::new(*items.allocator());
    for item in items {
        write_item(&mut word, excerpt, calling, *item)?;
    }
    word.pop();
    Ok(word)
}

/// Writes the name of a node.
pub(crate) fn write_node(out: &mut Vec<u8>, node: u32) -> Result<(), AllocError>
    ensures { OnOk result (out.new.items ≡ out.old.items ++ node_name node) }
{
    out.push(b'n')?;
    let mut digits = Buffer::new();
    out.extend_from_slice(digits.format(node).as_bytes())
}
