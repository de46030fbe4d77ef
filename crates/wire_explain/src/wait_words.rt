//! What a rank waits for, in words.

ghost use Rattle.std.specs.Prelude.{◌≡◌, ◌++◌, OnOk};
ghost use Rattle.wire_scripts.specs.Scripts.{numbers_of, text_at};
ghost use Rattle.wire_plan.specs.Kinds.{kind_of};
ghost use Rattle.wire_core.specs.Course.{state_of};
ghost use Rattle.wire_explain.specs.Stops as spec;

use crate::not_arrived::missing_for;
use std::alloc::{AllocError, Global};
use wire_core::Core;
use wire_plan::Kind;
use wire_scripts::Scripts;
use wire_types::Proc;
use wire_words::{push_number, push_proc};

/// How many ranks are named.
const NAMED: usize = 8;

/// Appends a space and a rank, for each of these.
fn push_rank_list(out: &mut Vec<u8>, scripts: &Scripts, ranks: &[Proc]) -> Result<(), AllocError>
    ensures { OnOk result (out.new.items ≡ out.old.items ++ spec.rank_list_text scripts.now (numbers_of ranks.now)) }
{
    for rank in ranks {
        out.extend_from_slice(b" ")?;
        push_proc(out, scripts, *rank)?;
    }
    Ok(())
}

/// Appends how many more there are, where there are any.
fn push_more(out: &mut Vec<u8>, count: usize) -> Result<(), AllocError>
    ensures { OnOk result (out.new.items ≡ out.old.items ++ spec.more_text count) }
{
    if count == 0 {
        return Ok(());
    }
    out.extend_from_slice(b" and ")?;
    push_number(out, count as u64)?;
    out.extend_from_slice(b" more")
}

/// Appends the first of these ranks, and how many more there are.
fn push_ranks(out: &mut Vec<u8>, scripts: &Scripts, ranks: &[Proc]) -> Result<(), AllocError>
    ensures { OnOk result (out.new.items ≡ out.old.items ++ spec.ranks_text scripts.now (numbers_of ranks.now)) }
{
    let named = ranks.len().min(NAMED);
    push_rank_list(out, scripts, &ranks[..named])?;
    push_more(out, ranks.len() - named)
}

/// Appends the text of a key.
fn push_key_text(out: &mut Vec<u8>, scripts: &Scripts, key: u32) -> Result<(), AllocError>
    ensures { OnOk result (out.new.items ≡ out.old.items ++ text_at scripts.now.keys key) }
{
    out.extend_from_slice(scripts.keys().text(key))
}

/// Appends a key of its own for which a rank waits.
fn push_own_key(out: &mut Vec<u8>, scripts: &Scripts, key: u32) -> Result<(), AllocError>
    ensures { OnOk result (out.new.items ≡ out.old.items ++ spec.own_key_text scripts.now key) }
{
    out.extend_from_slice(b" its own key ")?;
    push_key_text(out, scripts, key)?;
    out.extend_from_slice(b", which it hasn't put")
}

/// Appends what a rank waits for at a get of a key.
fn push_key(
    out: &mut Vec<u8>,
    scripts: &Scripts,
    proc: Proc,
    owner: Proc,
    key: u32,
) -> Result<(), AllocError>
    ensures { OnOk result (out.new.items ≡ out.old.items ++ spec.key_text scripts.now proc.number owner.number key) }
{
    if owner == proc {
        return push_own_key(out, scripts, key);
    }
    out.extend_from_slice(b" ")?;
    push_proc(out, scripts, owner)?;
    out.extend_from_slice(b" to commit the key ")?;
    push_key_text(out, scripts, key)
}

/// Appends the text of a name.
fn push_name_text(out: &mut Vec<u8>, scripts: &Scripts, name: u32) -> Result<(), AllocError>
    ensures { OnOk result (out.new.items ≡ out.old.items ++ text_at scripts.now.names name) }
{
    out.extend_from_slice(scripts.names().text(name))
}

/// Appends the name for which a rank waits.
fn push_published(out: &mut Vec<u8>, scripts: &Scripts, name: u32) -> Result<(), AllocError>
    ensures { OnOk result (out.new.items ≡ out.old.items ++ spec.published_text scripts.now name) }
{
    out.extend_from_slice(b" the name ")?;
    push_name_text(out, scripts, name)?;
    out.extend_from_slice(b" to be published")
}

/// Appends for whom a rank waits at the end of a fence over a set.
fn push_missing(
    alloc: Global,
    out: &mut Vec<u8>,
    core: &Core<'_>,
    proc: Proc,
    set: u32,
) -> Result<(), AllocError>
    ensures { OnOk result (out.new.items ≡ out.old.items
        ++ spec.wait_text core.now.scripts (state_of core.now) proc.number (kind_of core.now.scripts.sets (Kind.Leave set))) }
{
    let missing = missing_for(alloc, core, proc, set)?;
    push_ranks(out, core.plan().scripts(), missing.as_slice())?;
    out.extend_from_slice(b" to arrive")
}

/// Appends what a rank waits for, whose next event is of this kind.
pub(crate) fn push_wait(
    alloc: Global,
    out: &mut Vec<u8>,
    core: &Core<'_>,
    proc: Proc,
    kind: Kind,
) -> Result<(), AllocError>
    ensures { OnOk result (out.new.items ≡ out.old.items
        ++ spec.wait_text core.now.scripts (state_of core.now) proc.number (kind_of core.now.scripts.sets kind)) }
{
    let scripts = core.plan().scripts();
    match kind {
        Kind::Get { owner, key } => push_key(out, scripts, proc, owner, key),
        Kind::Leave { set } => push_missing(alloc, out, core, proc, set),
        Kind::LookupWait { name } => push_published(out, scripts, name),
        _ => out.extend_from_slice(b" nothing"),
    }
}
