//! The calls by which a plan isn't portable, in lines.

ghost use Rattle.std.specs.Prelude.{◌≡◌, ◌++◌, IfOk, OnOk};
ghost use Rattle.std.specs.List.{flat_map};
ghost use Rattle.wire_report.specs.GroupedText.{said_call};
ghost use Rattle.wire_portable_commands.specs.Heads.{IsHead};
ghost use Rattle.wire_portable_commands.specs.Lines as spec;

use crate::words::{names_or_none, names_text, portable_in, rule_word};
use std::alloc::{AllocError, Global};
use wire_portable::Unportable;
use wire_scripts::Scripts;
use wire_types::{CallAt, Proc};
use wire_words::{push_call, push_number, push_proc, verb_at};

/// Appends a call with its verb.
pub(crate) fn push_said(
    out: &mut Vec<u8>,
    scripts: &Scripts,
    call: CallAt,
) -> Result<(), AllocError>
    ensures { OnOk result (out.new.items ≡ out.old.items ++ said_call scripts.now call) }
{
    push_call(out, scripts, call)?;
    out.extend_from_slice(b" ")?;
    out.extend_from_slice(verb_at(scripts, call).as_bytes())
}

/// The first words of the lines of a process's calls: they are made once for those that stand together.
struct Head {
    proc: Proc,
    words: Vec<u8>,
}

// By hand and not derived: so dropping one is a call, and the proof of a function that drops one doesn't take it apart.
impl Drop for Head {
    fn drop(self) {
        let Head { proc: _, words: _ } = self;
    }
}

/// The first words of the lines of a process's calls.
fn head_of(alloc: Global, scripts: &Scripts, proc: Proc) -> Result<Head, AllocError>
    ensures words { IfOk result (λ head. IsHead scripts.now head) }
    ensures proc { IfOk result (λ head. head.proc.number ≡ proc.number) }
{
    let mut words = Vec::new(alloc);
    words.extend_from_slice(b"unportable ")?;
    push_proc(&mut words, scripts, proc)?;
    words.extend_from_slice(b" ")?;
    Ok(Head { proc, words })
}

/// Appends the first words of a call's line: that it is unportable, and what it is.
fn push_call_of(
    out: &mut Vec<u8>,
    scripts: &Scripts,
    head: &Head,
    line: Unportable,
) -> Result<(), AllocError>
    requires head { IsHead scripts.now head.now }
    requires its { head.now.proc.number ≡ line.call.proc.number }
    ensures { OnOk result (out.new.items ≡ out.old.items ++ spec.unportable_call scripts.now line) }
{
    out.extend_from_slice(head.words.as_slice())?;
    push_number(out, u64::from(line.call.call) + 1)?;
    out.extend_from_slice(b" ")?;
    out.extend_from_slice(verb_at(scripts, line.call).as_bytes())
}

/// Appends the last words of a call's line: the rule and the libraries.
fn push_blame(out: &mut Vec<u8>, line: Unportable) -> Result<(), AllocError>
    ensures { OnOk result (out.new.items ≡ out.old.items ++ spec.blame_of line) }
{
    out.extend_from_slice(b" ")?;
    out.extend_from_slice(rule_word(line.rule).as_bytes())?;
    out.extend_from_slice(b" ")?;
    out.extend_from_slice(names_text(line.libraries).as_bytes())?;
    out.extend_from_slice(b"\n")
}

/// Appends the line of a call.
fn push_line(
    out: &mut Vec<u8>,
    scripts: &Scripts,
    head: &Head,
    line: Unportable,
) -> Result<(), AllocError>
    requires head { IsHead scripts.now head.now }
    requires its { head.now.proc.number ≡ line.call.proc.number }
    ensures { OnOk result (out.new.items ≡ out.old.items ++ spec.unportable_line scripts.now line) }
{
    push_call_of(out, scripts, head, line)?;
    push_blame(out, line)
}

/// Appends the line of a call, given the first words of some process's lines, which are made anew for another process.
fn push_next(
    alloc: Global,
    out: &mut Vec<u8>,
    scripts: &Scripts,
    head: &mut Head,
    line: Unportable,
) -> Result<(), AllocError>
    requires { IsHead scripts.now head.old }
    ensures text { OnOk result (out.new.items ≡ out.old.items ++ spec.unportable_line scripts.now line) }
    ensures head { OnOk result (IsHead scripts.now head.new) }
{
    if head.proc.number != line.call.proc.number {
        *head = head_of(alloc, scripts, line.call.proc)?;
    }
    push_line(out, scripts, head, line)
}

/// Appends the lines of all calls.
fn push_all(
    alloc: Global,
    out: &mut Vec<u8>,
    scripts: &Scripts,
    lines: &[Unportable],
) -> Result<(), AllocError>
    ensures { OnOk result (out.new.items ≡ out.old.items ++ flat_map (spec.unportable_line scripts.now) lines.now) }
{
    let mut head = head_of(alloc, scripts, Proc { number: 0 })?;
    for line in lines {
        push_next(alloc, out, scripts, &mut head, *line)?;
    }
    Ok(())
}

/// Appends the last line: the libraries that no line has.
pub(crate) fn push_portable(out: &mut Vec<u8>, lines: &[Unportable]) -> Result<(), AllocError>
    ensures { OnOk result (out.new.items ≡ out.old.items ++ spec.portable_line lines.now) }
{
    out.extend_from_slice(b"portable ")?;
    out.extend_from_slice(names_or_none(portable_in(lines)).as_bytes())?;
    out.extend_from_slice(b"\n")
}

/// Appends the lines of all calls, and the last line.
pub(crate) fn push_lines(
    alloc: Global,
    out: &mut Vec<u8>,
    scripts: &Scripts,
    lines: &[Unportable],
) -> Result<(), AllocError>
    ensures { OnOk result (out.new.items ≡ out.old.items ++ spec.plain_lines scripts.now lines.now) }
{
    push_all(alloc, out, scripts, lines)?;
    push_portable(out, lines)
}
