//! What `--explain` adds to a verdict without findings: who waits for ever in the first instance in which a rank does, or
//! in that which has as many ranks of each group as `later` says.

ghost use Rattle.std.specs.Prelude.{◌≡◌, ◌++◌, ◌<◌, ◌^◌, ◌==◌, map, true, codes, if◌then◌else◌, OnOk, IfOk, IfErr};
ghost use Rattle.wire_types.specs.declared.Fault.TheVariants.{Memory};
ghost use Rattle.wire_pattern.specs.Views.{role_by};
ghost use Rattle.wire_cutoff.specs.Judged.{IsJudgeFault};
ghost use Rattle.wire_cutoff.specs.Selections.{most_sizes};
ghost use Rattle.wire_cutoff_laws.specs.Sizes.{total_of};
ghost use Rattle.wire_pattern_commands.specs.FirstWait as spec;
ghost use Rattle.wire_pattern_commands.specs.LeftOut.{left_part, turns_text};
ghost use Rattle.wire_pattern_commands.specs.FirstWait.{AddsLines, AddsMember, ExplainsFirstWait, IsExplainedWaitOf, IsLaterRead};
ghost use Rattle.wire_pattern_commands.specs.FirstWait.{LinesOf, MemberOf, TellsFirst, ListsFirst};
ghost use Rattle.wire_pattern_commands.specs.declared.beyond.Beyond.{Beyond as BeyondSpec};

use crate::asked::PatternAsked;
use crate::beyond::Beyond;
use crate::first_wait::{FirstWait, find_shown};
use crate::left_out::{push_left, push_turns};
use crate::strings::{push_lines, push_text};
use std::alloc::{AllocError, Global};
use wire_command::Answer;
use wire_json::push_quoted;
use wire_pattern::{Pattern, Role};
use wire_standstill::{list_standstill, tell_standstill};
use wire_types::Fault;
use wire_words::push_number;

/// Appends how many ranks a group has; nothing of a role of one rank.
fn push_size(out: &mut Vec<u8>, role: &Role, size: u32) -> Result<(), AllocError>
    ensures { OnOk result (out.new.items ≡ out.old.items ++ spec.size_words (role_by role.now) size) }
{
    if role.single {
        return Ok(());
    }
    out.extend_from_slice(b", ")?;
    out.extend_from_slice(role.name.as_slice())?;
    out.extend_from_slice(b"=")?;
    push_number(out, u64::from(size))
}

/// Appends how many ranks each group has.
fn push_sizes(out: &mut Vec<u8>, roles: &[Role], sizes: &[u32]) -> Result<(), AllocError>
    ensures { OnOk result (out.new.items ≡ out.old.items ++ spec.sizes_words (map role_by roles.now) sizes.now) }
{
    for (number, role) in roles.iter().enumerate() {
        let Some(size) = sizes.get(number) else {
            return Ok(());
        };
        push_size(out, role, *size)?;
    }
    Ok(())
}

/// Appends how many ranks each group of a pattern has.
fn push_groups(out: &mut Vec<u8>, pattern: &Pattern, sizes: &[u32]) -> Result<(), AllocError>
    ensures { OnOk result (out.new.items ≡ out.old.items ++ spec.sizes_words pattern.now.roles sizes.now) }
{
    push_sizes(out, pattern.roles(), sizes)
}

/// The word behind a number of ranks.
fn ranks_word(count: usize) -> &'static [u8]
    ensures { result.now ≡ (if count == 1 then codes " rank" else codes " ranks") }
{
    if count == 1 {
        b" rank".as_slice()
    } else {
        b" ranks".as_slice()
    }
}

/// Appends so many ranks.
fn push_count(out: &mut Vec<u8>, count: usize) -> Result<(), AllocError>
    ensures { OnOk result (out.new.items ≡ out.old.items ++ spec.count_words count) }
{
    push_number(out, count as u64)?;
    out.extend_from_slice(ranks_word(count))
}

/// How many ranks an instance has, and each of its groups.
fn with_words(alloc: Global, pattern: &Pattern, first: &FirstWait) -> Result<Vec<u8>, AllocError>
    ensures { IfOk result (λ words. words.items ≡ spec.with_words pattern.now first.now.sizes.items first.now.plan) }
{
    let mut words = Vec::new(alloc);
    push_count(&mut words, first.plan.scripts().processes().len())?;
    push_groups(&mut words, pattern, first.sizes.as_slice())?;
    Ok(words)
}

/// The line above who waits in an instance.
fn first_line(alloc: Global, pattern: &Pattern, first: &FirstWait) -> Result<Vec<u8>, AllocError>
    ensures { IfOk result (λ line. line.items ≡ spec.first_line pattern.now first.now.sizes.items first.now.plan) }
{
    let words = with_words(alloc, pattern, first)?;
    let mut line = Vec::from_slice(alloc, b"ranks wait for ever with ")?;
    line.extend_from_slice(words.as_slice())?;
    line.extend_from_slice(b":\n")?;
    Ok(line)
}

/// Appends which turns an instance leaves out, below a heading.
fn push_left_out(out: &mut Vec<u8>, first: &FirstWait) -> Result<(), AllocError>
    ensures { OnOk result (out.new.items ≡ out.old.items ++ left_part first.now.plan first.now.left.items) }
{
    push_left(out, first.plan.scripts(), first.left.as_slice())
}

/// The lines about an instance in which a rank waits.
fn first_text(alloc: Global, pattern: &Pattern, first: &FirstWait) -> Result<Vec<u8>, Fault>
    ensures ok { IfOk result (λ text. TellsFirst pattern.now first.now text.items) }
    ensures err { IfErr result (λ e. e ≡ Memory) }
{
    let told = tell_standstill(alloc, &first.plan)?;
    let mut text = first_line(alloc, pattern, first)?;
    push_left_out(&mut text, first)?;
    text.extend_from_slice(told.as_slice())?;
    Ok(text)
}

/// The lines about the instance that is shown, if there is one.
#[tactic(auto, using(crate::proofs::FirstWaits::lines_told, crate::proofs::FirstWaits::no_lines_told))]
fn lines_of(alloc: Global, pattern: &Pattern, found: &Option<FirstWait>) -> Result<Vec<u8>, Fault>
    ensures ok { IfOk result (λ text. LinesOf pattern.now found.now text.items) }
    ensures err { IfErr result (λ e. e ≡ Memory) }
{
    match found {
        Some(first) => first_text(alloc, pattern, first),
        None => Ok(Vec::new(alloc)),
    }
}

/// A line for each turn that an instance leaves out.
fn left_lines(alloc: Global, first: &FirstWait) -> Result<Vec<u8>, AllocError>
    ensures { IfOk result (λ lines. lines.items ≡ turns_text first.now.plan first.now.left.items) }
{
    let mut lines = Vec::new(alloc);
    push_turns(&mut lines, first.plan.scripts(), first.left.as_slice())?;
    Ok(lines)
}

/// Appends the member of the turns that an instance leaves out.
fn push_not_taken(alloc: Global, out: &mut Vec<u8>, first: &FirstWait) -> Result<(), AllocError>
    ensures { OnOk result (out.new.items ≡ out.old.items ++ spec.not_taken_member first.now.plan first.now.left.items) }
{
    let lines = left_lines(alloc, first)?;
    out.extend_from_slice(b"\"not_taken\":")?;
    push_lines(alloc, out, lines.as_slice())?;
    out.extend_from_slice(b",")
}

/// The text of a plan, how many ranks it has, and the end of both objects.
fn plan_members(alloc: Global, pattern: &Pattern, first: &FirstWait) -> Result<Vec<u8>, AllocError>
    ensures { IfOk result (λ text. text.items ≡ spec.plan_members pattern.now first.now.sizes.items first.now.text.items first.now.plan) }
{
    let words = with_words(alloc, pattern, first)?;
    let mut text = Vec::from_slice(alloc, b"\"plan\":")?;
    push_text(&mut text, first.text.as_slice())?;
    text.extend_from_slice(b",\"with\":")?;
    push_quoted(&mut text, words.as_slice())?;
    text.extend_from_slice(b"}}\n")?;
    Ok(text)
}

/// The member about an instance in which a rank waits.
fn first_json(alloc: Global, pattern: &Pattern, first: &FirstWait) -> Result<Vec<u8>, Fault>
    ensures ok { IfOk result (λ text. ListsFirst pattern.now first.now text.items) }
    ensures err { IfErr result (λ e. e ≡ Memory) }
{
    let members = list_standstill(alloc, &first.plan)?;
    let rest = plan_members(alloc, pattern, first)?;
    let mut text = Vec::from_slice(alloc, b",\"where\":")?;
    text.extend_from_slice(members.as_slice())?;
    push_not_taken(alloc, &mut text, first)?;
    text.extend_from_slice(rest.as_slice())?;
    Ok(text)
}

/// The member about the instance that is shown, and the end of the object.
#[tactic(auto, using(crate::proofs::FirstWaits::member_told, crate::proofs::FirstWaits::no_member_told))]
fn member_of(alloc: Global, pattern: &Pattern, found: &Option<FirstWait>) -> Result<Vec<u8>, Fault>
    ensures ok { IfOk result (λ text. MemberOf pattern.now found.now text.items) }
    ensures err { IfErr result (λ e. e ≡ Memory) }
{
    match found {
        Some(first) => first_json(alloc, pattern, first),
        None => Ok(Vec::from_slice(alloc, b",\"where\":null}\n")?),
    }
}

/// An object without the brace that closes it and the line feed.
fn without_end(object: &[u8]) -> &[u8]
    ensures { result.now ≡ spec.without_end object.now }
{
    &object[..object.len().saturating_sub(2)]
}

/// A verdict in lines, with who waits.
fn with_lines(
    alloc: Global,
    pattern: &Pattern,
    verdict: &[u8],
    found: &Option<FirstWait>,
) -> Result<Vec<u8>, Fault>
    ensures ok { IfOk result (λ text. (beyond : BeyondSpec) → IsExplainedWaitOf pattern.now beyond found.now
        → AddsLines pattern.now beyond verdict.now text.items) }
    ensures err { IfErr result (λ e. e ≡ Memory) }
{
    let lines = lines_of(alloc, pattern, found)?;
    let mut text = Vec::from_slice(alloc, verdict)?;
    text.extend_from_slice(lines.as_slice())?;
    Ok(text)
}

/// A verdict as JSON, with who waits.
fn with_member(
    alloc: Global,
    pattern: &Pattern,
    verdict: &[u8],
    found: &Option<FirstWait>,
) -> Result<Vec<u8>, Fault>
    ensures ok { IfOk result (λ text. (beyond : BeyondSpec) → IsExplainedWaitOf pattern.now beyond found.now
        → AddsMember pattern.now beyond verdict.now text.items) }
    ensures err { IfErr result (λ e. e ≡ Memory) }
{
    let member = member_of(alloc, pattern, found)?;
    let mut text = Vec::from_slice(alloc, without_end(verdict))?;
    text.extend_from_slice(member.as_slice())?;
    Ok(text)
}

/// A verdict in the form that is asked for, with who waits.
fn with_first(
    alloc: Global,
    pattern: &Pattern,
    json: bool,
    verdict: &[u8],
    found: &Option<FirstWait>,
) -> Result<Vec<u8>, Fault>
    ensures ok { IfOk result (λ text. (beyond : BeyondSpec) → IsExplainedWaitOf pattern.now beyond found.now
        → ExplainsFirstWait true json pattern.now beyond verdict.now text.items) }
    ensures err { IfErr result (λ e. e ≡ Memory) }
{
    if json {
        with_member(alloc, pattern, verdict, found)
    } else {
        with_lines(alloc, pattern, verdict, found)
    }
}

/// The text of a verdict, with who waits for ever in the instance that is shown.
fn explained_text(
    alloc: Global,
    pattern: &Pattern,
    json: bool,
    beyond: &Beyond,
    verdict: &[u8],
) -> Result<Vec<u8>, Fault>
    requires few { total_of (most_sizes pattern.now.roles) < 2 ^ 31 }
    requires later { IsLaterRead pattern.now beyond.now }
    ensures ok { IfOk result (λ text. ExplainsFirstWait true json pattern.now beyond.now verdict.now text.items) }
    ensures err { IfErr result (λ e. IsJudgeFault pattern.now e) }
{
    let found = find_shown(alloc, pattern, beyond)?;
    let text = with_first(alloc, pattern, json, verdict, &found);
    drop(found);
    let text = text?;
    Ok(text)
}

/// An answer without findings, and if that is asked for who waits for ever: in the first instance that is judged in which
/// a rank does, else in that with as many ranks of each group as one does first.
#[tactic(auto, using(crate::proofs::FirstWaits::explained_by, crate::proofs::FirstWaits::unexplained))]
pub(crate) fn explain_answer(
    alloc: Global,
    pattern: &Pattern,
    asked: PatternAsked,
    beyond: &Beyond,
    answer: Answer,
) -> Result<Answer, Fault>
    requires few { total_of (most_sizes pattern.now.roles) < 2 ^ 31 }
    requires later { IsLaterRead pattern.now beyond.now }
    ensures ended { IfOk result (λ it. it.ended ≡ answer.ended) }
    ensures ok { IfOk result (λ it. ExplainsFirstWait asked.explain asked.json pattern.now beyond.now answer.text.items it.text.items) }
    ensures err { IfErr result (λ e. IsJudgeFault pattern.now e) }
{
    if !asked.explain {
        return Ok(answer);
    }
    let text = explained_text(alloc, pattern, asked.json, beyond, answer.text.as_slice())?;
    let ended = answer.ended;
    Ok(Answer { text, ended })
}
