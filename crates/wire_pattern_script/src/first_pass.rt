//! The first pass: each line by itself and by those before it.

ghost use Rattle.std.specs.Prelude.{◌≡◌, ◌+◌, ◌<◌, ◌≤◌, ◌⊎◌, true, false, Ok, Err, length, map, ◌^◌, OnOk, IfOk, IfErr};
ghost use Rattle.std.specs.Prelude.{MatchResult, vec_len, is_none, unwrap_or, count_by, ◌==◌};
ghost use Rattle.std.specs.List.{list_all, list_any};
ghost use Rattle.std.specs.Str.{bytes_eq};
ghost use Rattle.wire_types.specs.Texts.{texts_of};
ghost use Rattle.wire_lines.specs.Text.{lines_of};
ghost use Rattle.wire_reader.specs.FirstPass as plan;
ghost use Rattle.wire_reader.specs.Limits as limit;
ghost use Rattle.wire_reader.specs.declared.limits.Size.TheVariants.{OfVersion};
ghost use Rattle.wire_reader.specs.Statements.{statements};
ghost use Rattle.wire_reader.specs.Left.{statements_left};
ghost use Rattle.wire_pattern_lines.specs.Views.{said_by, view_call, view_item, set_by, key_by, proc_by};
ghost use Rattle.wire_pattern_lines.specs.Said as said;
ghost use Rattle.wire_pattern_script.specs.FirstPass as spec;
ghost use Rattle.wire_pattern_script.specs.FirstPass.{judged, after, nothing, Judges, JudgesAll, FirstPass};
ghost use Rattle.wire_pattern_script.specs.FirstPass.{job_names, role_names, with_step, with_call, with_loop};
ghost use Rattle.wire_pattern_script.specs.FirstPass.{with_role};
ghost use Rattle.wire_pattern_script.specs.Drafted.{declared_of, role_of, step_of, placed_of, loop_of};

use crate::draft::{Draft, JobDraft, LocatedCall, LoopDraft, RoleDraft, StepDraft};
use crate::limits::{GROUPS, JOBS, LISTED, NAME_BYTES, ROLES, VALUE_BYTES};
use std::alloc::{AllocError, Global};
use wire_pattern_lines::{CallLine, Item, Key, Line, Proc, Set, is_header, read_pattern_line};
use wire_reader::Cursor;
use wire_types::Fault;

/// Whether a name is within its limit.
fn is_short_name(name: &[u8]) -> bool
    ensures { result ≡ plan.is_short_name name.now }
{
    name.len() <= NAME_BYTES
}

/// Whether these names are within their limit.
fn are_short_names(names: &[&[u8]]) -> bool
    ensures { result ≡ list_all (λ n. plan.is_short_name n.now) names.now }
{
    names.iter().all(|name| is_short_name(name))
}

/// Whether a value is within its limit.
fn is_short_value(value: &[u8]) -> bool
    ensures { result ≡ plan.is_short_value value.now }
{
    value.len() <= VALUE_BYTES
}

/// Whether the name of a process, if it has one, is within its limit.
fn is_short_proc(proc: &Proc) -> bool
    ensures { result ≡ spec.is_short_proc (proc_by proc.now) }
{
    match proc {
        Proc::Caller | Proc::Each => true,
        Proc::Named(role) => is_short_name(role),
    }
}

/// Whether the names of these processes are within their limit.
fn are_short_procs(procs: &[Proc]) -> bool
    ensures { result ≡ list_all (λ p. spec.is_short_proc (proc_by p)) procs.now }
{
    procs.iter().all(|proc| is_short_proc(proc))
}

/// Whether the names in the brackets of a key are within their limit.
fn has_short_indices(key: &Key) -> bool
    ensures { result ≡ list_all spec.is_short_proc (key_by key.now).indices }
{
    are_short_procs(&key.indices)
}

/// Whether the base of a key and the names in its brackets are within their limit.
fn is_short_key(key: &Key) -> bool
    ensures { result ≡ spec.is_short_key (key_by key.now) }
{
    is_short_name(key.base) && has_short_indices(key)
}

/// Whether the name in an item of a set is within its limit.
fn is_short_item(item: &Item) -> bool
    ensures { result ≡ spec.is_short_item (view_item item.now) }
{
    match item {
        Item::One(proc) => is_short_proc(proc),
        Item::Every(job) => is_short_name(job),
    }
}

/// Whether the names in these items are within their limit.
fn are_short_items(items: &[Item]) -> bool
    ensures { result ≡ list_all (λ i. spec.is_short_item (view_item i)) items.now }
{
    items.iter().all(|item| is_short_item(item))
}

/// Whether the names in a set are within their limit.
fn is_short_set(set: &Set) -> bool
    ensures { result ≡ spec.is_short_set (set_by set.now) }
{
    match set {
        Set::Own => true,
        Set::Listed(items) => are_short_items(items),
    }
}

/// Whether the names, the bases and the value of a call are within their limits.
fn is_short_call(call: &CallLine) -> bool
    ensures { result ≡ spec.is_short_call (view_call call.now) }
{
    match call {
        CallLine::Put { key, value, .. } => is_short_key(key) && is_short_value(value),
        CallLine::Commit | CallLine::UnpublishAll => true,
        CallLine::Fence { set, .. } => is_short_set(set),
        CallLine::Get { owner, key } | CallLine::GetNow { owner, key } => is_short_proc(owner)
            && is_short_key(key),
        CallLine::Publish { name, value } => is_short_key(name) && is_short_value(value),
        CallLine::Lookup { name } | CallLine::LookupWait { name } | CallLine::Unpublish { name } =>
            { is_short_key(name) }
    }
}

/// Whether the names, bases and values of a line are within their limits.
fn is_short(said: &Line) -> bool
    ensures { result ≡ spec.is_short (said_by said.now) }
{
    match said {
        Line::Header | Line::Keep | Line::End => true,
        Line::Job(name) | Line::Single(name) => is_short_name(name),
        Line::Many { name, .. } => is_short_name(name),
        Line::Begin { roles, .. } => are_short_names(roles),
        Line::Calls(call) => is_short_call(call),
    }
}

/// Whether it is the process of the turn.
fn is_each(proc: &Proc) -> bool
    ensures { result ≡ said.is_each (proc_by proc.now) }
{
    matches!(proc, Proc::Each)
}

/// Whether one of these is the process of the turn.
fn has_each(procs: &[Proc]) -> bool
    ensures { result ≡ list_any (λ p. said.is_each (proc_by p)) procs.now }
{
    procs.iter().any(|proc| is_each(proc))
}

/// Whether the process of the turn indexes a key.
fn is_indexed_by_each(key: &Key) -> bool
    ensures { result ≡ said.has_each (key_by key.now) }
{
    has_each(&key.indices)
}

/// Whether an item is the process of the turn.
fn is_each_item(item: &Item) -> bool
    ensures { result ≡ said.is_each_item (view_item item.now) }
{
    match item {
        Item::One(proc) => is_each(proc),
        Item::Every(_) => false,
    }
}

/// Whether one of these items is the process of the turn.
fn have_each(items: &[Item]) -> bool
    ensures { result ≡ list_any (λ i. said.is_each_item (view_item i)) items.now }
{
    items.iter().any(|item| is_each_item(item))
}

/// Whether a set has the process of the turn as an item.
fn is_each_in(set: &Set) -> bool
    ensures { result ≡ said.is_each_in (set_by set.now) }
{
    match set {
        Set::Own => false,
        Set::Listed(items) => have_each(items),
    }
}

/// Whether a call names the process of the turn.
fn names_each(call: &CallLine) -> bool
    ensures { result ≡ said.names_each (view_call call.now) }
{
    match call {
        CallLine::Commit | CallLine::UnpublishAll => false,
        CallLine::Put { key, .. } => is_indexed_by_each(key),
        CallLine::Fence { set, .. } => is_each_in(set),
        CallLine::Get { owner, key } | CallLine::GetNow { owner, key } => is_each(owner)
            || is_indexed_by_each(key),
        CallLine::Publish { name, .. }
        | CallLine::Lookup { name }
        | CallLine::LookupWait { name }
        | CallLine::Unpublish { name } => is_indexed_by_each(name),
    }
}

/// Whether a call may stand here: outside of loops where it names no process of a turn, in one where it does, or
/// commits.
fn is_turn_right(draft: &Draft, call: &CallLine) -> bool
    ensures { result ≡ spec.is_turn_right (declared_of draft.now).open_loop (view_call call.now) }
{
    match &draft.open_loop {
        None => !names_each(call),
        Some(_) => matches!(call, CallLine::Commit) || names_each(call),
    }
}

/// Whether a line may stand where it stands.
fn is_in_place(draft: &Draft, said: &Line) -> bool
    ensures { result ≡ spec.is_in_place (declared_of draft.now) (said_by said.now) }
{
    match said {
        Line::Header => false,
        Line::Keep => !draft.keeps && draft.jobs.is_empty(),
        Line::Job(_) => draft.open_loop.is_none(),
        Line::Single(_) | Line::Many { .. } => !draft.jobs.is_empty() && draft.open_loop.is_none(),
        Line::Begin { .. } => draft.begun && draft.open_loop.is_none(),
        Line::End => draft.open_loop.is_some(),
        Line::Calls(call) => draft.begun && is_turn_right(draft, call),
    }
}

/// Whether a job has this name.
pub fn is_job_named(job: &JobDraft, name: &[u8]) -> bool
    ensures { result ≡ bytes_eq name.now job.now.name.now }
{
    name == job.name
}

/// Whether a role has this name.
pub fn is_role_named(role: &RoleDraft, name: &[u8]) -> bool
    ensures { result ≡ bytes_eq name.now role.now.name.now }
{
    name == role.name
}

/// Whether one of these jobs has this name.
fn is_job_among(jobs: &[JobDraft], name: &[u8]) -> bool
    ensures { result ≡ list_any (λ j. bytes_eq name.now j.name.now) jobs.now }
{
    jobs.iter().any(|job| is_job_named(job, name))
}

/// Whether there is a job of this name.
fn has_job(draft: &Draft, name: &[u8]) -> bool
    ensures { result ≡ plan.is_among (job_names (declared_of draft.now)) name.now }
{
    is_job_among(&draft.jobs, name)
}

/// Whether one of these roles has this name.
fn is_role_among(roles: &[RoleDraft], name: &[u8]) -> bool
    ensures { result ≡ list_any (λ r. bytes_eq name.now r.name.now) roles.now }
{
    roles.iter().any(|role| is_role_named(role, name))
}

/// Whether there is a role of this name.
fn has_role(draft: &Draft, name: &[u8]) -> bool
    ensures { result ≡ plan.is_among (role_names (declared_of draft.now)) name.now }
{
    is_role_among(&draft.roles, name)
}

/// Whether it is the same name.
fn is_same(name: &[u8], other: &[u8]) -> bool
    ensures { result ≡ bytes_eq name.now other.now }
{
    name == other
}

/// Whether this name is there once.
fn is_once(names: &[&[u8]], name: &[u8]) -> bool
    ensures { result ≡ (count_by (λ n. bytes_eq name.now n.now) names.now == 1) }
{
    names.iter().filter(|other| is_same(name, other)).count() == 1
}

/// Whether each of these names is there once.
fn are_each_once(names: &[&[u8]]) -> bool
    ensures { result ≡ list_all (λ m. count_by (λ n. bytes_eq m.now n.now) names.now == 1) names.now }
{
    names.iter().all(|name| is_once(names, name))
}

/// The same, by what the names say.
fn are_once(names: &[&[u8]]) -> bool
    ensures { result ≡ spec.are_once (texts_of names.now) }
{
    are_each_once(names)
}

/// Whether a loop lists a role twice, as far as its list is read: to the first role that is too much.
fn lists_twice(roles: &[&[u8]]) -> bool
    ensures { result ≡ spec.lists_twice (texts_of roles.now) }
{
    if roles.len() <= LISTED {
        !are_once(roles)
    } else {
        !are_once(&roles[..LISTED + 1])
    }
}

/// Whether a line declares what is declared already, or lists a role twice.
fn is_again(draft: &Draft, said: &Line) -> bool
    ensures { result ≡ spec.is_again (declared_of draft.now) (said_by said.now) }
{
    match said {
        Line::Job(name) => has_job(draft, name),
        Line::Single(name) => has_role(draft, name),
        Line::Many { name, .. } => has_role(draft, name),
        Line::Begin { roles, .. } => lists_twice(roles),
        _ => false,
    }
}

/// How many roles are groups.
fn group_count(draft: &Draft) -> usize
    ensures { result ≡ spec.group_count (declared_of draft.now) }
{
    draft.roles.iter().filter(|role| !role.single).count()
}

/// Whether there is room for what a line declares.
fn has_room(draft: &Draft, said: &Line) -> bool
    ensures { result ≡ spec.has_room (declared_of draft.now) (said_by said.now) }
{
    match said {
        Line::Job(_) => draft.jobs.len() < JOBS,
        Line::Single(_) => draft.roles.len() < ROLES,
        Line::Many { .. } => draft.roles.len() < ROLES && group_count(draft) < GROUPS,
        Line::Begin { roles, .. } => roles.len() <= LISTED,
        _ => true,
    }
}

/// The fault of a line that says this.
fn judge(draft: &Draft, line: u64, said: &Line) -> Result<(), Fault>
    ensures judged { MatchResult result
        (λ _. judged (declared_of draft.now) line (said_by said.now)
        ≡ Ok (after (declared_of draft.now) line (said_by said.now)))
        (λ e. judged (declared_of draft.now) line (said_by said.now) ≡ Err e) }
    ensures place { OnOk result (spec.is_in_place (declared_of draft.now) (said_by said.now) ≡ true) }
    ensures room { OnOk result (spec.has_room (declared_of draft.now) (said_by said.now) ≡ true) }
{
    if !is_in_place(draft, said) {
        Err(Fault::BadLine(line))
    } else if !is_short(said) {
        Err(Fault::TooLong(line))
    } else if is_again(draft, said) {
        Err(Fault::Twice(line))
    } else if !has_room(draft, said) {
        Err(Fault::TooMany(line))
    } else {
        Ok(())
    }
}

/// A draft in which nothing is declared.
fn new_draft<'a>(alloc: Global) -> Draft<'a>
    ensures { declared_of result ≡ nothing }
{
    Draft {
        keeps: false,
        jobs: Vec::new(alloc),
        roles: Vec::new(alloc),
        begun: false,
        open_loop: None,
    }
}

/// Gives the last role one more step.
fn add_step<'a>(roles: &mut Vec<RoleDraft<'a>>, step: StepDraft<'a>) -> Result<(), AllocError>
    ensures added { OnOk result (map role_of roles.new.items ≡ with_step (map role_of roles.old.items) (step_of step.entry)) }
    ensures count { vec_len roles.new ≡ vec_len roles.old }
{
    match roles.last_mut() {
        Some(role) => {
            role.steps.push(step)?;
            Ok(())
        }
        None => Ok(()),
    }
}

/// Gives the last job one more role.
fn add_role<'a>(
    draft: &mut Draft<'a>,
    alloc: Global,
    number: u64,
    name: &'a [u8],
    least: Option<u32>,
) -> Result<(), AllocError>
    requires jobs { 0 < vec_len draft.old.jobs }
    requires room { vec_len draft.old.roles < 64 }
    ensures { OnOk result (declared_of draft.new ≡ with_role (declared_of draft.old) number name.now (is_none least) (unwrap_or least 1)) }
{
    let role = RoleDraft {
        job: (draft.jobs.len() - 1) as u32,
        name,
        single: least.is_none(),
        least: least.unwrap_or(1),
        number,
        steps: Vec::new(alloc),
    };
    draft.roles.push(role)?;
    draft.begun = true;
    Ok(())
}

/// Gives the open loop one more call, or else the last role.
fn add_call<'a>(draft: &mut Draft<'a>, call: LocatedCall<'a>) -> Result<(), AllocError>
    ensures { OnOk result (declared_of draft.new ≡ with_call (declared_of draft.old) (declared_of draft.old).open_loop (placed_of call.entry)) }
{
    match &mut draft.open_loop {
        Some(open) => {
            open.lines.push(call)?;
            Ok(())
        }
        None => add_step(&mut draft.roles, StepDraft::Once(call)),
    }
}

/// Ends the open loop.
fn end_loop(draft: &mut Draft) -> Result<(), AllocError>
    ensures { OnOk result (declared_of draft.new ≡ with_loop (declared_of draft.old) (declared_of draft.old).open_loop) }
{
    match draft.open_loop.take() {
        Some(open) => add_step(&mut draft.roles, StepDraft::Loop(open)),
        None => Ok(()),
    }
}

/// Declares what a line says.
fn add<'a>(
    draft: &mut Draft<'a>,
    alloc: Global,
    line: u64,
    said: Line<'a>,
) -> Result<(), AllocError>
    requires place { spec.is_in_place (declared_of draft.old) (said_by said) ≡ true }
    requires room { spec.has_room (declared_of draft.old) (said_by said) ≡ true }
    ensures { OnOk result (declared_of draft.new ≡ after (declared_of draft.old) line (said_by said.entry)) }
{
    match said {
        Line::Header => Ok(()),
        Line::Keep => {
            draft.keeps = true;
            Ok(())
        }
        Line::Job(name) => {
            draft.jobs.push(JobDraft { name, number: line })?;
            draft.begun = false;
            Ok(())
        }
        Line::Single(name) => add_role(draft, alloc, line, name, None),
        Line::Many { name, least } => add_role(draft, alloc, line, name, Some(least)),
        Line::Begin { turns, roles } => {
            draft.open_loop = Some(LoopDraft {
                number: line,
                turns,
                roles,
                lines: Vec::new(alloc),
            });
            Ok(())
        }
        Line::End => end_loop(draft),
        Line::Calls(call) => add_call(draft, LocatedCall { number: line, call }),
    }
}

/// Judges a line, and declares what it says.
fn take<'a>(
    draft: &mut Draft<'a>,
    alloc: Global,
    line: u64,
    words: &[&'a [u8]],
) -> Result<(), Fault>
    ensures ok { OnOk result
        (Judges (declared_of draft.old) (line, texts_of words.now) (Ok (declared_of draft.new))) }
    ensures err { IfErr result
        (λ e. (e ≡ Fault.Memory) ⊎ Judges (declared_of draft.old) (line, texts_of words.now) (Err e)) }
{
    let Some(said) = read_pattern_line(alloc, words)? else {
        return Err(Fault::BadLine(line));
    };
    if let Err(fault) = judge(draft, line, &said) {
        return Err(fault);
    }
    add(draft, alloc, line, said)?;
    Ok(())
}

/// Declares what the lines left say, where the last line before them has this number.
fn declare_lines<'a>(
    draft: &mut Draft<'a>,
    alloc: Global,
    header: u64,
    cursor: &mut Cursor<'a>,
) -> Result<(), Fault>
    requires room { cursor.old.line + length cursor.old.rest.now < 2 ^ 64 }
    requires header { header < cursor.old.line }
    ensures ok { OnOk result
        (JudgesAll (declared_of draft.old) header (statements_left cursor.old) (Ok (declared_of draft.new))) }
    ensures err { IfErr result
        (λ e. (e ≡ Fault.Memory) ⊎ JudgesAll (declared_of draft.old) header (statements_left cursor.old) (Err e)) }
{
    let mut words = Vec::new(alloc);
    let mut last = header;
    'statements: while let Some(line) = cursor.next_words(&mut words)? {
        if let Err(fault) = take(draft, alloc, line, &words) {
            return Err(fault);
        }
        last = line;
    }
    if draft.open_loop.is_some() {
        Err(Fault::BadLine(last + 1))
    } else {
        Ok(())
    }
}

/// The lines after the header, which has this number.
fn declare_all<'a>(alloc: Global, header: u64, cursor: &mut Cursor<'a>) -> Result<Draft<'a>, Fault>
    requires room { cursor.old.line + length cursor.old.rest.now < 2 ^ 64 }
    requires header { header < cursor.old.line }
    ensures ok { IfOk result (λ d. JudgesAll nothing header (statements_left cursor.old) (Ok (declared_of d))) }
    ensures err { IfErr result (λ e. (e ≡ Fault.Memory) ⊎ JudgesAll nothing header (statements_left cursor.old) (Err e)) }
{
    let mut draft = new_draft(alloc);
    match declare_lines(&mut draft, alloc, header, cursor) {
        Ok(()) => Ok(draft),
        Err(fault) => {
            drop(draft);
            Err(fault)
        }
    }
}

/// What a file declares.
pub fn first_pass<'a>(alloc: Global, bytes: &'a [u8]) -> Result<Draft<'a>, Fault>
    requires { length bytes.now ≤ limit.file_bytes OfVersion }
    ensures ok { IfOk result
        (λ d. FirstPass (statements bytes.now) (length (lines_of bytes.now)) (Ok (declared_of d))) }
    ensures err { IfErr result
        (λ e. (e ≡ Fault.Memory) ⊎ FirstPass (statements bytes.now) (length (lines_of bytes.now)) (Err e)) }
{
    let mut cursor = Cursor::new(bytes);
    let Some(first) = cursor.next_line(alloc)? else {
        return Err(Fault::BadHeader(cursor.line));
    };
    if !is_header(&first.words) {
        return Err(Fault::BadHeader(first.number));
    }
    declare_all(alloc, first.number, &mut cursor)
}
