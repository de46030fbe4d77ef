//! The text of an instance.

ghost use Rattle.std.specs.Prelude.{◌≡◌, ◌≤◌, ◌<◌, ◌-◌, ◌++◌, ◌∷◌, ◌↔◌, [], ℕ, IfOk, IsTrue, OnOk, map, flat_map, Some};
ghost use Rattle.std.specs.Prelude.{length, nat_lt, slice_get, slice_index_or, take, true};
ghost use Rattle.std.specs.List.{list_all};
ghost use Rattle.wire_types.specs.Said as said;
ghost use Rattle.wire_types.specs.declared.Version.TheVariants.{Two};
ghost use Rattle.wire_scripts.specs.Canonical.{line_text, keep_said};
ghost use Rattle.wire_runs.specs.Patterns as plan;
ghost use Rattle.wire_pattern.specs.Instances as spec;
ghost use Rattle.wire_pattern.specs.Instances.{IsCast, process_count, cast_of, call_said, instance_text};
ghost use Rattle.wire_pattern.specs.Views.{view_call, line_by, step_by, role_by, turns_by};
ghost use Rattle.wire_instances.specs.Views.{cast_by};
ghost use Rattle.wire_instances.specs.Tables.{first_of};
ghost use Rattle.wire_instances.specs.Written.{AgreeOn, calls_text, role_said};

use crate::calls::write_call;
use crate::cast::Cast;
use crate::excerpt::Excerpt;
use crate::frame::{Calling, Frame, LoopTurns};
use crate::words::write_node;
use std::alloc::{AllocError, Global};
use wire_pattern::{Line, Pattern, Role, Step};

/// Appends the call lines of one turn of a loop.
fn write_lines(
    out: &mut Vec<u8>,
    excerpt: &Excerpt,
    calling: Calling,
    lines: &[Line],
) -> Result<(), AllocError>
    requires caller { calling.caller < process_count excerpt.now.frame.cast }
    requires each { calling.each < process_count excerpt.now.frame.cast }
    ensures { OnOk result (AgreeOn excerpt.now.wanted out.new.items (out.old.items ++ calls_text (map (λ l. call_said
        excerpt.now.frame.pattern excerpt.now.frame.cast calling.caller calling.each l.call) (map line_by lines.now)))) }
{
    if excerpt.is_past(out) {
        return Ok(());
    }
    for line in lines {
        write_call(out, excerpt, calling, &line.call)?;
    }
    Ok(())
}

/// Appends the call lines of a loop, in these turns.
fn write_turns(
    out: &mut Vec<u8>,
    excerpt: &Excerpt,
    caller: u32,
    turns: &[u32],
    lines: &[Line],
) -> Result<(), AllocError>
    requires caller { caller < process_count excerpt.now.frame.cast }
    requires there { list_all (λ e. nat_lt e (process_count excerpt.now.frame.cast)) turns.now ≡ true }
    ensures { OnOk result (AgreeOn excerpt.now.wanted out.new.items (out.old.items ++ calls_text (spec.turns_said
        excerpt.now.frame.pattern excerpt.now.frame.cast caller (map line_by lines.now) turns.now))) }
{
    for each in turns {
        let calling = Calling {
            caller,
            each: *each,
        };
        write_lines(out, excerpt, calling, lines)?;
    }
    Ok(())
}

/// Appends the call lines of a loop over a role. One without lines has none, however many turns it takes.
fn write_loop(
    out: &mut Vec<u8>,
    excerpt: &Excerpt,
    round: LoopTurns,
    group: u32,
    lines: &[Line],
) -> Result<(), AllocError>
    requires { round.caller < process_count excerpt.now.frame.cast }
    ensures { OnOk result (AgreeOn excerpt.now.wanted out.new.items (out.old.items ++ calls_text (spec.turns_said
        excerpt.now.frame.pattern excerpt.now.frame.cast round.caller (map line_by lines.now)
        (plan.turns (cast_of excerpt.now.frame.cast) round.caller round.step group (turns_by round.turns))))) }
{
    if lines.is_empty() {
        return Ok(());
    }
    let taken = excerpt.frame.turns(round, group)?;
    write_turns(out, excerpt, round.caller, taken.as_slice(), lines)
}

/// Appends the call lines of the step of this number in the caller's script.
fn write_step(
    out: &mut Vec<u8>,
    excerpt: &Excerpt,
    caller: u32,
    number: usize,
    step: &Step,
) -> Result<(), AllocError>
    requires { caller < process_count excerpt.now.frame.cast }
    ensures { OnOk result (AgreeOn excerpt.now.wanted out.new.items (out.old.items ++ calls_text (spec.step_said
        excerpt.now.frame.pattern excerpt.now.frame.cast caller number (step_by step.now)))) }
{
    if excerpt.is_past(out) {
        return Ok(());
    }
    match step {
        Step::Once(line) => {
            let calling = Calling {
                caller,
                each: caller,
            };
            write_call(out, excerpt, calling, &line.call)
        }
        Step::Loop {
            number: _,
            group,
            turns,
            lines,
        } => {
            let round = LoopTurns {
                caller,
                step: number,
                turns: *turns,
            };
            write_loop(out, excerpt, round, *group, lines.as_slice())
        }
    }
}

/// Appends the call lines of a script.
fn write_steps(
    out: &mut Vec<u8>,
    excerpt: &Excerpt,
    caller: u32,
    steps: &[Step],
) -> Result<(), AllocError>
    requires { caller < process_count excerpt.now.frame.cast }
    ensures { OnOk result (AgreeOn excerpt.now.wanted out.new.items (out.old.items ++ calls_text (spec.steps_said
        excerpt.now.frame.pattern excerpt.now.frame.cast caller 0 (map step_by steps.now)))) }
{
    for (number, step) in steps.iter().enumerate() {
        write_step(out, excerpt, caller, number, step)?;
    }
    Ok(())
}

/// The number of a process's node; 0 where there is no such process.
fn node_at(frame: &Frame, process: u32) -> u32
    ensures { result ≡ (cast_of frame.now.cast).nodes process }
{
    match frame.cast().nodes.of.get(process as usize) {
        Some(node) => *node,
        None => 0,
    }
}

/// Appends the line of a process on its node.
fn write_rank(out: &mut Vec<u8>, frame: &Frame, process: u32) -> Result<(), AllocError>
    ensures { OnOk result (out.new.items ≡ out.old.items
        ++ line_text (said.Rank (spec.node_name ((cast_of frame.now.cast).nodes process)))) }
{
    out.extend_from_slice(b"rank ".as_slice())?;
    write_node(out, node_at(frame, process))?;
    out.push(b'\n')?;
    Ok(())
}

/// Appends the lines of a process of a role, the number of which is given.
fn write_process(
    out: &mut Vec<u8>,
    excerpt: &Excerpt,
    process: u32,
    number: u32,
    role: &Role,
) -> Result<(), AllocError>
    requires process { process < process_count excerpt.now.frame.cast }
    requires role { slice_get excerpt.now.frame.pattern.roles number ≡ Some (role_by role.now) }
    ensures { OnOk result (AgreeOn excerpt.now.wanted out.new.items (out.old.items ++ flat_map line_text (spec.process_said
        excerpt.now.frame.pattern excerpt.now.frame.cast process number))) }
{
    if excerpt.is_past(out) {
        return Ok(());
    }
    write_rank(out, &excerpt.frame, process)?;
    write_steps(out, excerpt, process, role.steps.as_slice())
}

/// Appends the lines of the processes of a role, the number of which is given.
fn write_role(
    out: &mut Vec<u8>,
    excerpt: &Excerpt,
    number: u32,
    role: &Role,
) -> Result<(), AllocError>
    requires sized { number < length excerpt.now.frame.cast.sizes }
    requires role { slice_get excerpt.now.frame.pattern.roles number ≡ Some (role_by role.now) }
    ensures { OnOk result (AgreeOn excerpt.now.wanted out.new.items (out.old.items ++ flat_map line_text (role_said
        excerpt.now.frame.pattern excerpt.now.frame.cast number (first_of excerpt.now.frame.cast.sizes number)
        (slice_index_or excerpt.now.frame.cast.sizes number 0)))) }
{
    let (first, end) = excerpt.frame.group(number);
    for process in first..end {
        write_process(out, excerpt, process, number, role)?;
    }
    Ok(())
}

/// Appends the line of a job of this name.
fn write_job_line(out: &mut Vec<u8>, name: &[u8]) -> Result<(), AllocError>
    ensures { OnOk result (out.new.items ≡ out.old.items ++ line_text (said.Job name.now)) }
{
    out.extend_from_slice(b"job ".as_slice())?;
    out.extend_from_slice(name)?;
    out.push(b'\n')?;
    Ok(())
}

/// Appends the lines of the processes of a job, the number of which is given.
fn write_members(out: &mut Vec<u8>, excerpt: &Excerpt, job: usize) -> Result<(), AllocError>
    ensures { OnOk result (AgreeOn excerpt.now.wanted out.new.items (out.old.items ++ flat_map line_text (spec.members_said
        excerpt.now.frame.pattern excerpt.now.frame.cast job 0 (cast_of excerpt.now.frame.cast).roles))) }
{
    let roles = excerpt.frame.pattern().roles();
    for number in 0..excerpt.frame.cast().sizes.len() as u32 {
        let role = &roles[number as usize];
        if role.job as usize == job {
            write_role(out, excerpt, number, role)?;
        }
    }
    Ok(())
}

/// Appends the lines of all jobs.
fn write_jobs(out: &mut Vec<u8>, excerpt: &Excerpt) -> Result<(), AllocError>
    ensures { OnOk result (AgreeOn excerpt.now.wanted out.new.items (out.old.items ++ flat_map line_text (spec.jobs_said
        excerpt.now.frame.pattern excerpt.now.frame.cast 0 (map (λ j. j.name) excerpt.now.frame.pattern.jobs)))) }
{
    let jobs = excerpt.frame.pattern().jobs();
    for number in 0..jobs.len() {
        write_job_line(out, jobs[number].name.as_slice())?;
        write_members(out, excerpt, number)?;
    }
    Ok(())
}

/// Appends the line of a node.
fn write_node_line(out: &mut Vec<u8>, node: u32) -> Result<(), AllocError>
    ensures { OnOk result (out.new.items ≡ out.old.items ++ line_text (said.Node (spec.node_name node))) }
{
    out.extend_from_slice(b"node ".as_slice())?;
    write_node(out, node)?;
    out.push(b'\n')?;
    Ok(())
}

/// Appends the lines of so many nodes.
fn write_nodes(out: &mut Vec<u8>, count: u32) -> Result<(), AllocError>
    ensures { OnOk result (out.new.items ≡ out.old.items ++ flat_map line_text (spec.nodes_said 0 count)) }
{
    for node in 0..count {
        write_node_line(out, node)?;
    }
    Ok(())
}

/// Appends the header, and the line of a pattern that keeps what gets bring.
fn write_header(out: &mut Vec<u8>, keeps: bool) -> Result<(), AllocError>
    ensures { OnOk result (out.new.items ≡ out.old.items ++ flat_map line_text (said.Header Two ∷ keep_said keeps)) }
{
    if keeps {
        out.extend_from_slice(b"rehearsal 2\nkeep\n".as_slice())
    } else {
        out.extend_from_slice(b"rehearsal 2\n".as_slice())
    }
}

/// The front of the text of the instance with this cast: so many bytes, or all of it where these aren't more. What is
/// behind them isn't made, beyond the line in which they end.
pub fn write_front(
    alloc: Global,
    pattern: &Pattern,
    cast: &Cast,
    wanted: usize,
) -> Result<Vec<u8>, AllocError>
    requires { IsCast pattern.now (cast_by cast.now) }
    ensures { IfOk result (λ t. t.items ≡ take wanted (instance_text pattern.now (cast_by cast.now))) }
{
    let excerpt = Excerpt {
        frame: Frame::new(alloc, pattern, cast)?,
        wanted,
    };
    let mut out = Vec::new(alloc);
    write_header(&mut out, pattern.keeps())?;
    write_nodes(&mut out, cast.nodes.count)?;
    write_jobs(&mut out, &excerpt)?;
    out.truncate(wanted);
    Ok(out)
}

/// The text of the instance with this cast: the header of version 2, `keep` where the pattern keeps what gets bring,
/// the nodes `n0`, `n1` and so on, and the jobs with their processes.
pub fn write_instance(alloc: Global, pattern: &Pattern, cast: &Cast) -> Result<Vec<u8>, AllocError>
    requires { IsCast pattern.now (cast_by cast.now) }
    ensures { IfOk result (λ t. t.items ≡ instance_text pattern.now (cast_by cast.now)) }
{
    write_front(alloc, pattern, cast, usize::MAX)
}
