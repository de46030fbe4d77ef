//! The lines of the pattern's file from which the lines of an instance's text come.

ghost use Rattle.std.specs.Prelude.{◌≡◌, ◌<◌, ◌∷◌, ℕ, IfOk, OnOk, map, flat_map, Some};
ghost use Rattle.std.specs.Prelude.{length, slice_get, slice_index_or};
ghost use Rattle.wire_runs.specs.Patterns as plan;
ghost use Rattle.wire_pattern.specs.Instances as spec;
ghost use Rattle.wire_pattern.specs.Instances.{IsCast, process_count, cast_of};
ghost use Rattle.wire_pattern.specs.Views.{line_by, step_by, role_by, turns_by};
ghost use Rattle.wire_instances.specs.Views.{cast_by};
ghost use Rattle.wire_instances.specs.Faults as faults;
ghost use Rattle.wire_instances.specs.Faults.{at_line, fault_by, line_in};
ghost use Rattle.wire_instances.specs.Search.{past};
ghost use Rattle.wire_instances.specs.Tables.{first_of};
ghost use Rattle.wire_instances.specs.Written.{role_lines};

use crate::cast::Cast;
use crate::frame::{Frame, LoopTurns};
use crate::search::LineSearch;
use std::alloc::{AllocError, Global};
use wire_pattern::{Line, Pattern, Role, Step};
use wire_types::Fault;

/// What a fault of the instance's text is as a fault of the pattern: a line is replaced by that of the pattern's file
/// that it comes from. A fault without a line stays.
pub fn pattern_fault(
    alloc: Global,
    pattern: &Pattern,
    cast: &Cast,
    fault: Fault,
) -> Result<Fault, AllocError>
    requires { IsCast pattern.now (cast_by cast.now) }
    ensures { IfOk result (λ f. f ≡ fault_by (spec.instance_lines pattern.now (cast_by cast.now)) fault) }
{
    let number = find_line(alloc, pattern, cast, line_of(fault))?;
    Ok(fault_at(number, fault))
}

/// The line of a fault, 0 where it has none.
fn line_of(fault: Fault) -> u64
    ensures { result ≡ faults.line_of fault }
{
    match fault {
        Fault::TooLong(line)
        | Fault::BadHeader(line)
        | Fault::BadLine(line)
        | Fault::UnknownName(line)
        | Fault::Twice(line)
        | Fault::NotMember(line)
        | Fault::TooMany(line) => line,
        _ => 0,
    }
}

/// A fault with another line. One without a line stays.
fn fault_at(line: u64, fault: Fault) -> Fault
    ensures { result ≡ at_line line fault }
{
    match fault {
        Fault::TooLong(_) => Fault::TooLong(line),
        Fault::BadHeader(_) => Fault::BadHeader(line),
        Fault::BadLine(_) => Fault::BadLine(line),
        Fault::UnknownName(_) => Fault::UnknownName(line),
        Fault::Twice(_) => Fault::Twice(line),
        Fault::NotMember(_) => Fault::NotMember(line),
        Fault::TooMany(_) => Fault::TooMany(line),
        other => other,
    }
}

/// The number of the line of the pattern's file that a line of the instance's text, counted from 1, comes from: of a
/// process the line of its role, of a node that of its first process. It is 0 of the header, and where there is no such
/// line. No more lines are gone through than stand before it.
fn find_line(alloc: Global, pattern: &Pattern, cast: &Cast, line: u64) -> Result<u64, AllocError>
    requires { IsCast pattern.now (cast_by cast.now) }
    ensures { IfOk result (λ n. n ≡ line_in (spec.instance_lines pattern.now (cast_by cast.now)) line) }
{
    let frame = Frame::new(alloc, pattern, cast)?;
    let mut search = LineSearch::of(line);
    search.pass(0);
    if pattern.keeps() {
        search.pass(0);
    }
    pass_nodes(&mut search, alloc, &frame)?;
    pass_jobs(&mut search, &frame)?;
    Ok(search.line())
}

/// Passes the lines of one turn of a loop.
#[tactic(auto, using(crate::proofs::Searches::over))]
fn pass_lines(search: &mut LineSearch, lines: &[Line])
    ensures { search.new ≡ past search.old (map (λ l. l.number) (map line_by lines.now)) }
{
    if search.is_over() {
        return;
    }
    for line in lines {
        search.pass(line.number);
    }
}

/// Passes the lines of a loop, once for each turn.
fn pass_turns(search: &mut LineSearch, turns: &[u32], lines: &[Line])
    ensures { search.new ≡ past search.old (flat_map (λ (e : ℕ). map (λ l. l.number) (map line_by lines.now)) turns.now) }
{
    for _each in turns {
        pass_lines(search, lines);
    }
}

/// Passes the lines of a loop over a role. One without lines has none, however many turns it takes.
fn pass_loop(
    search: &mut LineSearch,
    frame: &Frame,
    round: LoopTurns,
    group: u32,
    lines: &[Line],
) -> Result<(), AllocError>
    ensures { OnOk result (search.new ≡ past search.old (flat_map (λ (e : ℕ). map (λ l. l.number) (map line_by lines.now))
        (plan.turns (cast_of frame.now.cast) round.caller round.step group (turns_by round.turns)))) }
{
    if lines.is_empty() {
        return Ok(());
    }
    let taken = frame.turns(round, group)?;
    pass_turns(search, taken.as_slice(), lines);
    Ok(())
}

/// Passes the lines of a step.
#[tactic(auto, using(crate::proofs::Searches::over))]
fn pass_step(
    search: &mut LineSearch,
    frame: &Frame,
    caller: u32,
    number: usize,
    step: &Step,
) -> Result<(), AllocError>
    ensures { OnOk result (search.new ≡ past search.old (spec.step_lines frame.now.cast caller number (step_by step.now))) }
{
    if search.is_over() {
        return Ok(());
    }
    match step {
        Step::Once(line) => {
            search.pass(line.number);
            Ok(())
        }
        Step::Loop {
            number: _,
            group,
            turns,
            lines,
        } => {
            let round = LoopTurns {
                caller,
                step: number,
                turns: *turns,
            };
            pass_loop(search, frame, round, *group, lines.as_slice())
        }
    }
}

/// Passes the lines of a script.
fn pass_steps(
    search: &mut LineSearch,
    frame: &Frame,
    caller: u32,
    steps: &[Step],
) -> Result<(), AllocError>
    ensures { OnOk result (search.new ≡ past search.old (spec.steps_lines frame.now.cast caller 0 (map step_by steps.now))) }
{
    for (number, step) in steps.iter().enumerate() {
        pass_step(search, frame, caller, number, step)?;
    }
    Ok(())
}

/// Passes the lines of a process of this role.
#[tactic(auto, using(crate::proofs::Searches::over))]
fn pass_process(
    search: &mut LineSearch,
    frame: &Frame,
    process: u32,
    role: &Role,
) -> Result<(), AllocError>
    ensures { OnOk result (search.new ≡ past search.old
        (role.now.number ∷ spec.steps_lines frame.now.cast process 0 (map step_by role.now.steps.items))) }
{
    if search.is_over() {
        return Ok(());
    }
    search.pass(role.number);
    pass_steps(search, frame, process, role.steps.as_slice())
}

/// Passes the lines of the processes of a role, the number of which is given.
fn pass_role(
    search: &mut LineSearch,
    frame: &Frame,
    number: u32,
    role: &Role,
) -> Result<(), AllocError>
    requires sized { number < length frame.now.cast.sizes }
    requires role { slice_get frame.now.pattern.roles number ≡ Some (role_by role.now) }
    ensures { OnOk result (search.new ≡ past search.old (role_lines frame.now.pattern frame.now.cast number
        (first_of frame.now.cast.sizes number) (slice_index_or frame.now.cast.sizes number 0))) }
{
    let (first, end) = frame.group(number);
    for process in first..end {
        pass_process(search, frame, process, role)?;
    }
    Ok(())
}

/// Passes the lines of the processes of a job, the number of which is given.
fn pass_members(search: &mut LineSearch, frame: &Frame, job: usize) -> Result<(), AllocError>
    ensures { OnOk result (search.new ≡ past search.old (spec.members_lines frame.now.pattern frame.now.cast job 0
        (cast_of frame.now.cast).roles)) }
{
    let roles = frame.pattern().roles();
    for number in 0..frame.cast().sizes.len() as u32 {
        let role = &roles[number as usize];
        if role.job as usize == job {
            pass_role(search, frame, number, role)?;
        }
    }
    Ok(())
}

/// Passes the lines of all jobs.
fn pass_jobs(search: &mut LineSearch, frame: &Frame) -> Result<(), AllocError>
    ensures { OnOk result (search.new ≡ past search.old (spec.jobs_lines frame.now.pattern frame.now.cast 0
        frame.now.pattern.jobs)) }
{
    let jobs = frame.pattern().jobs();
    for number in 0..jobs.len() {
        search.pass(jobs[number].number);
        pass_members(search, frame, number)?;
    }
    Ok(())
}

/// The line of the role of a process, or of the first role where there is no such process.
fn role_line(frame: &Frame, process: u32) -> u64
    ensures { result ≡ spec.number_in (slice_get frame.now.pattern.roles (slice_index_or (cast_of frame.now.cast).roles process 0)) }
{
    match frame.pattern().roles().get(frame.role(process) as usize) {
        Some(role) => role.number,
        None => 0,
    }
}

/// For each node the line of the role of its first process; 0 where no process is on it.
fn node_lines(alloc: Global, frame: &Frame) -> Result<Vec<u64>, AllocError>
    ensures count { IfOk result (λ lines. length lines.items ≡ frame.now.cast.node_count) }
    ensures lines { IfOk result (λ lines. (n : ℕ) → n < frame.now.cast.node_count → slice_index_or lines.items n 0
        ≡ spec.node_line frame.now.pattern n (cast_of frame.now.cast).roles frame.now.cast.nodes) }
{
    let nodes = &frame.cast().nodes;
    let mut lines = vec![in alloc; 0u64; nodes.count as usize]?;
    let mut process = nodes.of.len();
    'processes: while process > 0 {
        process -= 1;
        lines[nodes.of[process] as usize] = role_line(frame, process as u32);
    }
    Ok(lines)
}

/// Passes lines that come from the lines of these numbers.
fn pass_numbers(search: &mut LineSearch, numbers: &[u64])
    ensures { search.new ≡ past search.old numbers.now }
{
    for number in numbers {
        search.pass(*number);
    }
}

/// Passes the lines of the nodes.
fn pass_nodes(search: &mut LineSearch, alloc: Global, frame: &Frame) -> Result<(), AllocError>
    ensures { OnOk result (search.new ≡ past search.old (spec.nodes_lines frame.now.pattern frame.now.cast
        0 frame.now.cast.node_count)) }
{
    let lines = node_lines(alloc, frame)?;
    pass_numbers(search, lines.as_slice());
    Ok(())
}
