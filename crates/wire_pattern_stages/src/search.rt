//! A search for stages. Nothing rests on how it searches: what it finds is judged by [`crate::find_waiting`].

ghost use Rattle.std.specs.Prelude.{◌<◌};
ghost use Rattle.wire_runs.specs.Plan.{event_count};
ghost use Rattle.wire_scripts.specs.Planned.{plan_of};

use crate::instance::{View, is_leave, label_of, role_of};
use crate::key::{Key, is_less, key_at};
use crate::labels::Label;
use crate::stage::{By, LineStages, Stage, Stages, at_role};
use std::alloc::{AllocError, Global};
use wire_pattern::{Pattern, Step};
use wire_plan::Plan;
use wire_types::{Event, Proc};

/// How many nodes, two of each line of a pattern, are searched for stages by turns.
const MOST_NODES: usize = 256;

/// Where an event stands: the number of its line among all, twice, and one more for the end of a fence; its caller,
/// and whose turn it is.
#[derive(Clone, Copy)]
struct Spot {
    node: usize,
    caller: u32,
    each: u32,
}

/// An event that another waits for: a lesser key is needed, or of its own process no greater one.
#[derive(Clone, Copy)]
struct Need {
    from: Spot,
    to: Spot,
    strict: bool,
}

/// The nodes of a pattern: in place of stages the number of each line, and of each node the number of its step.
#[derive(Drop)]
struct Nodes {
    numbers: Stages,
    steps: Vec<usize>,
}

/// A number in a list, 0 past its end.
fn at(list: &[usize], index: usize) -> usize {
    match list.get(index) {
        Some(number) => *number,
        None => 0,
    }
}

/// Raises a number in a list to another. Whether it was less.
fn raise(list: &mut Vec<usize>, index: usize, to: usize) -> bool {
    if index >= list.len() {
        return false;
    }
    if list[index] >= to {
        return false;
    }
    list[index] = to;
    true
}

/// One more, unless that is too much.
fn more(number: usize, by: bool) -> usize {
    if !by {
        return number;
    }
    match number.checked_add(1) {
        Some(next) => next,
        None => number,
    }
}

fn zeros(alloc: Global, count: usize) -> Result<Vec<usize>, AllocError> {
    let mut list = Vec::new(alloc);
    list.resize(count, 0)?;
    Ok(list)
}

/// A stage with a number and nothing else.
fn numbered(number: usize) -> Stage {
    let stage = match u32::try_from(number) {
        Ok(stage) => stage,
        Err(_) => 0,
    };
    Stage {
        stage,
        first: By::Nothing,
        second: By::Nothing,
        position: 0,
    }
}

/// The numbers of the lines of a step, of which there are so many.
fn number_step(
    alloc: Global,
    steps: &mut Vec<usize>,
    number: usize,
    count: usize,
) -> Result<Vec<LineStages>, AllocError> {
    let mut lines = Vec::new(alloc);
    for _line in 0..count {
        let node = steps.len();
        lines.push(LineStages {
            enter: numbered(node),
            leave: numbered(more(node, true)),
        })?;
        steps.push(number)?;
        steps.push(number)?;
    }
    Ok(lines)
}

fn line_count(step: &Step) -> usize {
    match step {
        Step::Once(_) => 1,
        Step::Loop { lines, .. } => lines.len(),
    }
}

fn is_loop(step: &Step) -> bool {
    match step {
        Step::Once(_) => false,
        Step::Loop { .. } => true,
    }
}

/// Numbers the lines and the steps of a pattern. The lines outside loops of one role count as one step: there the caller
/// is the one whose turn it is.
fn nodes_of(alloc: Global, pattern: &Pattern) -> Result<Nodes, AllocError> {
    let mut rows = Vec::new(alloc);
    let mut steps = Vec::new(alloc);
    let mut number = 0;
    for role in pattern.roles() {
        let mut row = Vec::new(alloc);
        let outside = number;
        number = more(number, true);
        for step in role.steps.as_slice() {
            let own = if is_loop(step) { number } else { outside };
            let lines = number_step(alloc, &mut steps, own, line_count(step))?;
            row.push(lines)?;
            number = more(number, is_loop(step));
        }
        rows.push(row)?;
    }
    Ok(Nodes {
        numbers: Stages { rows },
        steps,
    })
}

/// Where an event stands.
fn spot_of(view: &View, event: Event) -> Spot {
    let nowhere = Spot {
        node: 0,
        caller: event.proc.number,
        each: event.proc.number,
    };
    let Some(role) = role_of(view.roles, event.proc) else {
        return nowhere;
    };
    let Some(label) = label_of(view.labels, event) else {
        return nowhere;
    };
    let line = at_role(view.stages.rows.as_slice(), role, label.step, label.line);
    let stage = if is_leave(view.plan, event) {
        line.leave
    } else {
        line.enter
    };
    Spot {
        node: stage.stage as usize,
        caller: event.proc.number,
        each: label.each,
    }
}

/// Adds what an event needs.
fn add_needs(needs: &mut Vec<Need>, view: &View, event: Event) -> Result<(), AllocError>
    requires { event.at < event_count (plan_of view.now.plan.now) event.proc.number }
{
    let to = spot_of(view, event);
    let sources = view.plan.sources(event);
    if let Some(x) = sources.previous {
        let from = spot_of(view, x);
        needs.push(Need {
            from,
            to,
            strict: false,
        })?;
    }
    if let Some(x) = sources.awaited {
        let from = spot_of(view, x);
        needs.push(Need {
            from,
            to,
            strict: true,
        })?;
    }
    for x in sources.arrivals {
        let from = spot_of(view, *x);
        needs.push(Need {
            from,
            to,
            strict: x.proc.number != event.proc.number,
        })?;
    }
    Ok(())
}

/// What the events of an instance need.
fn needs_of(alloc: Global, view: &View) -> Result<Vec<Need>, AllocError> {
    let mut needs = Vec::new(alloc);
    for number in 0..view.plan.process_count() {
        let proc = Proc::new(number);
        for at in 0..view.plan.event_count(proc) {
            add_needs(&mut needs, view, Event { proc, at })?;
        }
    }
    Ok(needs)
}

/// Whether a need is one between two nodes that count together; `parts`: of each node the number of its part.
fn is_inside(need: &Need, parts: &[usize], part: usize) -> bool {
    at(parts, need.from.node) == part && at(parts, need.to.node) == part
}

/// Raises ranks until each need is met. Whether that came to an end: it does unless needs go round.
fn raise_ranks(ranks: &mut Vec<usize>, needs: &[Need], count: usize) -> bool {
    for _pass in 0..more(count, true) {
        let mut moved = false;
        for need in needs {
            let want = more(at(ranks.as_slice(), need.from.node), need.strict);
            if raise(ranks, need.to.node, want) {
                moved = true;
            }
        }
        if !moved {
            return true;
        }
    }
    false
}

/// Of each node a list of flags: which nodes can be come to from it.
fn reach_of(alloc: Global, needs: &[Need], count: usize) -> Result<Vec<Vec<bool>>, AllocError> {
    let mut reach = Vec::new(alloc);
    for _node in 0..count {
        let mut row = Vec::new(alloc);
        row.resize(count, false)?;
        reach.push(row)?;
    }
    for need in needs {
        set_flag(&mut reach, need.from.node, need.to.node);
    }
    for middle in 0..count {
        for from in 0..count {
            if has_flag(reach.as_slice(), from, middle) {
                for to in 0..count {
                    if has_flag(reach.as_slice(), middle, to) {
                        set_flag(&mut reach, from, to);
                    }
                }
            }
        }
    }
    Ok(reach)
}

fn has_flag(rows: &[Vec<bool>], row: usize, index: usize) -> bool {
    match rows.get(row) {
        Some(flags) => match flags.get(index) {
            Some(flag) => *flag,
            None => false,
        },
        None => false,
    }
}

fn set_flag(rows: &mut Vec<Vec<bool>>, row: usize, index: usize) {
    if row >= rows.len() {
        return;
    }
    let flags = &mut rows[row];
    if index < flags.len() {
        flags[index] = true;
    }
}

/// Of each node the number of its part: the first node that it can be come to from, and that can be come to from it.
fn parts_of(alloc: Global, reach: &[Vec<bool>], count: usize) -> Result<Vec<usize>, AllocError> {
    let mut parts = Vec::new(alloc);
    for node in 0..count {
        let mut part = node;
        for other in 0..node {
            if part == node && has_flag(reach, node, other) && has_flag(reach, other, node) {
                part = other;
            }
        }
        parts.push(part)?;
    }
    Ok(parts)
}

/// The needs between parts, as needs of parts.
fn between(alloc: Global, needs: &[Need], parts: &[usize]) -> Result<Vec<Need>, AllocError> {
    let mut all = Vec::new(alloc);
    for need in needs {
        let from = at(parts, need.from.node);
        let to = at(parts, need.to.node);
        if from != to {
            all.push(Need {
                from: Spot {
                    node: from,
                    caller: 0,
                    each: 0,
                },
                to: Spot {
                    node: to,
                    caller: 0,
                    each: 0,
                },
                strict: true,
            })?;
        }
    }
    Ok(all)
}

/// By which processes the turns of a step come in order: the ways that are tried, by number.
fn way(number: usize) -> (By, By) {
    match number {
        1 => (By::Caller, By::Other),
        2 => (By::Other, By::Caller),
        3 => (By::Higher, By::Lower),
        4 => (By::Lower, By::Higher),
        5 => (By::Other, By::Nothing),
        6 => (By::Caller, By::Nothing),
        7 => (By::Higher, By::Nothing),
        _ => (By::Nothing, By::Nothing),
    }
}

/// The way of a step in a choice of ways, where the steps are listed in this order: a digit of a number, to the base 8.
fn way_of(steps: &[usize], step: usize, choice: usize) -> usize {
    let mut rest = choice;
    for other in steps {
        if *other == step {
            return rest % 8;
        }
        rest = rest / 8;
    }
    0
}

/// The turns of a spot, as a key without stage and position.
fn turns_at(nodes: &Nodes, steps: &[usize], choice: usize, spot: Spot) -> Key {
    let (first, second) = way(way_of(steps, at(nodes.steps.as_slice(), spot.node), choice));
    let stage = Stage {
        stage: 0,
        first,
        second,
        position: 0,
    };
    key_at(stage, spot.caller, spot.each)
}

/// The needs that the turns of a choice leave to positions; none where a need's turns fall.
fn left_over(
    alloc: Global,
    nodes: &Nodes,
    needs: &[Need],
    steps: &[usize],
    choice: usize,
) -> Result<Option<Vec<Need>>, AllocError> {
    let mut left = Vec::new(alloc);
    for need in needs {
        let from = turns_at(nodes, steps, choice, need.from);
        let to = turns_at(nodes, steps, choice, need.to);
        if is_less(to, from) {
            return Ok(None);
        }
        if !is_less(from, to) {
            left.push(*need)?;
        }
    }
    Ok(Some(left))
}

/// The numbers of the steps of these needs, each once.
fn steps_of(alloc: Global, nodes: &Nodes, needs: &[Need]) -> Result<Vec<usize>, AllocError> {
    let mut steps = Vec::new(alloc);
    for need in needs {
        add_once(&mut steps, at(nodes.steps.as_slice(), need.from.node))?;
        add_once(&mut steps, at(nodes.steps.as_slice(), need.to.node))?;
    }
    Ok(steps)
}

fn add_once(steps: &mut Vec<usize>, step: usize) -> Result<(), AllocError> {
    for other in steps.as_slice() {
        if *other == step {
            return Ok(());
        }
    }
    steps.push(step)?;
    Ok(())
}

/// How many choices of ways so many steps have.
fn choices(count: usize) -> usize {
    match count {
        0 => 1,
        1 => 8,
        2 => 64,
        3 => 512,
        4 => 4096,
        5 => 32768,
        _ => 0,
    }
}

/// What is found of each node.
#[derive(Drop)]
struct Found {
    stages: Vec<usize>,
    positions: Vec<usize>,
    ways: Vec<usize>,
}

/// Notes the positions and the ways of the nodes of a part.
fn note_part(
    found: &mut Found,
    nodes: &Nodes,
    parts: &[usize],
    part: usize,
    order: (&[usize], usize),
    positions: &[usize],
) {
    let (steps, choice) = order;
    for node in 0..parts.len() {
        if at(parts, node) == part {
            raise(&mut found.positions, node, at(positions, node));
            raise(
                &mut found.ways,
                node,
                way_of(steps, at(nodes.steps.as_slice(), node), choice),
            );
        }
    }
}

/// Finds an order of turns in one part, and notes it. Whether there is one.
fn order_part(
    alloc: Global,
    nodes: &Nodes,
    inside: &[Need],
    parts: &[usize],
    part: usize,
    found: &mut Found,
) -> Result<bool, AllocError> {
    let steps = steps_of(alloc, nodes, inside)?;
    for choice in 0..choices(steps.len()) {
        if let Some(left) = left_over(alloc, nodes, inside, steps.as_slice(), choice)? {
            let mut positions = zeros(alloc, parts.len())?;
            if raise_ranks(&mut positions, left.as_slice(), parts.len()) {
                note_part(
                    found,
                    nodes,
                    parts,
                    part,
                    (steps.as_slice(), choice),
                    positions.as_slice(),
                );
                return Ok(true);
            }
        }
    }
    Ok(false)
}

/// The needs inside a part.
fn needs_inside(
    alloc: Global,
    needs: &[Need],
    parts: &[usize],
    part: usize,
) -> Result<Vec<Need>, AllocError> {
    let mut inside = Vec::new(alloc);
    for need in needs {
        if is_inside(need, parts, part) {
            inside.push(*need)?;
        }
    }
    Ok(inside)
}

/// Finds an order of turns in each part. Whether each has one.
fn order_parts(
    alloc: Global,
    nodes: &Nodes,
    needs: &[Need],
    parts: &[usize],
    found: &mut Found,
) -> Result<bool, AllocError> {
    for part in 0..parts.len() {
        if at(parts, part) == part {
            let inside = needs_inside(alloc, needs, parts, part)?;
            if !order_part(alloc, nodes, inside.as_slice(), parts, part, found)? {
                return Ok(false);
            }
        }
    }
    Ok(true)
}

/// Raises the stages of parts, and gives each node that of its part.
fn stages_by_parts(
    alloc: Global,
    needs: &[Need],
    parts: &[usize],
) -> Result<Vec<usize>, AllocError> {
    let outer = between(alloc, needs, parts)?;
    let mut of_parts = zeros(alloc, parts.len())?;
    raise_ranks(&mut of_parts, outer.as_slice(), parts.len());
    let mut stages = Vec::new(alloc);
    for part in parts {
        stages.push(at(of_parts.as_slice(), *part))?;
    }
    Ok(stages)
}

/// Stages for needs: by the order of lines alone, or with turns.
fn find(alloc: Global, nodes: &Nodes, needs: &[Need]) -> Result<Option<Found>, AllocError> {
    let count = nodes.steps.len();
    let mut ranks = zeros(alloc, count)?;
    if raise_ranks(&mut ranks, needs, count) {
        let positions = zeros(alloc, count)?;
        let ways = zeros(alloc, count)?;
        return Ok(Some(Found {
            stages: ranks,
            positions,
            ways,
        }));
    }
    if count > MOST_NODES {
        return Ok(None);
    }
    let reach = reach_of(alloc, needs, count)?;
    let parts = parts_of(alloc, reach.as_slice(), count)?;
    let stages = stages_by_parts(alloc, needs, parts.as_slice())?;
    let positions = zeros(alloc, count)?;
    let ways = zeros(alloc, count)?;
    let mut found = Found {
        stages,
        positions,
        ways,
    };
    if order_parts(alloc, nodes, needs, parts.as_slice(), &mut found)? {
        return Ok(Some(found));
    }
    Ok(None)
}

/// The stage of a node.
fn stage_of(found: &Found, node: u32) -> Stage {
    let index = node as usize;
    let (first, second) = way(at(found.ways.as_slice(), index));
    Stage {
        stage: numbered(at(found.stages.as_slice(), index)).stage,
        first,
        second,
        position: numbered(at(found.positions.as_slice(), index)).stage,
    }
}

/// Those of the lines of a step.
fn step_stages(
    alloc: Global,
    found: &Found,
    lines: &[LineStages],
) -> Result<Vec<LineStages>, AllocError> {
    let mut out = Vec::new(alloc);
    for line in lines {
        out.push(LineStages {
            enter: stage_of(found, line.enter.stage),
            leave: stage_of(found, line.leave.stage),
        })?;
    }
    Ok(out)
}

/// Those of the steps of a script.
fn script_stages(
    alloc: Global,
    found: &Found,
    steps: &[Vec<LineStages>],
) -> Result<Vec<Vec<LineStages>>, AllocError> {
    let mut out = Vec::new(alloc);
    for step in steps {
        let lines = step_stages(alloc, found, step.as_slice())?;
        out.push(lines)?;
    }
    Ok(out)
}

/// Those of all roles.
fn all_stages(alloc: Global, found: &Found, nodes: &Nodes) -> Result<Stages, AllocError> {
    let mut rows = Vec::new(alloc);
    for script in nodes.numbers.rows.as_slice() {
        let steps = script_stages(alloc, found, script.as_slice())?;
        rows.push(steps)?;
    }
    Ok(Stages { rows })
}

/// Stages that an instance may keep, or none where none are found.
pub(crate) fn search_stages(
    alloc: Global,
    pattern: &Pattern,
    plan: &Plan,
    roles: &[u32],
    labels: &[Vec<Label>],
) -> Result<Option<Stages>, AllocError> {
    let nodes = nodes_of(alloc, pattern)?;
    let view = View {
        plan,
        roles,
        labels,
        stages: &nodes.numbers,
    };
    let needs = needs_of(alloc, &view)?;
    match find(alloc, &nodes, needs.as_slice())? {
        Some(found) => {
            let stages = all_stages(alloc, &found, &nodes)?;
            Ok(Some(stages))
        }
        None => Ok(None),
    }
}
