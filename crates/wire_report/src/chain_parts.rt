//! The parts of the text of a chain.

ghost use Rattle.std.specs.Prelude.{◌≡◌, ◌<◌, ◌↔◌, ◌++◌, ℕ, List, true, Some, length, map, IsTrue, IfOk, OnOk, IfErr};
ghost use Rattle.std.specs.List.{flat_map};
ghost use Rattle.wire_types.specs.declared.CallAt.{CallAt as CallPlace};
ghost use Rattle.wire_types.specs.declared.Fault.TheVariants.{Memory};
ghost use Rattle.wire_runs.specs.Plan.{event_count, event_of};
ghost use Rattle.wire_scripts.specs.Planned.{plan_of};
ghost use Rattle.wire_runs.specs.Ends.{calls_of};
ghost use Rattle.wire_plan.specs.Kinds.{kind_of};
ghost use Rattle.wire_report.specs.Chain as spec;
ghost use Rattle.wire_report.specs.There.{AreThere};

use crate::line_pieces::push_spaced;
use std::alloc::{AllocError, Global};
use wire_happens_before::MarkedPlan;
use wire_json::{ChainStep, Half, chain_json, unordered_json};
use wire_plan::{Kind, Plan};
use wire_scripts::Scripts;
use wire_types::{CallAt, Event, Fault};
use wire_words::{push_call, verb_at};

/// The text of a chain of events of the plan that leads from the first of two calls to the second, or the other way
/// round: in lines, or as JSON.
pub fn ordered_text(
    alloc: Global,
    plan: &Plan,
    first: bool,
    chain: &[Event],
    json: bool,
) -> Result<Vec<u8>, Fault>
    requires { AreThere (plan_of plan.now) chain.now }
    ensures ok { IfOk result (λ text. text.items ≡ spec.chain_form json first plan.now (map event_of chain.now)) }
    ensures err { IfErr result (λ e. e ≡ Memory) }
{
    if json {
        return Ok(ordered_json(alloc, plan, first, chain)?);
    }
    let mut text = Vec::from_slice(alloc, order_line(first))?;
    push_events(&mut text, plan, chain)?;
    Ok(text)
}

/// The first line of the text of a chain.
pub fn order_line(first: bool) -> &'static [u8]
    ensures { result.now ≡ spec.order_line first }
{
    if first {
        return b"before\n".as_slice();
    }
    b"after\n".as_slice()
}

/// A chain as JSON.
fn ordered_json(
    alloc: Global,
    plan: &Plan,
    first: bool,
    chain: &[Event],
) -> Result<Vec<u8>, AllocError>
    requires { AreThere (plan_of plan.now) chain.now }
    ensures { IfOk result (λ text. text.items ≡ spec.chain_form true first plan.now (map event_of chain.now)) }
{
    let steps = chain_steps(alloc, plan, chain)?;
    chain_json(alloc, plan.scripts(), first, steps.as_slice())
}

/// The events of a chain as its steps.
pub fn chain_steps(
    alloc: Global,
    plan: &Plan,
    chain: &[Event],
) -> Result<Vec<ChainStep>, AllocError>
    requires { AreThere (plan_of plan.now) chain.now }
    ensures { IfOk result (λ steps. steps.items ≡ map (spec.step_of plan.now) (map event_of chain.now)) }
{
    let mut steps = Vec::new(alloc);
    for event in chain {
        steps.push(step_of(plan, *event))?;
    }
    Ok(steps)
}

/// An event of the plan as a step of a chain.
fn step_of(plan: &Plan, event: Event) -> ChainStep
    requires { event.at < event_count (plan_of plan.now) event.proc.number }
    ensures { result ≡ spec.step_of plan.now (event_of event) }
{
    ChainStep {
        call: plan.call_of(event),
        half: half_of(plan.kind(event)),
    }
}

/// Which part of a call an event is.
fn half_of(kind: Kind) -> Half
    ensures { (sets : List (List ℕ)) → result ≡ spec.half_of (Some (kind_of sets kind)) }
{
    match kind {
        Kind::Arrive { .. } => Half::Arrive,
        Kind::Leave { .. } => Half::Leave,
        _ => Half::Whole,
    }
}

/// The text of two calls that no chain orders, and which of them are dead: in lines, or as JSON.
pub fn unordered_text(
    alloc: Global,
    marked: &MarkedPlan<'_>,
    calls: (CallAt, CallAt),
    json: bool,
) -> Result<Vec<u8>, Fault>
    requires x_there { calls.0.call < length (calls_of (plan_of marked.now) calls.0.proc.number) }
    requires y_there { calls.1.call < length (calls_of (plan_of marked.now) calls.1.proc.number) }
    ensures ok { IfOk result (λ text. (dead : List CallPlace) × spec.AreDead (plan_of marked.now) calls.0 calls.1 dead
        × (text.items ≡ spec.unordered_form json marked.now dead)) }
    ensures err { IfErr result (λ e. e ≡ Memory) }
{
    let dead = find_dead_calls(alloc, marked, calls)?;
    dead_text(alloc, marked.plan().scripts(), dead.as_slice(), json)
}

/// Those of two calls whose event isn't live, once where they are one.
pub fn find_dead_calls(
    alloc: Global,
    marked: &MarkedPlan<'_>,
    calls: (CallAt, CallAt),
) -> Result<Vec<CallAt>, AllocError>
    requires x_there { calls.0.call < length (calls_of (plan_of marked.now) calls.0.proc.number) }
    requires y_there { calls.1.call < length (calls_of (plan_of marked.now) calls.1.proc.number) }
    ensures { IfOk result (λ dead. spec.AreDead (plan_of marked.now) calls.0 calls.1 dead.items) }
{
    let mut dead = Vec::new(alloc);
    push_both_dead(&mut dead, marked, calls.0, calls.1)?;
    Ok(dead)
}

/// The text of calls that no chain orders, of which these are dead.
fn dead_text(
    alloc: Global,
    scripts: &Scripts,
    dead: &[CallAt],
    json: bool,
) -> Result<Vec<u8>, Fault>
    ensures ok { IfOk result (λ text. text.items ≡ spec.unordered_form json scripts.now dead.now) }
    ensures err { IfErr result (λ e. e ≡ Memory) }
{
    if json {
        return Ok(unordered_json(alloc, scripts, dead)?);
    }
    let mut text = Vec::from_slice(alloc, b"unordered\n".as_slice())?;
    push_dead_lines(&mut text, scripts, dead)?;
    Ok(text)
}

/// Appends the lines of calls that are dead.
fn push_dead_lines(out: &mut Vec<u8>, scripts: &Scripts, dead: &[CallAt]) -> Result<(), AllocError>
    ensures { OnOk result (out.new.items ≡ out.old.items ++ flat_map (spec.dead_line scripts.now) dead.now) }
{
    for call in dead {
        push_dead_line(out, scripts, *call)?;
    }
    Ok(())
}

/// Appends those of two calls whose event isn't live, once where they are one.
fn push_both_dead(
    out: &mut Vec<CallAt>,
    marked: &MarkedPlan<'_>,
    x: CallAt,
    y: CallAt,
) -> Result<(), AllocError>
    requires x_there { x.call < length (calls_of (plan_of marked.now) x.proc.number) }
    requires y_there { y.call < length (calls_of (plan_of marked.now) y.proc.number) }
    ensures { OnOk result ((dead : List CallPlace) × spec.AreDead (plan_of marked.now) x y dead × (out.new.items ≡ out.old.items ++ dead)) }
{
    push_dead(out, marked, x)?;
    if is_same(x, y) {
        return Ok(());
    }
    push_dead(out, marked, y)
}

/// Whether two calls are one.
fn is_same(x: CallAt, y: CallAt) -> bool
    ensures { IsTrue result ↔ (x ≡ y) }
{
    x.proc.number == y.proc.number && x.call == y.call
}

/// Appends a call whose event isn't live; nothing where it is.
fn push_dead(out: &mut Vec<CallAt>, marked: &MarkedPlan<'_>, call: CallAt) -> Result<(), AllocError>
    requires there { call.call < length (calls_of (plan_of marked.now) call.proc.number) }
    ensures { OnOk result ((dead : List CallPlace) × spec.IsDeadPart (plan_of marked.now) call dead × (out.new.items ≡ out.old.items ++ dead)) }
{
    if marked.live(marked.plan().first_event(call)) {
        return Ok(());
    }
    out.push(call)?;
    Ok(())
}

/// Appends the line of a call that is dead.
pub fn push_dead_line(out: &mut Vec<u8>, scripts: &Scripts, call: CallAt) -> Result<(), AllocError>
    ensures { OnOk result (out.new.items ≡ out.old.items ++ spec.dead_line scripts.now call) }
{
    out.extend_from_slice(b"dead ")?;
    push_call(out, scripts, call)?;
    out.extend_from_slice(b"\n")
}

/// Appends the lines of these events of the plan.
fn push_events(out: &mut Vec<u8>, plan: &Plan, chain: &[Event]) -> Result<(), AllocError>
    requires { AreThere (plan_of plan.now) chain.now }
    ensures { OnOk result (out.new.items ≡ out.old.items ++ spec.event_lines plan.now (map event_of chain.now)) }
{
    for event in chain {
        push_event(out, plan, *event)?;
    }
    Ok(())
}

/// Appends the line of an event of the plan.
pub fn push_event(out: &mut Vec<u8>, plan: &Plan, event: Event) -> Result<(), AllocError>
    requires { event.at < event_count (plan_of plan.now) event.proc.number }
    ensures { OnOk result (out.new.items ≡ out.old.items ++ spec.event_line plan.now (event_of event)) }
{
    let scripts = plan.scripts();
    let call = plan.call_of(event);
    push_call(out, scripts, call)?;
    push_spaced(out, verb_at(scripts, call).as_bytes())?;
    out.extend_from_slice(half_word(plan.kind(event)).as_bytes())?;
    out.extend_from_slice(b"\n")
}

/// Which half of a fence an event is, after a space.
fn half_word(kind: Kind) -> &'static str
    ensures { (sets : List (List ℕ)) → result.now ≡ spec.half_text (Some (kind_of sets kind)) }
{
    match kind {
        Kind::Arrive { .. } => " arrive",
        Kind::Leave { .. } => " leave",
        _ => "",
    }
}
