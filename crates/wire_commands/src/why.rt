//! `why`: whether one of two calls is before the other, and the chain that shows it, in lines or as JSON; with places
//! each call with its line in the file.

ghost use Rattle.std.specs.Prelude.{◌≡◌, ◌≢◌, ◌<◌, ◌++◌, ◌⊎◌, List, Ok, Err, true, length, map, OnOk, IfOk, IfErr};
ghost use Rattle.std.specs.List.{flat_map};
ghost use Rattle.wire_types.specs.declared.CallAt.{CallAt as CallPlace};
ghost use Rattle.wire_types.specs.declared.Fault.TheVariants.{Memory, Read};
ghost use Rattle.wire_types.specs.Counting.{one_more};
ghost use Rattle.wire_types.specs.Forms.{is_json};
ghost use Rattle.wire_types.specs.Texts.{lists_of, texts_of};
ghost use Rattle.wire_scripts.specs.Planned.{plan_of};
ghost use Rattle.wire_runs.specs.Ends.{calls_of};
ghost use Rattle.wire_runs.specs.Plan.{event_count, event_of};
ghost use Rattle.wire_report.specs.Chain.{AreDead};
ghost use Rattle.wire_report.specs.There.{AreThere};
ghost use Rattle.wire_command.specs.Answer.{BreaksOff, Writes, rows_in};
ghost use Rattle.wire_commands.specs.CallsJson as spec;
ghost use Rattle.wire_commands.specs.Chains as chains;
ghost use Rattle.wire_commands.specs.Why.{ExplainsOrder, QuestionNames, StopsBeforeAnswer, TellsOrder};

use crate::calls_json::{place_json, step_json};
use crate::json_builder::JsonBuilder;
use std::alloc::{AllocError, Global};
use wire_command::{
    Alone, Answer, AnswerStyle, Command, CommandOptions, CommandRun, Ended, run_command,
};
use wire_happens_before::{HappensBefore, MarkedPlan};
use wire_json::{ChainStep, which_word};
use wire_plan::Plan;
use wire_reader::{Question, read_question};
use wire_report::{
    SourceLines, chain_steps, chain_text, find_dead_calls, order_line, push_dead_line, push_event,
    push_place,
};
use wire_scripts::Scripts;
use wire_types::{CallAt, Event, Fault, Sink, Source};

/// Answers whether a chain of events leads from one call of a plan to another: reads the plan to its end, and writes
/// `before` and the events of the chain, else `after` and those of the chain the other way round, else `unordered` and
/// which of the two calls isn't live. Where a chain leads from one event to another, the first has happened in every
/// run in which the second does. In a form with places the name of the file and the line of its call stand before each
/// event and each dead call; as JSON each of these calls has the number of its line.
///
/// It answers `Clean`, since a question finds nothing. The words are a process, as in an order, and the number of a
/// call of it, from 1, twice. The faults of the file come first, then `BadOrder` with the number of the lowest wrong
/// word, from 1. After the fault `Write` the front of the answer that it counts is written, after any other fault
/// nothing. `Memory` may come in place of any other answer. What is said of bytes is said where the reader and the
/// writer tell theirs.
pub fn explain_order<R: Source, W: Sink>(
    alloc: Global,
    manner: CommandOptions<'_>,
    reader: &mut R,
    writer: &mut W,
    words: [&str; 4],
) -> Result<Ended, Fault>
    ensures ok { IfOk result (λ ended. Writes manner.entry.size manner.entry.form (R.coming reader.old)
        (ExplainsOrder manner.entry.form manner.entry.name.now (texts_of words.entry)) ended (W.written writer.old) (W.written writer.new)) }
    ensures quiet { OnOk result ((R.failures reader.new ≡ R.failures reader.old) × (W.failures writer.new ≡ W.failures writer.old)) }

    // Either nothing was written, or the front of the answer that the fault counts.
    ensures err { IfErr result (λ e. (StopsBeforeAnswer manner.entry.size (R.coming reader.old) (texts_of words.entry) e × (writer.new ≡ writer.old))
        ⊎ (BreaksOff manner.entry.size manner.entry.form (R.coming reader.old) (ExplainsOrder manner.entry.form manner.entry.name.now (texts_of words.entry))
        (W.written writer.old) (W.written writer.new) e × (W.failures writer.new ≡ one_more (W.failures writer.old)))) }

    // A failed read is answered only where the reader failed.
    ensures read_failed { result ≡ Err Read → R.failures reader.new ≡ one_more (R.failures reader.old) }
    ensures unfailed { IfErr result (λ e. e ≢ Memory → e ≢ Read → R.failures reader.new ≡ R.failures reader.old) }
{
    let run = CommandRun {
        command: &OrderAsked { words },
        lines: &Alone,
        options: manner,
    };
    run_command(alloc, run, reader, writer)
}

/// The question in which order two calls come.
#[derive(Drop)]
struct OrderAsked<'w> {
    words: [&'w str; 4],
}

impl Command for OrderAsked<'_> {
    ghost needs = { λ _. Unit {0} };

    ghost tells = { λ asked form name. ExplainsOrder form name (texts_of asked.words) };

    ghost refuses = { λ asked scripts fault. QuestionNames scripts (texts_of asked.words) (Err fault) };

    #[tactic(auto, using(crate::proofs::Questioned::words_no_read))]
    fn answer(
        &self,
        alloc: Global,
        scripts: Scripts,
        telling: AnswerStyle<'_>,
    ) -> Result<Answer, Fault> {
        answer_scripts(alloc, scripts, telling, self.words)
    }
}

/// The answer to a question about scripts.
fn answer_scripts(
    alloc: Global,
    scripts: Scripts,
    telling: AnswerStyle<'_>,
    words: [&str; 4],
) -> Result<Answer, Fault>
    ensures ok { IfOk result (λ answer. ExplainsOrder telling.entry.form telling.entry.places.name.now (texts_of words.entry) scripts
        (rows_in telling.entry.places) answer.text.items answer.ended) }
    ensures err { IfErr result (λ e. (e ≡ Memory) ⊎ QuestionNames scripts (texts_of words.entry) (Err e)) }
{
    let plan = Plan::build(alloc, scripts)?;
    let answer = answer_plan(alloc, &plan, telling, words);
    drop(plan);
    answer
}

/// The answer to a question about a plan.
fn answer_plan(
    alloc: Global,
    plan: &Plan,
    telling: AnswerStyle<'_>,
    words: [&str; 4],
) -> Result<Answer, Fault>
    ensures ok { IfOk result (λ answer. ExplainsOrder telling.entry.form telling.entry.places.name.now (texts_of words.entry) plan.now
        (rows_in telling.entry.places) answer.text.items answer.ended) }
    ensures err { IfErr result (λ e. (e ≡ Memory) ⊎ QuestionNames plan.now (texts_of words.entry) (Err e)) }
{
    let calls = read_pair(alloc, plan.scripts(), words)?;
    let text = text_between(alloc, plan, telling, calls)?;
    Ok(Answer {
        text,
        ended: Ended::Clean,
    })
}

/// The two calls that the words of a question name.
pub(crate) fn read_pair(
    alloc: Global,
    scripts: &Scripts,
    words: [&str; 4],
) -> Result<(CallAt, CallAt), Fault>
    ensures ok { IfOk result (λ calls. QuestionNames scripts.now (texts_of words.entry) (Ok calls)) }
    ensures x_there { IfOk result (λ calls. calls.0.call < length (calls_of (plan_of scripts.now) calls.0.proc.number)) }
    ensures y_there { IfOk result (λ calls. calls.1.call < length (calls_of (plan_of scripts.now) calls.1.proc.number)) }
    ensures err { IfErr result (λ e. (e ≡ Memory) ⊎ QuestionNames scripts.now (texts_of words.entry) (Err e)) }
{
    let question = Question {
        proc: words[0],
        number: words[1],
        other_proc: words[2],
        other_number: words[3],
    };
    read_question(alloc, scripts, question)
}

/// The text of the order of two calls of a plan.
fn text_between(
    alloc: Global,
    plan: &Plan,
    telling: AnswerStyle<'_>,
    calls: (CallAt, CallAt),
) -> Result<Vec<u8>, Fault>
    requires x_there { calls.0.call < length (calls_of (plan_of plan.now) calls.0.proc.number) }
    requires y_there { calls.1.call < length (calls_of (plan_of plan.now) calls.1.proc.number) }
    ensures ok { IfOk result (λ text. TellsOrder telling.entry.form telling.entry.places.name.now (rows_in telling.entry.places)
        plan.now calls.0 calls.1 text.items) }
    ensures err { IfErr result (λ e. e ≡ Memory) }
{
    let marks = HappensBefore::of(alloc, plan)?;
    let marked = marks.with(plan);
    if telling.form.has_places() {
        return placed_chain_text(alloc, &marked, telling, calls);
    }
    chain_text(alloc, &marked, calls, telling.form.is_json())
}

/// The text of the order of two calls, with the place of each call that it tells of.
fn placed_chain_text(
    alloc: Global,
    marked: &MarkedPlan<'_>,
    telling: AnswerStyle<'_>,
    calls: (CallAt, CallAt),
) -> Result<Vec<u8>, Fault>
    requires x_there { calls.0.call < length (calls_of (plan_of marked.now) calls.0.proc.number) }
    requires y_there { calls.1.call < length (calls_of (plan_of marked.now) calls.1.proc.number) }
    ensures ok { IfOk result (λ text. chains.IsPlacedChain (is_json telling.entry.form) telling.entry.places.name.now (rows_in telling.entry.places)
        marked.now calls.0 calls.1 text.items) }
    ensures err { IfErr result (λ e. e ≡ Memory) }
{
    let plan = marked.plan();
    let marks = marked.marks();
    let from = plan.first_event(calls.0);
    let to = plan.first_event(calls.1);
    if let Some(chain) = marks.chain(alloc, plan, from, to)? {
        return ordered_text(alloc, plan, telling, true, chain.as_slice());
    }
    if let Some(chain) = marks.chain(alloc, plan, to, from)? {
        return ordered_text(alloc, plan, telling, false, chain.as_slice());
    }
    unordered_text(alloc, marked, telling, calls)
}

/// The text of a chain of events of the plan that leads from the first of two calls to the second, or the other way
/// round.
fn ordered_text(
    alloc: Global,
    plan: &Plan,
    telling: AnswerStyle<'_>,
    first: bool,
    chain: &[Event],
) -> Result<Vec<u8>, Fault>
    requires { AreThere (plan_of plan.now) chain.now }
    ensures ok { IfOk result (λ text. text.items ≡ chains.chain_form (is_json telling.entry.form) telling.entry.places.name.now
        (rows_in telling.entry.places) first plan.now (map event_of chain.now)) }
    ensures err { IfErr result (λ e. e ≡ Memory) }
{
    if telling.form.is_json() {
        return Ok(ordered_json(alloc, plan, telling.places, first, chain)?);
    }
    let mut text = Vec::from_slice(alloc, order_line(first))?;
    push_events(&mut text, plan, telling.places, chain)?;
    Ok(text)
}

/// A chain as JSON.
fn ordered_json(
    alloc: Global,
    plan: &Plan,
    places: SourceLines<'_>,
    first: bool,
    chain: &[Event],
) -> Result<Vec<u8>, AllocError>
    requires { AreThere (plan_of plan.now) chain.now }
    ensures { IfOk result (λ text. text.items ≡ chains.chain_form true places.entry.name.now
        (rows_in places.entry) first plan.now (map event_of chain.now)) }
{
    let steps = chain_steps(alloc, plan, chain)?;
    chain_json(alloc, plan.scripts(), places.rows, first, steps.as_slice())
}

/// The text of two calls that no chain orders, and which of them are dead.
fn unordered_text(
    alloc: Global,
    marked: &MarkedPlan<'_>,
    telling: AnswerStyle<'_>,
    calls: (CallAt, CallAt),
) -> Result<Vec<u8>, Fault>
    requires x_there { calls.0.call < length (calls_of (plan_of marked.now) calls.0.proc.number) }
    requires y_there { calls.1.call < length (calls_of (plan_of marked.now) calls.1.proc.number) }
    ensures ok { IfOk result (λ text. (dead : List CallPlace) × AreDead (plan_of marked.now) calls.0 calls.1 dead
        × (text.items ≡ chains.unordered_form (is_json telling.entry.form) telling.entry.places.name.now (rows_in telling.entry.places)
        marked.now dead)) }
    ensures err { IfErr result (λ e. e ≡ Memory) }
{
    let dead = find_dead_calls(alloc, marked, calls)?;
    let text = dead_text(alloc, marked.plan().scripts(), telling, dead.as_slice())?;
    Ok(text)
}

/// The text of calls that no chain orders, of which these are dead.
fn dead_text(
    alloc: Global,
    scripts: &Scripts,
    telling: AnswerStyle<'_>,
    dead: &[CallAt],
) -> Result<Vec<u8>, AllocError>
    ensures { IfOk result (λ text. text.items ≡ chains.unordered_form (is_json telling.entry.form) telling.entry.places.name.now
        (rows_in telling.entry.places) scripts.now dead.now) }
{
    if telling.form.is_json() {
        return unordered_json(alloc, scripts, telling.places.rows, dead);
    }
    let mut text = Vec::from_slice(alloc, b"unordered\n".as_slice())?;
    push_dead(&mut text, scripts, telling.places, dead)?;
    Ok(text)
}

/// Appends the lines of calls that are dead.
fn push_dead(
    out: &mut Vec<u8>,
    scripts: &Scripts,
    places: SourceLines<'_>,
    dead: &[CallAt],
) -> Result<(), AllocError>
    ensures { OnOk result (out.new.items ≡ out.old.items
        ++ flat_map (chains.placed_dead places.entry.name.now (rows_in places.entry) scripts.now) dead.now) }
{
    for call in dead {
        push_placed_dead(out, scripts, places, *call)?;
    }
    Ok(())
}

/// Appends the line of a call that is dead.
fn push_placed_dead(
    out: &mut Vec<u8>,
    scripts: &Scripts,
    places: SourceLines<'_>,
    call: CallAt,
) -> Result<(), AllocError>
    ensures { OnOk result (out.new.items ≡ out.old.items
        ++ chains.placed_dead places.entry.name.now (rows_in places.entry) scripts.now call) }
{
    push_place(out, places, call)?;
    push_dead_line(out, scripts, call)
}

/// Appends the lines of these events of the plan.
fn push_events(
    out: &mut Vec<u8>,
    plan: &Plan,
    places: SourceLines<'_>,
    chain: &[Event],
) -> Result<(), AllocError>
    requires { AreThere (plan_of plan.now) chain.now }
    ensures { OnOk result (out.new.items ≡ out.old.items
        ++ flat_map (chains.placed_event places.entry.name.now (rows_in places.entry) plan.now) (map event_of chain.now)) }
{
    for event in chain {
        push_placed_event(out, plan, places, *event)?;
    }
    Ok(())
}

/// Appends the line of an event of the plan.
fn push_placed_event(
    out: &mut Vec<u8>,
    plan: &Plan,
    places: SourceLines<'_>,
    event: Event,
) -> Result<(), AllocError>
    requires { event.at < event_count (plan_of plan.now) event.proc.number }
    ensures { OnOk result (out.new.items ≡ out.old.items
        ++ chains.placed_event places.entry.name.now (rows_in places.entry) plan.now (event_of event)) }
{
    push_place(out, places, plan.call_of(event))?;
    push_event(out, plan, event)
}

/// The JSON of the chain that orders two calls: whether it begins at the first of them, and its steps.
fn chain_json(
    alloc: Global,
    scripts: &Scripts,
    rows: &[Vec<u64>],
    first: bool,
    steps: &[ChainStep],
) -> Result<Vec<u8>, AllocError>
    ensures { IfOk result (λ text. text.items ≡ spec.json_chain (lists_of rows.now) first scripts.now steps.now) }
{
    JsonBuilder::new(alloc)
        .put(b"{\"before\":\"")
        .put(which_word(first).as_bytes())
        .put(b"\",\"chain\":")
        .put_list(step_texts(alloc, scripts, rows, steps))
        .put(b"}\n")
        .finish()
}

/// The steps of a chain, each with its line.
fn step_texts(
    alloc: Global,
    scripts: &Scripts,
    rows: &[Vec<u64>],
    steps: &[ChainStep],
) -> Result<Vec<Vec<u8>>, AllocError>
    ensures { IfOk result (λ texts. map (λ text. text.items) texts.items ≡ map (spec.json_step (lists_of rows.now) scripts.now) steps.now) }
{
    let mut texts = Vec::new(alloc);
    for step in steps {
        texts.push(step_json(alloc, scripts, rows, *step)?)?;
    }
    Ok(texts)
}

/// The JSON that says that no chain orders two calls, and which of them are dead.
fn unordered_json(
    alloc: Global,
    scripts: &Scripts,
    rows: &[Vec<u64>],
    dead: &[CallAt],
) -> Result<Vec<u8>, AllocError>
    ensures { IfOk result (λ text. text.items ≡ spec.json_unordered (lists_of rows.now) scripts.now dead.now) }
{
    JsonBuilder::new(alloc)
        .put(b"{\"before\":null,\"dead\":")
        .put_list(place_texts(alloc, scripts, rows, dead))
        .put(b"}\n")
        .finish()
}

/// Calls by their processes, numbers and lines alone.
fn place_texts(
    alloc: Global,
    scripts: &Scripts,
    rows: &[Vec<u64>],
    calls: &[CallAt],
) -> Result<Vec<Vec<u8>>, AllocError>
    ensures { IfOk result (λ texts. map (λ text. text.items) texts.items ≡ map (spec.json_place (lists_of rows.now) scripts.now) calls.now) }
{
    let mut texts = Vec::new(alloc);
    for call in calls {
        texts.push(place_json(alloc, scripts, rows, *call)?)?;
    }
    Ok(texts)
}
