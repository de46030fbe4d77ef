//! `witness` without calls: the races of a plan, and which of them two runs show, in lines or as JSON; with places the
//! calls of each race with their lines in the file.

ghost use Rattle.std.specs.Thread.{IsSync};
ghost use Rattle.std.specs.Prelude.{◌≡◌, ◌≢◌, ◌⊎◌, ◌++◌, true, Err, map, OnOk, IfOk, IfErr};
ghost use Rattle.std.specs.List.{flat_map};
ghost use Rattle.wire_types.specs.declared.Fault.TheVariants.{Memory, Read};
ghost use Rattle.wire_types.specs.Counting.{one_more};
ghost use Rattle.wire_types.specs.Texts.{lists_of};
ghost use Rattle.wire_command.specs.Answer.{BreaksOff, Writes, rows_in};
ghost use Rattle.wire_commands.specs.CallsJson as json;
ghost use Rattle.wire_commands.specs.Check.{StopsBeforeFindings};
ghost use Rattle.wire_commands.specs.Witnesses as spec;
ghost use Rattle.wire_commands.specs.Witnesses.{TriesRaces};

use crate::calls_json::{begin_finding, place_json};
use crate::json_builder::JsonBuilder;
use std::alloc::{AllocError, Global};
use std::thread::Threads;
use wire_command::{
    Answer, AnswerStyle, Command, CommandOptions, CommandRun, Ended, Shared, run_command,
};
use wire_json::{counts_json, races_json};
use wire_plan::Plan;
use wire_report::{
    SourceLines, pair_of, push_counts, push_finding, push_place, push_second, push_tried,
};
use wire_scripts::Scripts;
use wire_types::{CallAt, Fault, OutputFormat, Sink, Source};
use wire_witness::{RaceSearch, TriedRace, search_races};

/// Tries to show the races of a plan: reads the plan to its end, and looks for two runs of each race, of
/// so many races at most, in the order of the findings. It writes a line for each race that was tried, with the
/// call that ends differently where such runs were found, and last how many races there are, and how many of
/// them are shown, not shown and not tried. A race that isn't shown may show in other runs all the same. In a form with
/// places the line of a race stands behind the name of the file and the line of its lower call, and is followed by the
/// place of the other; as JSON each race has its two calls with the numbers of their lines.
///
/// It answers `Clean` where nothing is shown, else how many races are. The fault of a file is the first that it
/// has. After the fault `Write` the front of the text that it counts is written, after any other fault nothing.
/// `Memory` may come in place of any other answer. What is said of bytes is said where the reader and the writer
/// tell theirs.
pub fn witness_races<R: Source, W: Sink>(
    rt: &(impl Threads + Sync),
    alloc: Global,
    manner: CommandOptions<'_>,
    reader: &mut R,
    writer: &mut W,
    most: usize,
) -> Result<Ended, Fault>
    ensures ok { IfOk result (λ ended. Writes manner.entry.size manner.entry.form (R.coming reader.old)
        (TriesRaces manner.entry.form manner.entry.name.now most) ended (W.written writer.old) (W.written writer.new)) }
    ensures quiet { OnOk result ((R.failures reader.new ≡ R.failures reader.old) × (W.failures writer.new ≡ W.failures writer.old)) }

    // Either nothing was written, or the front of the text that the fault counts.
    ensures err { IfErr result (λ e. (StopsBeforeFindings manner.entry.size (R.coming reader.old) e × (writer.new ≡ writer.old))
        ⊎ (BreaksOff manner.entry.size manner.entry.form (R.coming reader.old) (TriesRaces manner.entry.form manner.entry.name.now most)
        (W.written writer.old) (W.written writer.new) e × (W.failures writer.new ≡ one_more (W.failures writer.old)))) }

    // A failed read is answered only where the reader failed.
    ensures read_failed { result ≡ Err Read → R.failures reader.new ≡ one_more (R.failures reader.old) }
    ensures unfailed { IfErr result (λ e. e ≢ Memory → e ≢ Read → R.failures reader.new ≡ R.failures reader.old) }
{
    let run = CommandRun {
        command: &Races { rt, most },
        lines: &Shared { rt },
        options: manner,
    };
    run_command(alloc, run, reader, writer)
}

/// The answer about so many races at most.
#[derive(Drop)]
struct Races<'r, R> {
    rt: &'r R,
    most: usize,
}

impl<R: Threads + Sync> Command for Races<'_, R> {
    ghost needs = { λ _. IsSync R.row };

    ghost tells = { λ races form name. TriesRaces form name races.most };

    ghost refuses = { λ _ _ _. ⊥ };

    fn answer(
        &self,
        alloc: Global,
        scripts: Scripts,
        telling: AnswerStyle<'_>,
    ) -> Result<Answer, Fault> {
        let most = self.most;
        answer_scripts(self.rt, alloc, scripts, Tries { most, telling })
    }
}

/// How many races are tried at most, and how they are told.
#[derive(Clone, Copy)]
struct Tries<'a> {
    most: usize,
    telling: AnswerStyle<'a>,
}

/// The answer about the races of scripts.
fn answer_scripts(
    rt: &(impl Threads + Sync),
    alloc: Global,
    scripts: Scripts,
    tries: Tries<'_>,
) -> Result<Answer, Fault>
    ensures ok { IfOk result (λ answer. TriesRaces tries.entry.telling.form tries.entry.telling.places.name.now tries.entry.most scripts
        (rows_in tries.entry.telling.places) answer.text.items answer.ended) }
    ensures err { IfErr result (λ e. e ≡ Memory) }
{
    let plan = Plan::build(alloc, scripts)?;
    let answer = answer_plan(rt, alloc, &plan, tries);
    drop(plan);
    answer
}

/// The answer about the races of a plan.
fn answer_plan(
    rt: &(impl Threads + Sync),
    alloc: Global,
    plan: &Plan,
    tries: Tries<'_>,
) -> Result<Answer, Fault>
    ensures ok { IfOk result (λ answer. TriesRaces tries.entry.telling.form tries.entry.telling.places.name.now tries.entry.most plan.now
        (rows_in tries.entry.telling.places) answer.text.items answer.ended) }
    ensures err { IfErr result (λ e. e ≡ Memory) }
{
    let search = search_races(rt, alloc, plan, tries.most)?;
    let text = races_text(alloc, plan.scripts(), tries.telling, &search)?;
    Ok(Answer {
        text,
        ended: Ended::of_count(search.count_shown()),
    })
}

/// The text of a search.
fn races_text(
    alloc: Global,
    scripts: &Scripts,
    telling: AnswerStyle<'_>,
    search: &RaceSearch,
) -> Result<Vec<u8>, AllocError>
    ensures { IfOk result (λ text. text.items ≡ spec.races_form telling.entry.form telling.entry.places.name.now (rows_in telling.entry.places)
        scripts.now search.now) }
{
    match telling.form {
        OutputFormat::Lines => lines_text(alloc, scripts, search),
        OutputFormat::Places => located_text(alloc, scripts, telling.places, search),
        OutputFormat::Json => plain_json(alloc, scripts, search),
        OutputFormat::PlacedJson => placed_json(alloc, scripts, telling.places.rows, search),
    }
}

/// The lines of a search, with the places of the calls.
fn located_text(
    alloc: Global,
    scripts: &Scripts,
    places: SourceLines<'_>,
    search: &RaceSearch,
) -> Result<Vec<u8>, AllocError>
    ensures { IfOk result (λ text. text.items ≡ spec.located_text places.entry.name.now (rows_in places.entry) scripts.now search.now) }
{
    let mut text = Vec::new(alloc);
    push_races(&mut text, scripts, places, search.tried.as_slice())?;
    push_counts(&mut text, search.counts())?;
    Ok(text)
}

/// Appends the lines of these races.
fn push_races(
    out: &mut Vec<u8>,
    scripts: &Scripts,
    places: SourceLines<'_>,
    tried: &[TriedRace],
) -> Result<(), AllocError>
    ensures { OnOk result (out.new.items ≡ out.old.items
        ++ flat_map (spec.placed_race places.entry.name.now (rows_in places.entry) scripts.now) tried.now) }
{
    for one in tried {
        push_race(out, scripts, places, *one)?;
    }
    Ok(())
}

/// Appends the two lines of a race that was tried.
fn push_race(
    out: &mut Vec<u8>,
    scripts: &Scripts,
    places: SourceLines<'_>,
    tried: TriedRace,
) -> Result<(), AllocError>
    ensures { OnOk result (out.new.items ≡ out.old.items
        ++ spec.placed_race places.entry.name.now (rows_in places.entry) scripts.now tried) }
{
    push_place(out, places, pair_of(tried.race).lower)?;
    push_tried(out, scripts, tried.race, tried.shown)?;
    push_second(out, places, scripts, tried.race)
}

/// The races that were tried, with the lines of their calls, and how many there are, as JSON.
fn placed_json(
    alloc: Global,
    scripts: &Scripts,
    rows: &[Vec<u64>],
    search: &RaceSearch,
) -> Result<Vec<u8>, AllocError>
    ensures { IfOk result (λ text. text.items ≡ json.json_races (lists_of rows.now) scripts.now search.now) }
{
    JsonBuilder::new(alloc)
        .put(b"{\"counts\":")
        .put_form(counts_json(alloc, search.counts()))
        .put(b",\"races\":")
        .put_list(tried_texts(alloc, scripts, rows, search.tried.as_slice()))
        .put(b"}\n")
        .finish()
}

/// All races that were tried.
fn tried_texts(
    alloc: Global,
    scripts: &Scripts,
    rows: &[Vec<u64>],
    tried: &[TriedRace],
) -> Result<Vec<Vec<u8>>, AllocError>
    ensures { IfOk result (λ texts. map (λ text. text.items) texts.items ≡ map (json.json_tried (lists_of rows.now) scripts.now) tried.now) }
{
    let mut texts = Vec::new(alloc);
    for one in tried {
        texts.push(tried_json(alloc, scripts, rows, *one)?)?;
    }
    Ok(texts)
}

/// A race that was tried.
fn tried_json(
    alloc: Global,
    scripts: &Scripts,
    rows: &[Vec<u64>],
    tried: TriedRace,
) -> Result<Vec<u8>, AllocError>
    ensures { IfOk result (λ text. text.items ≡ json.json_tried (lists_of rows.now) scripts.now tried) }
{
    begin_finding(alloc, scripts, rows, tried.race)
        .put(b",\"shown\":")
        .put_form(shown_json(alloc, scripts, rows, tried.shown))
        .put(b"}")
        .finish()
}

/// The call that shows a race, or null.
fn shown_json(
    alloc: Global,
    scripts: &Scripts,
    rows: &[Vec<u64>],
    shown: Option<CallAt>,
) -> Result<Vec<u8>, AllocError>
    ensures { IfOk result (λ text. text.items ≡ json.json_shown (lists_of rows.now) scripts.now shown) }
{
    match shown {
        Some(call) => place_json(alloc, scripts, rows, call),
        None => Vec::from_slice(alloc, b"null".as_slice()),
    }
}

/// The lines of a search.
fn lines_text(alloc: Global, scripts: &Scripts, search: &RaceSearch) -> Result<Vec<u8>, AllocError>
    ensures { IfOk result (λ text. text.items ≡ spec.lines_text scripts.now search.now) }
{
    let mut text = Vec::new(alloc);
    push_lines(&mut text, scripts, search.tried.as_slice())?;
    push_counts(&mut text, search.counts())?;
    Ok(text)
}

/// Appends the lines of these races.
fn push_lines(out: &mut Vec<u8>, scripts: &Scripts, tried: &[TriedRace]) -> Result<(), AllocError>
    ensures { OnOk result (out.new.items ≡ out.old.items ++ flat_map (spec.race_line scripts.now) tried.now) }
{
    for one in tried {
        push_tried(out, scripts, one.race, one.shown)?;
    }
    Ok(())
}

/// A search as JSON.
fn plain_json(alloc: Global, scripts: &Scripts, search: &RaceSearch) -> Result<Vec<u8>, AllocError>
    ensures { IfOk result (λ text. text.items ≡ spec.plain_json scripts.now search.now) }
{
    let words = words_of(alloc, scripts, search.tried.as_slice())?;
    let shown = shown_of(alloc, search.tried.as_slice())?;
    let counts = search.counts();
    races_json(alloc, scripts, words.as_slice(), shown.as_slice(), counts)
}

/// The words of what `check` writes of these races.
fn words_of(
    alloc: Global,
    scripts: &Scripts,
    tried: &[TriedRace],
) -> Result<Vec<Vec<u8>>, AllocError>
    ensures { IfOk result (λ lines. map (λ line. line.items) lines.items ≡ spec.words_of scripts.now tried.now) }
{
    let mut lines = Vec::new(alloc);
    for one in tried {
        let mut line = Vec::new(alloc);
        push_finding(&mut line, scripts, one.race)?;
        lines.push(line)?;
    }
    Ok(lines)
}

/// The calls that show these races.
fn shown_of(alloc: Global, tried: &[TriedRace]) -> Result<Vec<Option<CallAt>>, AllocError>
    ensures { IfOk result (λ calls. calls.items ≡ map (λ one. one.shown) tried.now) }
{
    let mut calls = Vec::new(alloc);
    for one in tried {
        calls.push(one.shown)?;
    }
    Ok(calls)
}
