//! Who waits for ever where the plain run of a plan stands at last.

ghost use Rattle.std.specs.Prelude.{◌≡◌, ◌⊎◌, true, IfOk, IfErr, Err};
ghost use Rattle.wire_types.specs.Outcome.{ends_of};
ghost use Rattle.wire_types.specs.declared.Fault.TheVariants.{Memory};
ghost use Rattle.wire_core.specs.Course.{state_of};
ghost use Rattle.wire_explain.specs.Quote.{is_printable_text};
ghost use Rattle.wire_reader.specs.Reads.{Reads};
ghost use Rattle.wire_standstill.specs.Told.{TellsWhere, TellsStandstill, TellsStandstillOf};
ghost use Rattle.wire_standstill.specs.Told.{ListsWhere, ListsStandstill, ReportsWhere, ReportsStandstill};

use crate::lines::standstill_text;
use crate::report::{standstill_json, standstill_members};
use crate::standstill::find_standstill;
use std::alloc::{AllocError, Global};
use wire_core::Core;
use wire_plan::Plan;
use wire_reader::{Size, read_sized};
use wire_scripts::Scripts;
use wire_types::{Fault, Outcome};

/// What is told where a core stands.
fn text_at(alloc: Global, core: &Core<'_>) -> Result<Vec<u8>, AllocError>
    ensures tells { IfOk result (λ text. TellsWhere core.now.scripts (state_of core.now) text.items) }
    ensures printable { IfOk result (λ text. is_printable_text text.items ≡ true) }
{
    let standstill = find_standstill(alloc, core)?;
    standstill_text(alloc, core, &standstill)
}

/// The same of a plan, where its plain run stands at last.
pub fn tell_standstill(alloc: Global, plan: &Plan) -> Result<Vec<u8>, Fault>
    ensures tells { IfOk result (λ text. TellsStandstill plan.now text.items) }
    ensures printable { IfOk result (λ text. is_printable_text text.items ≡ true) }
    ensures err { IfErr result (λ e. e ≡ Memory) }
{
    let mut core = Core::new(alloc, plan)?;
    core.run_lowest();
    let text = text_at(alloc, &core);
    drop(core);
    Ok(text?)
}

/// The same of scripts.
fn text_of(alloc: Global, scripts: Scripts) -> Result<Vec<u8>, Fault>
    ensures tells { IfOk result (λ text. TellsStandstill scripts text.items) }
    ensures printable { IfOk result (λ text. is_printable_text text.items ≡ true) }
    ensures err { IfErr result (λ e. e ≡ Memory) }
{
    let plan = Plan::build(alloc, scripts)?;
    let text = tell_standstill(alloc, &plan);
    drop(plan);
    text
}

/// Where the plain run of a plan stands at last with calls that wait: the first sixteen ranks of a deadlock, where
/// there is one, each with its call and what it waits for, and those of the ranks that wait for no rank. In a plan
/// without findings these wait for what never comes (no clause says so). Nothing where each rank is at its end. The
/// bytes are those of the plan, and the faults its own and `Memory`. Only printable ASCII and line feeds are in the
/// text.
pub fn explain_standstill(alloc: Global, size: Size, bytes: &[u8]) -> Result<Vec<u8>, Fault>
    ensures tells { IfOk result (λ text. TellsStandstillOf size bytes.now text.items) }
    ensures printable { IfOk result (λ text. is_printable_text text.items ≡ true) }
    ensures err { IfErr result (λ e. (e ≡ Memory) ⊎ Reads size bytes.now (Err e)) }
{
    let scripts = read_sized(alloc, size, bytes)?;
    text_of(alloc, scripts)
}

/// The start of an object that tells who waits for ever where a core stands.
fn members_at(alloc: Global, core: &Core<'_>) -> Result<Vec<u8>, AllocError>
    ensures { IfOk result (λ text. ListsWhere core.now.scripts (state_of core.now) text.items) }
{
    let standstill = find_standstill(alloc, core)?;
    standstill_members(alloc, core, &standstill)
}

/// The start of a JSON object that tells who waits for ever where the plain run of a plan stands at last: all ranks of
/// a deadlock, where there is one, and all ranks that wait for no rank, each with its call and what it waits for. It
/// ends with a comma.
pub fn list_standstill(alloc: Global, plan: &Plan) -> Result<Vec<u8>, Fault>
    ensures lists { IfOk result (λ text. ListsStandstill plan.now text.items) }
    ensures err { IfErr result (λ e. e ≡ Memory) }
{
    let mut core = Core::new(alloc, plan)?;
    core.run_lowest();
    let text = members_at(alloc, &core);
    drop(core);
    Ok(text?)
}

/// The report of an outcome, behind who waits for ever where a core stands, as JSON.
fn report_at(alloc: Global, core: &Core<'_>, outcome: &Outcome) -> Result<Vec<u8>, AllocError>
    ensures { IfOk result (λ text. ReportsWhere core.now.scripts (state_of core.now) (ends_of outcome.now) text.items) }
{
    let standstill = find_standstill(alloc, core)?;
    standstill_json(alloc, core, &standstill, outcome)
}

/// The report of an outcome, behind who waits for ever where the plain run of a plan stands at last, as JSON: all ranks
/// of a deadlock, where there is one, and all ranks that wait for no rank, each with its call and what it waits for.
pub fn standstill_report(alloc: Global, plan: &Plan, outcome: &Outcome) -> Result<Vec<u8>, Fault>
    ensures reports { IfOk result (λ text. ReportsStandstill plan.now (ends_of outcome.now) text.items) }
    ensures err { IfErr result (λ e. e ≡ Memory) }
{
    let mut core = Core::new(alloc, plan)?;
    core.run_lowest();
    let text = report_at(alloc, &core, outcome);
    drop(core);
    Ok(text?)
}
