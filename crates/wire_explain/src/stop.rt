//! From the bytes of a plan and of an order to why a step of the order can't be taken.

ghost use Rattle.std.specs.Prelude.{◌≡◌, [], true, IfOk, IfErr};
ghost use Rattle.wire_types.specs.declared.Fault.TheVariants.{Memory};
ghost use Rattle.wire_scripts.specs.Scripts.{numbers_of};
ghost use Rattle.wire_explain.specs.Quote.{is_printable_text};
ghost use Rattle.wire_explain.specs.Told.{TellsStop, TellsOrderRead, TellsNothing};

use crate::explanation::explanation_of;
use std::alloc::{AllocError, Global};
use wire_core::Core;
use wire_plan::Plan;
use wire_reader::{Size, read_order_sized, read_sized};
use wire_scripts::Scripts;
use wire_types::{Fault, Proc};

/// What is told of the steps of an order, of which these are the bytes, by a core that has taken none.
fn text_by(
    alloc: Global,
    core: &mut Core<'_>,
    order: &[Proc],
    order_bytes: &[u8],
) -> Result<Vec<u8>, Fault>
    requires { core.old.history ≡ [] }
    ensures tells { IfOk result (λ text. TellsStop order_bytes.now core.old.scripts (numbers_of order.now) text.items) }
    ensures printable { IfOk result (λ text. is_printable_text text.items ≡ true) }
    ensures err { IfErr result (λ e. e ≡ Memory) }
{
    match core.follow(order) {
        Err(Fault::NotReady(number)) => {
            let step = number - 1;
            let Some(proc) = order.get(step as usize) else {
                unreachable!();
            };
            Ok(explanation_of(alloc, order_bytes, core, step, *proc)?)
        }
        _ => Ok(Vec::new(alloc)),
    }
}

/// The same, of a plan.
fn text_after(
    alloc: Global,
    plan: &Plan,
    order: &[Proc],
    order_bytes: &[u8],
) -> Result<Vec<u8>, Fault>
    ensures tells { IfOk result (λ text. TellsStop order_bytes.now plan.now (numbers_of order.now) text.items) }
    ensures printable { IfOk result (λ text. is_printable_text text.items ≡ true) }
    ensures err { IfErr result (λ e. e ≡ Memory) }
{
    let mut core = Core::new(alloc, plan)?;
    let text = text_by(alloc, &mut core, order, order_bytes);
    drop(core);
    text
}

/// The same, of scripts.
fn text_of(
    alloc: Global,
    scripts: Scripts,
    order: &[Proc],
    order_bytes: &[u8],
) -> Result<Vec<u8>, Fault>
    ensures tells { IfOk result (λ text. TellsStop order_bytes.now scripts (numbers_of order.now) text.items) }
    ensures printable { IfOk result (λ text. is_printable_text text.items ≡ true) }
    ensures err { IfErr result (λ e. e ≡ Memory) }
{
    let plan = Plan::build(alloc, scripts)?;
    let text = text_after(alloc, &plan, order, order_bytes);
    drop(plan);
    text
}

/// Why a step of an order can't be taken: the line of the order, where its rank stands, and what it waits for. Nothing
/// where all steps can be taken. It is the first such step, and the bytes are those of a plan and of the order. Only
/// printable ASCII and line feeds are in the text. The faults are those of the plan and of the order, and `Memory`.
pub fn explain_stop(
    alloc: Global,
    size: Size,
    bytes: &[u8],
    order_bytes: &[u8],
) -> Result<Vec<u8>, Fault>
    ensures tells { IfOk result (λ text. TellsOrderRead size bytes.now order_bytes.now text.items) }
    ensures printable { IfOk result (λ text. is_printable_text text.items ≡ true) }
    ensures err { IfErr result (TellsNothing size bytes.now order_bytes.now) }
{
    let scripts = read_sized(alloc, size, bytes)?;
    let order = match read_order_sized(alloc, size, &scripts, order_bytes) {
        Ok(order) => order,
        Err(fault) => {
            drop(scripts);
            return Err(fault);
        }
    };
    text_of(alloc, scripts, order.as_slice(), order_bytes)
}
