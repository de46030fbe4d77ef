//! From bytes to an order of steps.

ghost use Rattle.std.specs.Prelude.{◌≡◌, ◌≤◌, ◌⊎◌, ◌∷◌, ◌++◌, [], length, option_map, Ok, Err, OnOk, IfOk, IfErr};
ghost use Rattle.wire_types.specs.Texts.{texts_of};
ghost use Rattle.wire_scripts.specs.Scripts.{Scripts as Said, numbers_of};
ghost use Rattle.wire_reader.specs.Statements.{statements};
ghost use Rattle.wire_reader.specs.Limits as limit;
ghost use Rattle.wire_reader.specs.Order as spec;
ghost use Rattle.wire_reader.specs.Order.{order_of, order_read};
ghost use Rattle.wire_reader.specs.ProcWords.{IsTableOf};

use crate::limits::Size;
use crate::lines::Cursor;
use crate::proc_words::ProcWords;
use std::alloc::{AllocError, Global};
use wire_lines::line_past;
use wire_scripts::Scripts;
use wire_types::{Fault, Proc};

/// The steps that an order says: each line that isn't skipped is one step, and names its process by the
/// name of its job, a colon and its rank. The first line of another form, or of a process that isn't
/// there, is `BadOrder` with its number. An order of more bytes than this size allows is `BadOrder` whatever
/// it holds, with the line after as many as end among the bytes that it allows.
pub fn read_order_sized(
    alloc: Global,
    size: Size,
    scripts: &Scripts,
    bytes: &[u8],
) -> Result<Vec<Proc>, Fault>
    ensures ok { IfOk result (λ order. order_read size scripts.now bytes.now ≡ Ok (numbers_of order.items)) }
    ensures err { IfErr result (λ e. (e ≡ Fault.Memory) ⊎ (order_read size scripts.now bytes.now ≡ Err e)) }
{
    let most = size.order_bytes();
    if bytes.len() > most {
        return Err(Fault::BadOrder(line_past(bytes, most)));
    }
    read_steps(alloc, size, scripts, bytes)
}

/// The steps of an order within the limit of this size.
fn read_steps(
    alloc: Global,
    size: Size,
    scripts: &Scripts,
    bytes: &[u8],
) -> Result<Vec<Proc>, Fault>
    requires { length bytes.now ≤ limit.order_bytes size }
    ensures ok { IfOk result (λ order. order_of scripts.now (statements bytes.now) ≡ Ok (numbers_of order.items)) }
    ensures err { IfErr result
        (λ e. (e ≡ Fault.Memory) ⊎ (order_of scripts.now (statements bytes.now) ≡ Err e)) }
{
    let table = ProcWords::new(alloc, scripts)?;
    let mut order = Vec::new(alloc);
    let mut cursor = Cursor::new(bytes);
    'statements: while let Some(statement) = cursor.next_line(alloc)? {
        let Some(step) = step_of(&table, &statement.words) else {
            return Err(Fault::BadOrder(statement.number));
        };
        add_step(&mut order, step)?;
    }
    Ok(order)
}

/// Appends a step.
pub(crate) fn add_step(order: &mut Vec<Proc>, step: Proc) -> Result<(), AllocError>
    ensures { OnOk result (order.new.items ≡ order.old.items ++ step ∷ []) }
{
    order.push(step)?;
    Ok(())
}

/// The process that the words of a line name.
fn step_of(table: &ProcWords, words: &[&[u8]]) -> Option<Proc>
    ensures { (s : Said) → IsTableOf s table.now
        → option_map (λ p. p.number) result ≡ spec.step_of s (texts_of words.now) }
{
    match words {
        [word] => table.proc_of(word),
        _ => None,
    }
}
