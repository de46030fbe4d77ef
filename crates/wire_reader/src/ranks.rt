//! From a word to the ranks that it lists.

ghost use Rattle.std.specs.Prelude.{◌≡◌, ◌⊎◌, Ok, Err, IfOk, IfErr};
ghost use Rattle.wire_types.specs.Texts.{texts_of};
ghost use Rattle.wire_scripts.specs.Scripts.{numbers_of};
ghost use Rattle.wire_reader.specs.Order.{order_of};
ghost use Rattle.wire_reader.specs.Ranks.{parts_from, ranks_read};

use crate::order::add_step;
use crate::proc_words::ProcWords;
use std::alloc::Global;
use wire_lines::cut_parts;
use wire_scripts::Scripts;
use wire_types::{Fault, Proc};

/// The processes that a word lists, with commas between them, in its order. Each is named as in an order. The first
/// part that names no process is `BadOrder` with its number, from 1.
pub fn read_ranks(alloc: Global, scripts: &Scripts, word: &str) -> Result<Vec<Proc>, Fault>
    ensures ok { IfOk result (λ ranks. ranks_read scripts.now word.now ≡ Ok (numbers_of ranks.items)) }
    ensures err { IfErr result (λ e. (e ≡ Fault.Memory) ⊎ (ranks_read scripts.now word.now ≡ Err e)) }
{
    let parts = cut_parts(alloc, word.as_bytes())?;
    read_parts(alloc, scripts, parts.as_slice())
}

/// The processes that these words name.
fn read_parts(alloc: Global, scripts: &Scripts, parts: &[&[u8]]) -> Result<Vec<Proc>, Fault>
    ensures ok { IfOk result (λ ranks. order_of scripts.now (parts_from 1 (texts_of parts.now)) ≡ Ok (numbers_of ranks.items)) }
    ensures err { IfErr result
        (λ e. (e ≡ Fault.Memory) ⊎ (order_of scripts.now (parts_from 1 (texts_of parts.now)) ≡ Err e)) }
{
    let table = ProcWords::new(alloc, scripts)?;
    let mut ranks = Vec::new(alloc);
    for (number, part) in parts.iter().enumerate() {
        let Some(rank) = table.proc_of(part) else {
            return Err(Fault::BadOrder(number as u64 + 1));
        };
        add_step(&mut ranks, rank)?;
    }
    Ok(ranks)
}
