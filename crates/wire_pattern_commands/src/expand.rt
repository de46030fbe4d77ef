//! `expand`: the plan of one instance of a pattern.

ghost use Rattle.std.specs.Prelude.{◌≡◌, ◌≢◌, ◌⊎◌, Err, OnOk, IfOk, IfErr};
ghost use Rattle.wire_types.specs.declared.Fault.TheVariants.{Memory, Read};
ghost use Rattle.wire_types.specs.Counting.{one_more};
ghost use Rattle.wire_pattern.specs.Instances.{instance_text};
ghost use Rattle.wire_instances.specs.Views.{cast_by};
ghost use Rattle.wire_pattern_commands.specs.Expand.{BreaksOffExpanded, HasManyRanks, IsCastAsked, IsExpandFault};
ghost use Rattle.wire_pattern_commands.specs.Expand.{IsExpanded, StopsBeforeExpanded, WritesExpanded, word_of};
ghost use Rattle.wire_pattern_commands.specs.Ranks.{HasMisfit};

use crate::ranks::sizes_by;
use crate::reading::{note_sound, read_coming};
use crate::spread::{Spread, spread_nodes};
use std::alloc::Global;
use wire_instance_laws::laws::instances_read;
use wire_instances::{Cast, pattern_fault, processes_within, write_front};
use wire_pattern::Pattern;
use wire_reader::{Limits, Size, read_sized};
use wire_report::write_text;
use wire_types::{Fault, Sink, Source, Version};

/// Which instance of a pattern is asked for.
#[derive(Clone, Copy)]
pub struct Expansion<'a> {
    /// How many ranks each group has: `NAME=N`, with commas between them. A group that isn't named has its least
    /// number.
    pub ranks: Option<&'a str>,
    pub spread: Spread,
    /// Within which limits it is to be a plan.
    pub size: Size,
}

/// The cast that is asked for. Too many processes are found before any is placed.
fn cast_asked(alloc: Global, pattern: &Pattern, asked: Expansion<'_>) -> Result<Cast, Fault>
    ensures ok { IfOk result (λ cast. IsCastAsked pattern.now asked.entry (cast_by cast)) }
    ensures err { IfErr result (λ e. (e ≡ Memory) ⊎ (HasMisfit pattern.now.roles (word_of asked.entry) e
        ⊎ HasManyRanks pattern.now asked.entry e)) }
{
    let sizes = sizes_by(alloc, pattern, asked.ranks)?;
    let most = Limits::of(asked.size, Version::Two).processes;
    let processes = processes_within(pattern, sizes.as_slice(), most)?;
    let nodes = spread_nodes(alloc, processes, asked.size, asked.spread)?;
    Ok(Cast {
        sizes,
        chosen: Vec::new(alloc),
        nodes,
    })
}

/// The text of the instance that is asked for, if it reads as a plan. A text that is too long for that isn't made: its
/// front tells so.
fn expanded_text(alloc: Global, pattern: &Pattern, asked: Expansion<'_>) -> Result<Vec<u8>, Fault>
    ensures ok { IfOk result (λ text. IsExpanded pattern.now asked.entry text.items) }
    ensures err { IfErr result (λ e. IsExpandFault pattern.now asked.entry e) }
{
    let cast = cast_asked(alloc, pattern, asked)?;
    let text = write_front(alloc, pattern, &cast, asked.size.file_bytes() + 1)?;
    note_sound(pattern);
    instances_read();
    match read_sized(alloc, asked.size, text.as_slice()) {
        Ok(scripts) => {
            drop(scripts);
            Ok(text)
        }
        Err(fault) => Err(pattern_fault(alloc, pattern, &cast, fault)?),
    }
}

/// Writes the plan of one instance of a pattern: reads the pattern to its end, and writes the text of the instance with
/// so many ranks of each group as are asked for, on the nodes that are asked for. All turns of loops of `for some` are
/// taken.
///
/// The faults of the pattern's file come first, then those of what is asked for: `BadOrder` with the number of the
/// first part of `ranks`, from 1, that isn't `NAME=N` or that the pattern can't have, and `TooMany` on the role with
/// which there are more ranks than a plan may have. Then comes the first fault that the text has as a plan, on the line
/// of the pattern that it comes from. After the fault `Write` the front of the text that it counts is written, after
/// any other fault nothing. `Memory` may come in place of any other answer. What is said of bytes is said where the
/// reader and the writer tell theirs.
pub fn expand_pattern<R: Source, W: Sink>(
    alloc: Global,
    asked: Expansion<'_>,
    reader: &mut R,
    writer: &mut W,
) -> Result<(), Fault>
    ensures ok { OnOk result (WritesExpanded asked.entry (R.coming reader.old) (W.written writer.old) (W.written writer.new)) }
    ensures quiet { OnOk result ((R.failures reader.new ≡ R.failures reader.old) × (W.failures writer.new ≡ W.failures writer.old)) }

    // Either nothing was written, or the front of the text that the fault counts.
    ensures err { IfErr result (λ e. (StopsBeforeExpanded asked.entry (R.coming reader.old) e × (writer.new ≡ writer.old))
        ⊎ (BreaksOffExpanded asked.entry (R.coming reader.old) (W.written writer.old) (W.written writer.new) e
        × (W.failures writer.new ≡ one_more (W.failures writer.old)))) }

    // A failed read is answered only where the reader failed.
    ensures read_failed { result ≡ Err Read → R.failures reader.new ≡ one_more (R.failures reader.old) }
    ensures unfailed { IfErr result (λ e. e ≢ Memory → e ≢ Read → R.failures reader.new ≡ R.failures reader.old) }
{
    let pattern = read_coming(alloc, reader)?;
    let text = expanded_text(alloc, &pattern, asked);
    drop(pattern);
    let text = text?;
    write_text(writer, text.as_slice())
}
