//! The lines that tell where something waits first with more ranks.

ghost use Rattle.std.specs.Prelude.{◌≡◌, ◌++◌, OnOk};
ghost use Rattle.wire_pattern_later.specs.Later as spec;

use std::alloc::AllocError;
use wire_pattern::Pattern;
use wire_pattern_waits::{CallLine, text_of_verb, write_number, write_role};

/// Appends that something waits at a call line first with so many processes of each group.
fn write_line(
    out: &mut Vec<u8>,
    pattern: &Pattern,
    ranks: u32,
    line: CallLine,
) -> Result<(), AllocError>
    ensures { OnOk result (out.new.items ≡ out.old.items ++ spec.later_line pattern.now ranks line) }
{
    out.extend_from_slice(b"later ")?;
    write_number(out, ranks as usize)?;
    out.push(b' ')?;
    write_role(out, pattern, line.role)?;
    out.push(b' ')?;
    write_number(out, line.number)?;
    out.push(b' ')?;
    out.extend_from_slice(text_of_verb(line.verb).as_bytes())?;
    out.push(b'\n')?;
    Ok(())
}

/// Appends that something waits at each of these call lines first with so many processes of each group: a line `later N
/// ROLE LINE VERB` for each.
pub fn write_later(
    out: &mut Vec<u8>,
    pattern: &Pattern,
    ranks: u32,
    lines: &[CallLine],
) -> Result<(), AllocError>
    ensures { OnOk result (out.new.items ≡ out.old.items ++ spec.later_text pattern.now ranks lines.now) }
{
    for line in lines {
        write_line(out, pattern, ranks, *line)?;
    }
    Ok(())
}
