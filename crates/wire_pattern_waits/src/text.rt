//! The lines that tell where something waits.

ghost use Rattle.std.specs.Prelude.{◌≡◌, ◌++◌, OnOk, decimal, slice_get};
ghost use Rattle.wire_types.specs.Verbs as verbs;
ghost use Rattle.wire_pattern_waits.specs.Lines as spec;
ghost use Rattle.wire_pattern_waits.specs.Lines.{name_in};

use crate::lines::CallLine;
use itoa::Buffer;
use std::alloc::AllocError;
use wire_pattern::Pattern;
use wire_types::Verb;

/// How a verb is spelled.
pub fn text_of_verb(verb: Verb) -> &'static str
    ensures { result.now ≡ verbs.text_of_verb verb }
{
    match verb {
        Verb::Put => "put",
        Verb::Commit => "commit",
        Verb::Get => "get",
        Verb::GetNow => "get-now",
        Verb::Fence => "fence",
        Verb::Publish => "publish",
        Verb::Lookup => "lookup",
        Verb::LookupWait => "lookup-wait",
        Verb::Unpublish => "unpublish",
    }
}

/// Appends a number in decimal.
pub fn write_number(out: &mut Vec<u8>, number: usize) -> Result<(), AllocError>
    ensures { OnOk result (out.new.items ≡ out.old.items ++ decimal number) }
{
    let mut buffer = Buffer::new();
    out.extend_from_slice(buffer.format(number).as_bytes())
}

/// Appends the name of a role, nothing where there is no such role.
pub fn write_role(out: &mut Vec<u8>, pattern: &Pattern, role: u32) -> Result<(), AllocError>
    ensures { OnOk result (out.new.items ≡ out.old.items ++ name_in (slice_get pattern.now.roles role)) }
{
    match pattern.roles().get(role as usize) {
        Some(role) => out.extend_from_slice(role.name.as_slice()),
        None => Ok(()),
    }
}

/// Appends that something waits at a call line.
fn write_line(out: &mut Vec<u8>, pattern: &Pattern, line: CallLine) -> Result<(), AllocError>
    ensures { OnOk result (out.new.items ≡ out.old.items ++ spec.waits_line pattern.now line) }
{
    out.extend_from_slice(b"waits ")?;
    write_role(out, pattern, line.role)?;
    out.push(b' ')?;
    write_number(out, line.number)?;
    out.push(b' ')?;
    out.extend_from_slice(text_of_verb(line.verb).as_bytes())?;
    out.push(b'\n')?;
    Ok(())
}

/// Appends that something waits at each of these call lines: a line `waits ROLE LINE VERB` for each.
pub fn write_waits(
    out: &mut Vec<u8>,
    pattern: &Pattern,
    lines: &[CallLine],
) -> Result<(), AllocError>
    ensures { OnOk result (out.new.items ≡ out.old.items ++ spec.waits_text pattern.now lines.now) }
{
    for line in lines {
        write_line(out, pattern, *line)?;
    }
    Ok(())
}
