//! The call lines at which something stands, in the order of the pattern.

ghost use Rattle.std.specs.Prelude.{◌≡◌, ◌++◌, ◌∷◌, [], OnOk, IfOk, filter, map};
ghost use Rattle.wire_pattern.specs.Views.{step_by};
ghost use Rattle.wire_pattern_waits.specs.LineSets.{has_line};
ghost use Rattle.wire_pattern_waits.specs.Lines as spec;
ghost use Rattle.wire_pattern_waits.specs.Lines.{verbs_in};

use crate::line_set::LineSet;
use crate::lines::{CallLine, verbs_of};
use std::alloc::{AllocError, Global};
use wire_pattern::{Pattern, Step};

/// Adds the call line of this number if it is noted.
fn add_line(out: &mut Vec<CallLine>, noted: &LineSet, line: CallLine) -> Result<(), AllocError>
    ensures { OnOk result (out.new.items ≡ out.old.items ++ filter (λ c. has_line noted.now c.role c.number) (line ∷ [])) }
{
    if noted.has(line.role, line.number) {
        out.push(line)?;
    }
    Ok(())
}

/// Adds the call lines of a role with this script that are noted.
fn add_script(
    out: &mut Vec<CallLine>,
    alloc: Global,
    noted: &LineSet,
    role: u32,
    steps: &[Step],
) -> Result<(), AllocError>
    ensures { OnOk result (out.new.items ≡ out.old.items
        ++ filter (λ c. has_line noted.now c.role c.number) (spec.numbered role 1 (verbs_in (map step_by steps.now)))) }
{
    let verbs = verbs_of(alloc, steps)?;
    for (index, verb) in verbs.iter().enumerate() {
        let line = CallLine {
            role,
            number: index + 1,
            verb: *verb,
        };
        add_line(out, noted, line)?;
    }
    Ok(())
}

/// The call lines of a pattern that are noted, in the order of roles and lines.
pub fn noted_lines(
    alloc: Global,
    pattern: &Pattern,
    noted: &LineSet,
) -> Result<Vec<CallLine>, AllocError>
    ensures { IfOk result (λ v. v.items ≡ filter (λ c. has_line noted.now c.role c.number) (spec.call_lines pattern.now)) }
{
    let mut lines = Vec::new(alloc);
    for (number, role) in pattern.roles().iter().enumerate() {
        add_script(
            &mut lines,
            alloc,
            noted,
            number as u32,
            role.steps.as_slice(),
        )?;
    }
    Ok(lines)
}
