//! The get-now lines of a pattern.

ghost use Rattle.std.specs.Prelude.{◌≡◌, ◌++◌, ◌∷◌, [], OnOk, IfOk, filter, map};
ghost use Rattle.wire_pattern.specs.Views.{step_by};
ghost use Rattle.wire_pattern_waits.specs.Lines.{verbs_in, numbered};
ghost use Rattle.wire_pattern_answers.specs.Lines as spec;
ghost use Rattle.wire_pattern_answers.specs.Lines.{get_now_lines};

use std::alloc::{AllocError, Global};
use wire_pattern::{Pattern, Step};
use wire_pattern_waits::{CallLine, verbs_of};
use wire_types::Verb;

/// Whether a verb is `get-now`.
fn is_get_now(verb: Verb) -> bool
    ensures { result ≡ spec.is_get_now verb }
{
    match verb {
        Verb::GetNow => true,
        _ => false,
    }
}

/// Adds a call line if it is a get-now.
fn add_line(out: &mut Vec<CallLine>, line: CallLine) -> Result<(), AllocError>
    ensures { OnOk result (out.new.items ≡ out.old.items ++ filter (λ c. spec.is_get_now c.verb) (line ∷ [])) }
{
    if is_get_now(line.verb) {
        out.push(line)?;
    }
    Ok(())
}

/// Adds the get-now lines of a role with this script.
fn add_script(
    out: &mut Vec<CallLine>,
    alloc: Global,
    role: u32,
    steps: &[Step],
) -> Result<(), AllocError>
    ensures { OnOk result (out.new.items ≡ out.old.items
        ++ filter (λ c. spec.is_get_now c.verb) (numbered role 1 (verbs_in (map step_by steps.now)))) }
{
    let verbs = verbs_of(alloc, steps)?;
    for (index, verb) in verbs.iter().enumerate() {
        let line = CallLine {
            role,
            number: index + 1,
            verb: *verb,
        };
        add_line(out, line)?;
    }
    Ok(())
}

/// The get-now lines of a pattern, in the order of roles and lines.
pub(crate) fn lines_of(alloc: Global, pattern: &Pattern) -> Result<Vec<CallLine>, AllocError>
    ensures { IfOk result (λ v. v.items ≡ get_now_lines pattern.now) }
{
    let mut lines = Vec::new(alloc);
    for (number, role) in pattern.roles().iter().enumerate() {
        add_script(&mut lines, alloc, number as u32, role.steps.as_slice())?;
    }
    Ok(lines)
}
