//! The call lines of a pattern.

ghost use Rattle.std.specs.Prelude.{◌≡◌, ◌++◌, OnOk, IfOk, map};
ghost use Rattle.wire_pattern.specs.Views.{view_call, line_by, step_by};
ghost use Rattle.wire_pattern_waits.specs.Lines as spec;
ghost use Rattle.wire_pattern_waits.specs.Lines.{lines_in, verbs_in};

use std::alloc::{AllocError, Global};
use wire_pattern::{Call, Line, Step};
use wire_types::Verb;

/// A call line of a pattern: the number of its role, its own among the call lines of the role's script, from 1, and its
/// verb.
#[derive(Clone, Copy)]
pub struct CallLine {
    pub role: u32,
    pub number: usize,
    pub verb: Verb,
}

/// The verb of a call.
fn verb_of(call: &Call) -> Verb
    ensures { result ≡ spec.verb_of (view_call call.now) }
{
    match call {
        Call::Put { .. } => Verb::Put,
        Call::Commit => Verb::Commit,
        Call::Fence { .. } => Verb::Fence,
        Call::Get { .. } => Verb::Get,
        Call::GetNow { .. } => Verb::GetNow,
        Call::Publish { .. } => Verb::Publish,
        Call::Lookup { .. } => Verb::Lookup,
        Call::LookupWait { .. } => Verb::LookupWait,
        Call::Unpublish { .. } | Call::UnpublishAll => Verb::Unpublish,
    }
}

/// Appends the verbs of call lines.
fn add_lines(verbs: &mut Vec<Verb>, lines: &[Line]) -> Result<(), AllocError>
    ensures { OnOk result (verbs.new.items ≡ verbs.old.items ++ map (λ l. spec.verb_of l.call) (map line_by lines.now)) }
{
    for line in lines {
        verbs.push(verb_of(&line.call))?;
    }
    Ok(())
}

/// Appends the verbs of the call lines of a step.
fn add_step(verbs: &mut Vec<Verb>, step: &Step) -> Result<(), AllocError>
    ensures { OnOk result (verbs.new.items ≡ verbs.old.items ++ map (λ l. spec.verb_of l.call) (lines_in (step_by step.now))) }
{
    match step {
        Step::Once(line) => Ok(verbs.push(verb_of(&line.call))?),
        Step::Loop { lines, .. } => add_lines(verbs, lines.as_slice()),
    }
}

/// The verbs of the call lines of a script, in order.
pub fn verbs_of(alloc: Global, steps: &[Step]) -> Result<Vec<Verb>, AllocError>
    ensures { IfOk result (λ verbs. verbs.items ≡ verbs_in (map step_by steps.now)) }
{
    let mut verbs = Vec::new(alloc);
    for step in steps {
        add_step(&mut verbs, step)?;
    }
    Ok(verbs)
}
