//! The lines that tell with which statuses get-nows are answered.

ghost use Rattle.std.specs.Prelude.{◌≡◌, ◌++◌, OnOk};
ghost use Rattle.wire_pattern_answers.specs.Lines as spec;

use crate::answers::LineAnswers;
use std::alloc::AllocError;
use wire_pattern::Pattern;
use wire_pattern_waits::{write_number, write_role};

/// Appends a word, where it is to be told.
fn write_if(out: &mut Vec<u8>, told: bool, word: &[u8]) -> Result<(), AllocError>
    ensures { OnOk result (out.new.items ≡ out.old.items ++ spec.word_if told word.now) }
{
    if told {
        out.extend_from_slice(word)?;
    }
    Ok(())
}

/// Whether a line is never answered.
fn is_never(answers: LineAnswers) -> bool
    ensures { result ≡ spec.is_never answers }
{
    !answers.success && !answers.not_found && !answers.outside
}

/// Appends the statuses of a line, or that there are none.
fn write_statuses(out: &mut Vec<u8>, answers: LineAnswers) -> Result<(), AllocError>
    ensures { OnOk result (out.new.items ≡ out.old.items ++ spec.statuses_text answers) }
{
    write_if(out, answers.success, b" PMIX_SUCCESS")?;
    write_if(out, answers.not_found, b" PMIX_ERR_NOT_FOUND")?;
    write_if(out, answers.outside, b" PMIX_ERR_EXISTS_OUTSIDE_SCOPE")?;
    write_if(out, is_never(answers), b" none")?;
    Ok(())
}

/// Appends with which statuses a line is answered.
fn write_line(out: &mut Vec<u8>, pattern: &Pattern, answers: LineAnswers) -> Result<(), AllocError>
    ensures { OnOk result (out.new.items ≡ out.old.items ++ spec.answers_line pattern.now answers) }
{
    out.extend_from_slice(b"answers ")?;
    write_role(out, pattern, answers.line.role)?;
    out.push(b' ')?;
    write_number(out, answers.line.number)?;
    out.extend_from_slice(b" get-now")?;
    write_statuses(out, answers)?;
    out.push(b'\n')?;
    Ok(())
}

/// Appends with which statuses these lines are answered: a line `answers ROLE LINE get-now STATUS ..` for each.
pub fn write_answers(
    out: &mut Vec<u8>,
    pattern: &Pattern,
    all: &[LineAnswers],
) -> Result<(), AllocError>
    ensures { OnOk result (out.new.items ≡ out.old.items ++ spec.answers_text pattern.now all.now) }
{
    for answers in all {
        write_line(out, pattern, *answers)?;
    }
    Ok(())
}
