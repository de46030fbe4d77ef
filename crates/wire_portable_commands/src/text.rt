//! The whole text: that of the findings, and what is told of libraries.

ghost use Rattle.std.specs.Prelude.{◌≡◌, OnOk};
ghost use Rattle.wire_types.specs.Texts.{lists_of};
ghost use Rattle.wire_portable_commands.specs.Text as spec;

use crate::groups::push_grouped;
use crate::json::push_members;
use crate::lines::push_lines;
use std::alloc::{AllocError, Global};
use wire_command::AnswerStyle;
use wire_portable::Unportable;
use wire_scripts::Scripts;
use wire_types::OutputFormat;

/// Takes the end of an object away: a brace and a line feed.
fn open_object(told: &mut Vec<u8>)
    ensures { told.new.items ≡ spec.open_object told.old.items }
{
    let end = told.len().saturating_sub(2);
    told.truncate(end);
}

/// Puts what is told of libraries behind the text of findings, in its form. The one error is that memory ran out.
pub(crate) fn tell_libraries(
    alloc: Global,
    told: &mut Vec<u8>,
    scripts: &Scripts,
    telling: AnswerStyle<'_>,
    lines: &[Unportable],
) -> Result<(), AllocError>
    ensures { OnOk result (told.new.items ≡ spec.whole_text telling.entry.form telling.entry.places.name.now
        (lists_of telling.entry.places.rows.now) scripts.now told.old.items lines.now) }
{
    match telling.form {
        OutputFormat::Lines => push_lines(alloc, told, scripts, lines),
        OutputFormat::Places => push_grouped(told, telling.places, scripts, lines),
        OutputFormat::Json | OutputFormat::PlacedJson => {
            open_object(told);
            push_members(alloc, told, scripts, telling, lines)
        }
    }
}
