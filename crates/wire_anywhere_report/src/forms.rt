//! The texts in each form.

ghost use Rattle.std.specs.Prelude.{◌≡◌, IfOk};
ghost use Rattle.wire_types.specs.Texts.{lists_of};
ghost use Rattle.wire_anywhere_report.specs.Differing.{differing_form};
ghost use Rattle.wire_anywhere_report.specs.Forms.{TellsPlaced};

use crate::differing_json::differing_json;
use crate::differing_lines::differing_lines;
use crate::placed_groups::grouped_text;
use crate::placed_json::{grouped_json, plain_json};
use crate::placed_lines::lines_text;
use std::alloc::{AllocError, Global};
use wire_anywhere::{Differing, PlacedList};
use wire_report::SourceLines;
use wire_scripts::Scripts;
use wire_types::OutputFormat;

/// The text of findings of all placements, in this form. A line has what `check` writes of the finding, and of a race
/// on a key then ` on ` and the two ranks that share a node where it races. In a form with places findings are in
/// groups, as those of `check`, and the second line of a group ends with the two ranks of its first finding. As JSON
/// each finding is an object, with its words, and the two ranks as its member `on`. The one error is that memory ran
/// out.
pub fn on_placement_text(
    alloc: Global,
    scripts: &Scripts,
    places: SourceLines<'_>,
    form: OutputFormat,
    found: &PlacedList,
) -> Result<Vec<u8>, AllocError>
    ensures { IfOk result (λ text. TellsPlaced form places.entry.name.now (lists_of places.entry.rows.now) scripts.now found.now
        text.items) }
{
    match form {
        OutputFormat::Lines => lines_text(alloc, scripts, found),
        OutputFormat::Places => grouped_text(alloc, places, scripts, found),
        OutputFormat::Json => plain_json(alloc, scripts, places.rows, found),
        OutputFormat::PlacedJson => grouped_json(alloc, scripts, places.rows, found),
    }
}

/// The text of the calls whose replies differ between placements, where nothing is found on any of them, in this
/// form: that there are no findings, a line for each call, and last how many calls there are; or an object for each
/// call. A form with places has the line of each call in the file. The one error is that memory ran out.
pub fn same_text(
    alloc: Global,
    scripts: &Scripts,
    places: SourceLines<'_>,
    form: OutputFormat,
    differing: &[Differing],
) -> Result<Vec<u8>, AllocError>
    ensures { IfOk result (λ text. text.items
        ≡ differing_form form places.entry.name.now (lists_of places.entry.rows.now) scripts.now differing.now) }
{
    if form.is_json() {
        differing_json(alloc, scripts, places.rows, form, differing)
    } else {
        differing_lines(alloc, scripts, places, form, differing)
    }
}
