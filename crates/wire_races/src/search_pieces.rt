//! The pieces in which threads look for findings. Each piece is looked for by itself, and all are
//! added one after another, so that what is found is the same whatever pieces the threads take.

ghost use Rattle.std.specs.Prelude.{OnOk};
ghost use Rattle.wire_runs.specs.Plan as runs;
ghost use Rattle.wire_findings.specs.Collected.{AreFound};
ghost use Rattle.wire_races.specs.Adding.{AddsFindings};
ghost use Rattle.wire_races.specs.Pieces.{IsInSome, AreAllFound};

use std::alloc::AllocError;
use wire_findings::FindingsBuilder;

/// Adds the findings of all pieces. The one error is that memory ran out.
pub(crate) fn add_pieces(
    found: &mut FindingsBuilder,
    pieces: Vec<FindingsBuilder>,
) -> Result<(), AllocError>
    ensures { OnOk result ((plan : runs.Plan) → AreFound plan found.old → AreAllFound plan pieces.items →
        AddsFindings plan found.old found.new (IsInSome plan pieces.items)) }
{
    for piece in pieces {
        found.append(piece)?;
    }
    Ok(())
}
