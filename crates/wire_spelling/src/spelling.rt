//! How the calls of fences spell their sets.

ghost use Rattle.std.specs.Prelude.{◌≡◌, IfOk, IsOkUnless};
ghost use Rattle.wire_spelling.specs.Spelling.{AreSetsNumbered, at_call, spelled_sets};

use crate::reading::spelt_rows;
use std::alloc::Global;
use std::marker::Model;
use wire_types::{CallAt, Fault};

/// How a call of a fence spells its set: by a number, the same for sets with the same items in whatever order; and whether
/// the set names a process or a job twice.
#[derive(Clone, Copy, PartialEq, Eq)]
pub struct Spelt {
    pub number: usize,
    pub repeats: bool,
}

/// How each call of a plan's fences spells its set. Scripts don't tell it, since a set there has each process once.
pub struct Spelling {
    rows: Vec<Vec<Option<Spelt>>>,
}

// By hand and not derived: so dropping one is a call, and the proof of a function that drops one doesn't take it apart.
impl Drop for Spelling {
    fn drop(self) {
        let Spelling { rows: _ } = self;
    }
}

impl Model for Spelling {
    ghost use Rattle.std.specs.Prelude.{List, Option, map};
    ghost use Rattle.wire_spelling.specs.declared.spelling.Spelt.{Spelt as Told};

    ghost Value = { List (List (Option Told)) };

    ghost view = { λ s. map (λ v. v.items) s.rows.items };
}

impl Spelling {
    /// How a call spells the set of its fence.
    pub fn of(&self, call: CallAt) -> Option<Spelt>
        ensures { result ≡ at_call self.now call.proc.number call.call }
    {
        match self.rows.get(call.proc.index()) {
            Some(row) => match row.get(call.call as usize) {
                Some(spelt) => *spelt,
                None => None,
            },
            None => None,
        }
    }
}

/// How the calls in a plan's text spell the sets of their fences. The one fault is `Fault::Memory`.
pub fn read_spelling(alloc: Global, text: &[u8]) -> Result<Spelling, Fault>
    ensures ok { IfOk result (λ rows. AreSetsNumbered (spelled_sets text.now) rows) }
    ensures memory { IsOkUnless result Fault.Memory }
{
    let rows = spelt_rows(alloc, text)?;
    Ok(Spelling { rows })
}
